ghost use Rattle.std.specs.Prelude.{◌≡◌, ◌∷◌};
ghost use Rattle.of_cells.specs.Outcomes.{Becomes};
ghost use Rattle.of_fcodes.specs.declared.words.MemoryWord.{MemoryWord};
ghost use Rattle.of_prims.specs.Memory.{memory_entry, value_stored, with_sign, order_of};

use crate::faults::{cell_at, check_read, check_write, put_cell, slice, thrown};
use of_cells::Cell;
use of_fcodes::MemoryWord;
use of_memory::{Memory, Width, parts_are_good};
use of_stacks::{DataStack, Throw};

/// `@` ( a -- x ), or -4, -9, -23; by itself for programs that run it often.
#[tactic(auto, unfolding(crate::specs::Memory::memory_entry))]
#[inline(always)]
pub fn fetch(stack: &mut DataStack, memory: &Memory) -> Result<(), Throw>
    ensures { Becomes (memory_entry MemoryWord.Fetch stack.old memory.now)
        (stack.old, memory.now) (stack.new, memory.now) result }
{
    let a = stack.peek()?;
    let x = thrown(memory.read32(a))?;
    stack.replace_top(x);
    Ok(())
}

/// `c@` ( a -- byte ), or -4, -9; by itself for programs that run it often.
#[tactic(auto, unfolding(crate::specs::Memory::memory_entry))]
#[inline(always)]
pub fn fetch_byte(stack: &mut DataStack, memory: &Memory) -> Result<(), Throw>
    ensures { Becomes (memory_entry MemoryWord.FetchByte stack.old memory.now)
        (stack.old, memory.now) (stack.new, memory.now) result }
{
    let a = stack.peek()?;
    let x = thrown(memory.read8(a))?;
    stack.replace_top(Cell(u32::from(x)));
    Ok(())
}

/// `!` ( x a -- ), or -4, -9, -23, -20; by itself for programs that run it often.
#[tactic(auto, unfolding(crate::specs::Memory::memory_entry))]
#[inline(always)]
pub fn store(stack: &mut DataStack, memory: &mut Memory) -> Result<(), Throw>
    ensures { Becomes (memory_entry MemoryWord.Store stack.old memory.old)
        (stack.old, memory.old) (stack.new, memory.new) result }
{
    let (x, a) = stack.top_two()?;
    thrown(memory.write32(a, x))?;
    stack.drop_top(2);
    Ok(())
}

/// `c!` ( x a -- ) the low byte, or -4, -9, -20; by itself for programs that run it often.
#[tactic(auto, unfolding(crate::specs::Memory::memory_entry))]
#[inline(always)]
pub fn store_byte(stack: &mut DataStack, memory: &mut Memory) -> Result<(), Throw>
    ensures { Becomes (memory_entry MemoryWord.StoreByte stack.old memory.old)
        (stack.old, memory.old) (stack.new, memory.new) result }
{
    let (x, a) = stack.top_two()?;
    thrown(memory.write8(a, x.low_byte().0 as u8))?;
    stack.drop_top(2);
    Ok(())
}

/// ( a -- half )
#[tactic(auto, unfolding(crate::specs::Memory::memory_entry))]
#[inline]
fn fetch_half(stack: &mut DataStack, memory: &Memory) -> Result<(), Throw>
    ensures { Becomes (memory_entry MemoryWord.FetchWord stack.old memory.now)
        (stack.old, memory.now) (stack.new, memory.now) result }
{
    let a = stack.peek()?;
    let x = thrown(memory.read16(a))?;
    stack.replace_top(Cell(u32::from(x)));
    Ok(())
}

/// ( a -- half ) with its sign.
#[tactic(auto, unfolding(crate::specs::Memory::memory_entry))]
#[inline]
fn fetch_signed_half(stack: &mut DataStack, memory: &Memory) -> Result<(), Throw>
    ensures { Becomes (memory_entry MemoryWord.FetchSignedWord stack.old memory.now)
        (stack.old, memory.now) (stack.new, memory.now) result }
{
    let a = stack.peek()?;
    let half = thrown(memory.read16(a))?;
    stack.replace_top(with_sign(half));
    Ok(())
}

/// ( a -- ) a cell goes to the address.
#[inline]
fn store_value(value: Cell, stack: &mut DataStack, memory: &mut Memory) -> Result<(), Throw>
    ensures { Becomes (value_stored value stack.old memory.old) (stack.old, memory.old) (stack.new, memory.new) result }
{
    let a = stack.peek()?;
    thrown(memory.write32(a, value))?;
    stack.drop_top(1);
    Ok(())
}

/// The cell of a number of 16 bits with its sign.
fn with_sign(half: u16) -> Cell
    ensures { result ≡ with_sign half }
{
    if half < 1 << 15 {
        Cell(u32::from(half))
    } else {
        Cell(u32::from(half) + 0xffff_0000)
    }
}

/// -1, 0 or 1 as the first differing byte of two texts is less, absent or greater in the first.
fn order_of(first: &[u8], second: &[u8]) -> Cell
    ensures { result ≡ order_of first.now second.now }
{
    let mut first = first;
    let mut second = second;
    while let [x, xs @ ..] = first {
        let [y, ys @ ..] = second else {
            return Cell::ZERO;
        };
        if x < y {
            return Cell::TRUE;
        }
        if y < x {
            return Cell::ONE;
        }
        first = xs;
        second = ys;
    }
    Cell::ZERO
}

/// ( n a -- ) adds to the cell at the address.
#[tactic(auto, unfolding(crate::specs::Memory::memory_entry))]
#[inline(never)]
fn add_to_cell(stack: &mut DataStack, memory: &mut Memory) -> Result<(), Throw>
    ensures { Becomes (memory_entry MemoryWord.PlusStore stack.old memory.old)
        (stack.old, memory.old) (stack.new, memory.new) result }
{
    parts_are_good();
    let (n, a) = stack.top_two()?;
    check_write(memory, a, Cell(4), Width::Four)?;
    let sum = cell_at(memory, a).add(n);
    put_cell(memory, a, sum);
    stack.drop_top(2);
    Ok(())
}

/// ( x a -- ) the low 16 bits go to the address.
#[tactic(auto, unfolding(crate::specs::Memory::memory_entry))]
fn store_half(stack: &mut DataStack, memory: &mut Memory) -> Result<(), Throw>
    ensures { Becomes (memory_entry MemoryWord.StoreWord stack.old memory.old)
        (stack.old, memory.old) (stack.new, memory.new) result }
{
    let (x, a) = stack.top_two()?;
    thrown(memory.write16(a, x.low_half().0 as u16))?;
    stack.drop_top(2);
    Ok(())
}

/// ( a -- x y ) the cell at the address on top, and that behind it.
#[tactic(auto, using(crate::proofs::Counting::counts), unfolding(crate::specs::Memory::memory_entry))]
#[inline(never)]
fn fetch_two(stack: &mut DataStack, memory: &Memory) -> Result<(), Throw>
    ensures { Becomes (memory_entry MemoryWord.FetchTwo stack.old memory.now)
        (stack.old, memory.now) (stack.new, memory.now) result }
{
    parts_are_good();
    let a = stack.peek()?;
    check_read(memory, a, Cell(8), Width::Four)?;
    stack.room_for(1)?;
    let y = cell_at(memory, a);
    let x = cell_at(memory, a.add(Cell(4)));
    stack.replace_top(x);
    stack.push(y);
    Ok(())
}

/// ( x y a -- ) the top cell goes to the address, the other one behind it.
#[tactic(auto, unfolding(crate::specs::Memory::memory_entry))]
#[inline(never)]
fn store_two(stack: &mut DataStack, memory: &mut Memory) -> Result<(), Throw>
    ensures { Becomes (memory_entry MemoryWord.StoreTwo stack.old memory.old)
        (stack.old, memory.old) (stack.new, memory.new) result }
{
    parts_are_good();
    let (x, y, a) = stack.top_three()?;
    check_write(memory, a, Cell(8), Width::Four)?;
    put_cell(memory, a, y);
    put_cell(memory, a.add(Cell(4)), x);
    stack.drop_top(3);
    Ok(())
}

/// ( from to n -- ) the destination gets what the source held before.
#[tactic(auto, unfolding(crate::specs::Memory::memory_entry))]
#[inline(never)]
fn move_bytes(stack: &mut DataStack, memory: &mut Memory) -> Result<(), Throw>
    ensures { Becomes (memory_entry MemoryWord.Move stack.old memory.old)
        (stack.old, memory.old) (stack.new, memory.new) result }
{
    let (from, to, n) = stack.top_three()?;
    thrown(memory.copy(from, to, n))?;
    stack.drop_top(3);
    Ok(())
}

/// ( a n byte -- ) each byte of the range gets the low byte.
#[tactic(auto, unfolding(crate::specs::Memory::memory_entry))]
#[inline(never)]
fn fill_bytes(stack: &mut DataStack, memory: &mut Memory) -> Result<(), Throw>
    ensures { Becomes (memory_entry MemoryWord.Fill stack.old memory.old)
        (stack.old, memory.old) (stack.new, memory.new) result }
{
    let (a, n, x) = stack.top_three()?;
    thrown(memory.fill(a, n, x.low_byte().0 as u8))?;
    stack.drop_top(3);
    Ok(())
}

/// ( a b n -- order ) which of two ranges has the greater byte where they first differ.
#[tactic(auto, unfolding(crate::specs::Memory::memory_entry))]
#[inline(never)]
fn compare_bytes(stack: &mut DataStack, memory: &Memory) -> Result<(), Throw>
    ensures { Becomes (memory_entry MemoryWord.Compare stack.old memory.now)
        (stack.old, memory.now) (stack.new, memory.now) result }
{
    let (a, b, n) = stack.top_three()?;
    let first = slice(memory, a, n)?;
    let second = slice(memory, b, n)?;
    let order = order_of(first, second);
    stack.drop_top(3);
    stack.push(order);
    Ok(())
}

/// ( x -- ) a cell is appended at `here`.
#[tactic(auto, unfolding(crate::specs::Memory::memory_entry))]
#[inline(never)]
fn append_cell(stack: &mut DataStack, memory: &mut Memory) -> Result<(), Throw>
    ensures { Becomes (memory_entry MemoryWord.Comma stack.old memory.old)
        (stack.old, memory.old) (stack.new, memory.new) result }
{
    let x = stack.peek()?;
    thrown(memory.append(&x.0.to_be_bytes()))?;
    stack.drop_top(1);
    Ok(())
}

/// ( x -- ) the low 16 bits are appended at `here`.
#[tactic(auto, unfolding(crate::specs::Memory::memory_entry))]
#[inline(never)]
fn append_half(stack: &mut DataStack, memory: &mut Memory) -> Result<(), Throw>
    ensures { Becomes (memory_entry MemoryWord.CommaWord stack.old memory.old)
        (stack.old, memory.old) (stack.new, memory.new) result }
{
    let x = stack.peek()?;
    let half = x.low_half().0 as u16;
    thrown(memory.append(&half.to_be_bytes()))?;
    stack.drop_top(1);
    Ok(())
}

/// ( x -- ) the low byte is appended at `here`.
#[tactic(auto, unfolding(crate::specs::Memory::memory_entry))]
#[inline(never)]
fn append_byte(stack: &mut DataStack, memory: &mut Memory) -> Result<(), Throw>
    ensures { Becomes (memory_entry MemoryWord.CommaByte stack.old memory.old)
        (stack.old, memory.old) (stack.new, memory.new) result }
{
    let x = stack.peek()?;
    let byte = x.low_byte().0 as u8;
    thrown(memory.append(&byte.to_be_bytes()))?;
    stack.drop_top(1);
    Ok(())
}

/// ( a n -- ) gives a block of the heap back.
#[tactic(auto, unfolding(crate::specs::Memory::memory_entry))]
#[inline(never)]
fn give_back(stack: &mut DataStack, memory: &mut Memory) -> Result<(), Throw>
    ensures { Becomes (memory_entry MemoryWord.FreeMem stack.old memory.old)
        (stack.old, memory.old) (stack.new, memory.new) result }
{
    let (a, n) = stack.top_two()?;
    thrown(memory.heap_give(a, n))?;
    stack.drop_top(2);
    Ok(())
}

/// Runs a word of the group Memory over the data stack and the data space; a throw changes
/// nothing.
///
/// -4 where a cell is missing, then -9, -23 or -20 where a range can't be read or written, -24
/// where no block is given back, -8 where the data region is full, -3 where the stack has no room.
#[tactic(auto, unfolding(crate::specs::Memory::memory_entry))]
#[inline(always)]
pub fn run_memory_word(
    word: MemoryWord,
    stack: &mut DataStack,
    memory: &mut Memory,
) -> Result<(), Throw>
    ensures { Becomes (memory_entry word stack.old memory.old) (stack.old, memory.old) (stack.new, memory.new) result }
{
    match word {
        MemoryWord::On => store_value(Cell::TRUE, stack, memory)?,
        MemoryWord::Off => store_value(Cell::ZERO, stack, memory)?,
        MemoryWord::PlusStore => add_to_cell(stack, memory)?,
        MemoryWord::Fetch => fetch(stack, memory)?,
        MemoryWord::FetchLong => fetch(stack, memory)?,
        MemoryWord::FetchWord => fetch_half(stack, memory)?,
        MemoryWord::FetchSignedWord => fetch_signed_half(stack, memory)?,
        MemoryWord::FetchByte => fetch_byte(stack, memory)?,
        MemoryWord::Store => store(stack, memory)?,
        MemoryWord::StoreLong => store(stack, memory)?,
        MemoryWord::StoreWord => store_half(stack, memory)?,
        MemoryWord::StoreByte => store_byte(stack, memory)?,
        MemoryWord::FetchTwo => fetch_two(stack, memory)?,
        MemoryWord::StoreTwo => store_two(stack, memory)?,
        MemoryWord::Move => move_bytes(stack, memory)?,
        MemoryWord::Fill => fill_bytes(stack, memory)?,
        MemoryWord::Compare => compare_bytes(stack, memory)?,
        MemoryWord::CommaByte => append_byte(stack, memory)?,
        MemoryWord::CommaWord => append_half(stack, memory)?,
        MemoryWord::CommaLong => append_cell(stack, memory)?,
        MemoryWord::Comma => append_cell(stack, memory)?,
        MemoryWord::FreeMem => give_back(stack, memory)?,
    }
    Ok(())
}
