ghost use Rattle.std.specs.Prelude.{◌≡◌};
ghost use Rattle.of_cells.specs.Outcomes.{Becomes};
ghost use Rattle.of_prims.specs.Addresses.{addressed, addresses_entry, addressing_of, rounded_up};

use crate::address_shapes::Addressing;
use of_cells::Cell;
use of_fcodes::AddressesWord;
use of_memory::Memory;
use of_stacks::{DataStack, Throw};

/// The size of a byte.
const BYTE: Cell = Cell(1);

/// The size of 16 bits, in bytes.
const WORD: Cell = Cell(2);

/// The size of a cell, in bytes.
const CELL: Cell = Cell(4);

/// The cell up to a multiple of 4, modulo 2^32.
fn round_up(x: Cell) -> Cell
    ensures { result ≡ rounded_up x }
{
    Cell(x.0.wrapping_add(3) / 4 * 4)
}

/// What the word takes and leaves, with the size of an item.
#[tactic(auto, unfolding(crate::specs::Addresses::addressing_of))]
#[inline]
fn addressing_of(word: AddressesWord) -> Addressing
    ensures { result ≡ addressing_of word }
{
    match word {
        AddressesWord::ByteSize => Addressing::Size(BYTE),
        AddressesWord::WordSize => Addressing::Size(WORD),
        AddressesWord::LongSize => Addressing::Size(CELL),
        AddressesWord::CellSize => Addressing::Size(CELL),
        AddressesWord::ByteIndexed => Addressing::Indexed(BYTE),
        AddressesWord::WordIndexed => Addressing::Indexed(WORD),
        AddressesWord::LongIndexed => Addressing::Indexed(CELL),
        AddressesWord::CellIndexed => Addressing::Indexed(CELL),
        AddressesWord::NextByte => Addressing::Next(BYTE),
        AddressesWord::NextWord => Addressing::Next(WORD),
        AddressesWord::NextLong => Addressing::Next(CELL),
        AddressesWord::NextCell => Addressing::Next(CELL),
        AddressesWord::Bytes => Addressing::Scaled(BYTE),
        AddressesWord::Words => Addressing::Scaled(WORD),
        AddressesWord::Longs => Addressing::Scaled(CELL),
        AddressesWord::Cells => Addressing::Scaled(CELL),
        AddressesWord::Aligned => Addressing::Aligned,
        AddressesWord::Here => Addressing::Here,
        AddressesWord::Bounds => Addressing::Bounds,
    }
}

/// Takes and leaves what is asked for.
#[inline]
fn address(addressing: Addressing, stack: &mut DataStack, memory: &Memory) -> Result<(), Throw>
    ensures { Becomes (addressed addressing memory.now.here stack.old) stack.old stack.new result }
{
    match addressing {
        Addressing::Size(size) => stack.try_push(size)?,
        Addressing::Indexed(size) => {
            let (a, i) = stack.top_two()?;
            stack.replace_two(a.add(i.mul(size)));
        }
        Addressing::Next(size) => {
            let a = stack.peek()?;
            stack.replace_top(a.add(size));
        }
        Addressing::Scaled(size) => {
            let i = stack.peek()?;
            stack.replace_top(i.mul(size));
        }
        Addressing::Aligned => {
            let x = stack.peek()?;
            stack.replace_top(round_up(x));
        }
        Addressing::Here => stack.try_push(memory.here())?,
        Addressing::Bounds => {
            let (a, n) = stack.top_two()?;
            stack.replace_two(a.add(n));
            stack.push(a);
        }
    }
    Ok(())
}

/// Runs a word of the group Addresses over the data stack; a throw changes nothing.
///
/// -4 where a cell is missing, -3 where the stack has no room.
#[inline]
pub fn run_address_word(
    word: AddressesWord,
    stack: &mut DataStack,
    memory: &Memory,
) -> Result<(), Throw>
    ensures { Becomes (addresses_entry word memory.now.here stack.old) stack.old stack.new result }
{
    address(addressing_of(word), stack, memory)
}
