ghost use Rattle.std.specs.Prelude.{◌≡◌, ◌∷◌, ◌≤◌, drop, length, false, IfErr, OnOk, Err, Ok};
ghost use Rattle.of_cells.specs.Numbers.{flag};
ghost use Rattle.of_memory.specs.Access.{read, write};
ghost use Rattle.of_cells.specs.Outcomes.{Becomes};
ghost use Rattle.of_asking.specs.Devices.{cut, devices_entry, failed, fetch_of, in_memory, is_aligned, is_device};
ghost use Rattle.of_asking.specs.Devices.{peek_entry, peeked, poke_entry, poked, read_entry, store_of, write_entry};
ghost use Rattle.of_board.specs.Left.{stack_left};
ghost use Rattle.of_asking.specs.Questions.{Gives, Tells};

use crate::answers::{
    ask, drop_done, replace_by_found, replace_by_peek, replace_by_poke, replace_by_value,
};
use crate::halt::Halt;
use crate::keys::{milliseconds, wait};
use crate::query::{Answer, Query};
use of_board::Board;
use of_cells::Cell;
use of_fcodes::{DevicesWord, MemoryWord};
use of_memory::{MemFault, Memory, Width};
use of_prims::run_memory_word;
use of_stacks::{DataStack, Throw};

/// Whether each byte of an access is a device's.
fn is_device(address: Cell, width: Width) -> bool
    ensures { result ≡ is_device address.0 width }
{
    address.0 >= 0x8000_0000 && address.0 <= 0xC000_0000 - width.bytes()
}

/// Whether an address is a multiple of the width.
fn is_aligned(address: Cell, width: Width) -> bool
    ensures { result ≡ is_aligned address.0 width }
{
    match width {
        Width::One => true,
        Width::Two => address.0 % 2 == 0,
        Width::Four => address.0 % 4 == 0,
    }
}

/// The low bytes of a cell, as many as the width has.
fn cut(width: Width, x: Cell) -> Cell
    ensures { result ≡ cut width x }
{
    match width {
        Width::One => x.low_byte(),
        Width::Two => x.low_half(),
        Width::Four => x,
    }
}

/// The word over the data space that reads so many bytes.
fn fetch_of(width: Width) -> MemoryWord
    ensures { result ≡ fetch_of width }
{
    match width {
        Width::One => MemoryWord::FetchByte,
        Width::Two => MemoryWord::FetchWord,
        Width::Four => MemoryWord::FetchLong,
    }
}

/// The word over the data space that writes so many bytes.
fn store_of(width: Width) -> MemoryWord
    ensures { result ≡ store_of width }
{
    match width {
        Width::One => MemoryWord::StoreByte,
        Width::Two => MemoryWord::StoreWord,
        Width::Four => MemoryWord::StoreLong,
    }
}

/// Runs a word over the data space.
fn run_in_memory(word: MemoryWord, board: &mut Board) -> Result<(), Halt>
    ensures value { Tells (in_memory word board.old) board.old board.new result }
    ensures console { board.new.console ≡ board.old.console }
{
    run_memory_word(word, &mut board.stack, &mut board.memory)?;
    Ok(())
}

/// `rb@` and its kin ( a -- x )
fn read(width: Width, reply: Option<Answer>, board: &mut Board) -> Result<(), Halt>
    ensures value { Tells (read_entry width board.old.stack reply board.old) board.old board.new result }
    ensures console { board.new.console ≡ board.old.console }
{
    let a = board.stack.peek()?;
    if !is_device(a, width) {
        return run_in_memory(fetch_of(width), board);
    }
    if !is_aligned(a, width) {
        return Err(Halt::Thrown(Throw::ALIGNMENT));
    }
    let answer = ask(reply, Query::Read(width, a))?;
    replace_by_value(answer, &mut board.stack)?;
    Ok(())
}

/// `rb!` and its kin ( x a -- )
fn write(width: Width, reply: Option<Answer>, board: &mut Board) -> Result<(), Halt>
    ensures value { Tells (write_entry width board.old.stack reply board.old) board.old board.new result }
    ensures console { board.new.console ≡ board.old.console }
{
    let (x, a) = board.stack.top_two()?;
    if !is_device(a, width) {
        return run_in_memory(store_of(width), board);
    }
    if !is_aligned(a, width) {
        return Err(Halt::Thrown(Throw::ALIGNMENT));
    }
    let answer = ask(reply, Query::Write(width, a, cut(width, x)))?;
    drop_done(answer, 2, &mut board.stack)?;
    Ok(())
}

/// The number of a width at an address of the data space.
fn number_at(memory: &Memory, width: Width, a: Cell) -> Result<u32, MemFault>
    ensures { result ≡ read width memory.now a.0 }
{
    match width {
        Width::One => Ok(u32::from(memory.read8(a)?)),
        Width::Two => Ok(u32::from(memory.read16(a)?)),
        Width::Four => Ok(memory.read32(a)?.0),
    }
}

/// Writes the low bytes of a cell at an address of the data space.
fn put_number(memory: &mut Memory, width: Width, a: Cell, x: Cell) -> Result<(), MemFault>
    ensures ok { OnOk result (write width memory.old a.0 (cut width x).0 ≡ Ok memory.new) }
    ensures err { IfErr result (λ f. (write width memory.old a.0 (cut width x).0 ≡ Err f) × (memory.new ≡ memory.old)) }
{
    match width {
        Width::One => memory.write8(a, x.low_byte().0 as u8),
        Width::Two => memory.write16(a, x.low_half().0 as u16),
        Width::Four => memory.write32(a, x),
    }
}

/// False in the place of so many operands, for a fault of the data space; -23 for one of alignment.
fn leave_failed(fault: MemFault, count: usize, stack: &mut DataStack) -> Result<(), Throw>
    requires some { 1 ≤ count }
    requires there { count ≤ length stack.old }
    ensures { Becomes (failed (drop count stack.old) fault) stack.old stack.new result }
{
    match fault {
        MemFault::Address => leave_false(count, stack),
        MemFault::Alignment => return Err(Throw::ALIGNMENT),
        MemFault::ReadOnly => leave_false(count, stack),
        MemFault::Full => leave_false(count, stack),
        MemFault::BadBlock => leave_false(count, stack),
        MemFault::NoMemory => leave_false(count, stack),
    }
    Ok(())
}

/// False in the place of so many operands.
fn leave_false(count: usize, stack: &mut DataStack)
    requires some { 1 ≤ count }
    requires there { count ≤ length stack.old }
    ensures { stack.new ≡ flag false ∷ drop count stack.old }
{
    stack.drop_top(count);
    stack.push(Cell::ZERO);
}

/// `cpeek` and its kin ( a -- false, or x true ) over the data space
fn peek_in_memory(width: Width, a: Cell, board: &mut Board) -> Result<(), Halt>
    requires { 1 ≤ length board.old.stack }
    ensures value { Tells (Gives (stack_left board.old (peeked (drop 1 board.old.stack)
        (read width board.old.memory a.0)))) board.old board.new result }
    ensures console { board.new.console ≡ board.old.console }
{
    match number_at(&board.memory, width, a) {
        Ok(x) => replace_by_found(x, &mut board.stack)?,
        Err(fault) => leave_failed(fault, 1, &mut board.stack)?,
    }
    Ok(())
}

/// `cpeek` and its kin ( a -- false, or x true )
fn peek(width: Width, reply: Option<Answer>, board: &mut Board) -> Result<(), Halt>
    ensures value { Tells (peek_entry width board.old.stack reply board.old) board.old board.new result }
    ensures console { board.new.console ≡ board.old.console }
{
    let a = board.stack.peek()?;
    if !is_device(a, width) {
        return peek_in_memory(width, a, board);
    }
    if !is_aligned(a, width) {
        return Err(Halt::Thrown(Throw::ALIGNMENT));
    }
    let answer = ask(reply, Query::Peek(width, a))?;
    replace_by_peek(answer, &mut board.stack)?;
    Ok(())
}

/// `cpoke` and its kin ( x a -- f ) over the data space
fn poke_in_memory(width: Width, a: Cell, x: Cell, board: &mut Board) -> Result<(), Halt>
    requires { 2 ≤ length board.old.stack }
    ensures value { Tells (Gives (poked (drop 2 board.old.stack) board.old
        (write width board.old.memory a.0 (cut width x).0))) board.old board.new result }
    ensures console { board.new.console ≡ board.old.console }
{
    match put_number(&mut board.memory, width, a, x) {
        Ok(()) => board.stack.replace_two(Cell::TRUE),
        Err(fault) => leave_failed(fault, 2, &mut board.stack)?,
    }
    Ok(())
}

/// `cpoke` and its kin ( x a -- f )
fn poke(width: Width, reply: Option<Answer>, board: &mut Board) -> Result<(), Halt>
    ensures value { Tells (poke_entry width board.old.stack reply board.old) board.old board.new result }
    ensures console { board.new.console ≡ board.old.console }
{
    let (x, a) = board.stack.top_two()?;
    if !is_device(a, width) {
        return poke_in_memory(width, a, x, board);
    }
    if !is_aligned(a, width) {
        return Err(Halt::Thrown(Throw::ALIGNMENT));
    }
    let answer = ask(reply, Query::Poke(width, a, cut(width, x)))?;
    replace_by_poke(answer, &mut board.stack)?;
    Ok(())
}

/// Runs a word over registers of devices or over time with the answer at hand, or asks; a halt changes nothing
/// (IEEE 1275-1994, 5.3.7.3 and annex A).
///
/// `rb@`, `rw@`, `rl@` ( a -- x ) read one, two or four bytes, `rb!`, `rw!`, `rl!` ( x a -- ) write as many low bytes;
/// `cpeek`, `wpeek`, `lpeek` ( a -- false, or x true ) and `cpoke`, `wpoke`, `lpoke` ( x a -- f ) do so if a device is
/// there. Where all bytes of the access lie from 0x80000000 to 0xBFFFFFFF, they ask; elsewhere they act as `c@` and its
/// kin, and peeks and pokes answer false for -9 and -20. `get-msecs` ( -- x ) and `ms` ( n -- ) ask for the time.
///
/// -4 where a cell is missing, -23 where the address is no multiple of the width, and -3 where `get-msecs` finds no
/// room, all before the question. BusFault throws -258 in reads and writes, and is false in peeks and pokes. A peek
/// that finds a number throws -3 where there is no room for it. An answer that doesn't fit (`is_fitting`) is taken as
/// it is, or as a BusFault.
#[tactic(auto, unfolding(crate::specs::Devices::devices_entry))]
#[inline(never)]
pub fn run_devices_word(
    word: DevicesWord,
    reply: Option<Answer>,
    board: &mut Board,
) -> Result<(), Halt>
    ensures value { Tells (devices_entry word reply board.old) board.old board.new result }
    ensures console { board.new.console ≡ board.old.console }
{
    match word {
        DevicesWord::PeekByte => peek(Width::One, reply, board),
        DevicesWord::PeekWord => peek(Width::Two, reply, board),
        DevicesWord::PeekLong => peek(Width::Four, reply, board),
        DevicesWord::PokeByte => poke(Width::One, reply, board),
        DevicesWord::PokeWord => poke(Width::Two, reply, board),
        DevicesWord::PokeLong => poke(Width::Four, reply, board),
        DevicesWord::ReadByte => read(Width::One, reply, board),
        DevicesWord::ReadWord => read(Width::Two, reply, board),
        DevicesWord::ReadLong => read(Width::Four, reply, board),
        DevicesWord::WriteByte => write(Width::One, reply, board),
        DevicesWord::WriteWord => write(Width::Two, reply, board),
        DevicesWord::WriteLong => write(Width::Four, reply, board),
        DevicesWord::Milliseconds => milliseconds(reply, board),
        DevicesWord::Wait => wait(reply, board),
    }
}
