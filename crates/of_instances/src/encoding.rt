ghost use Rattle.std.specs.Prelude.{◌≡◌, ◌<◌, ◌≤◌, ◌+◌, length, OnOk, IfErr};
ghost use Rattle.of_memory.specs.Regions.{data_limit};
ghost use Rattle.of_cells.specs.Outcomes.{Becomes};
ghost use Rattle.of_stacks.specs.Throws.{dictionary_overflow};
ghost use Rattle.of_instances.specs.Encoding.{decode_int_entry, decode_phys_entry, decode_string_entry};
ghost use Rattle.of_instances.specs.Encoding.{encode_bytes_entry, encode_int_entry, encode_phys_entry};
ghost use Rattle.of_instances.specs.Encoding.{encode_plus_entry, encode_string_entry};

use crate::cells::{cells_under, push_all};
use crate::faults::{array_throw, of_array};
use crate::reading::active_cells;
use of_board::Board;
use of_cells::Cell;
use of_memory::Memory;
use of_props as props;
use of_props::Array;
use of_stacks::Throw;

/// Where the data region ends.
const DATA_LIMIT: u32 = 0x14_0000;

/// Throws -8 where so many bytes have no room at `here`.
fn check_room(memory: &Memory, count: u32) -> Result<(), Throw>
    requires { count ≤ 16 }
    ensures ok { OnOk result (memory.now.here + count ≤ data_limit) }
    ensures full { IfErr result (λ t. (data_limit < memory.now.here + count) × (t ≡ dictionary_overflow)) }
{
    if memory.here().0 + count > DATA_LIMIT {
        return Err(Throw::DICTIONARY_OVERFLOW);
    }
    Ok(())
}

/// `encode-int` ( x -- p n ) puts 4 bytes at `here`; -8 where they have no room.
#[tactic(auto, unfolding(crate::specs::Encoding::encode_int_entry))]
#[inline(never)]
pub(crate) fn encode_int(board: &mut Board) -> Result<(), Throw>
    ensures value { Becomes (encode_int_entry board.old.stack board.old) board.old board.new result }
    ensures console { board.new.console ≡ board.old.console }
{
    let x = board.stack.peek()?;
    check_room(&board.memory, 4)?;
    board.stack.room_for(1)?;
    let array = of_array(props::encode_int(&mut board.memory, x))?;
    board.stack.replace_top(array.address);
    board.stack.push(array.length);
    Ok(())
}

/// `encode-string` ( s n -- p n ) copies a text and a zero byte to `here`; -9 where it can't be read, -8
/// where there is no room.
#[tactic(auto, unfolding(crate::specs::Encoding::encode_string_entry))]
#[inline(never)]
pub(crate) fn encode_string(board: &mut Board) -> Result<(), Throw>
    ensures value { Becomes (encode_string_entry board.old.stack board.old) board.old board.new result }
    ensures console { board.new.console ≡ board.old.console }
{
    let (address, length) = board.stack.top_two()?;
    let array = of_array(props::encode_string(&mut board.memory, address, length))?;
    board.stack.replace_two(array.address);
    board.stack.push(array.length);
    Ok(())
}

/// `encode-bytes` ( a n -- p n ) copies bytes to `here`; -9 where one can't be read, -8 where there is no
/// room.
#[tactic(auto, unfolding(crate::specs::Encoding::encode_bytes_entry))]
#[inline(never)]
pub(crate) fn encode_bytes(board: &mut Board) -> Result<(), Throw>
    ensures value { Becomes (encode_bytes_entry board.old.stack board.old) board.old board.new result }
    ensures console { board.new.console ≡ board.old.console }
{
    let (address, length) = board.stack.top_two()?;
    let array = of_array(props::encode_bytes(&mut board.memory, address, length))?;
    board.stack.replace_two(array.address);
    board.stack.push(array.length);
    Ok(())
}

/// `encode-phys` ( lo .. hi -- p n ) puts the cells of an address of the package that words work on at `here`, the high
/// cell first; -259 without one, -8 where there is no room.
#[tactic(auto, using(crate::proofs::NoRoom::phys_full), unfolding(crate::specs::Encoding::encode_phys_entry))]
#[inline(never)]
pub(crate) fn encode_phys(board: &mut Board) -> Result<(), Throw>
    ensures value { Becomes (encode_phys_entry board.old.stack board.old) board.old board.new result }
    ensures console { board.new.console ≡ board.old.console }
{
    let _ = board.stack.peek()?;
    let count = active_cells(board)?;
    let cells = cells_under(&board.stack, 0, count)?;
    check_room(&board.memory, 4 * count as u32)?;
    if board.stack.depth() - count + 2 > of_stacks::CAPACITY {
        return Err(Throw::STACK_OVERFLOW);
    }
    let array = of_array(props::encode_phys(&mut board.memory, cells.as_slice()))?;
    board.stack.drop_top(count);
    board.stack.push(array.address);
    board.stack.push(array.length);
    Ok(())
}

/// `encode+` ( p n p n -- p n ) joins two arrays; -24 where the second isn't directly behind the first.
#[tactic(auto, unfolding(crate::specs::Encoding::encode_plus_entry))]
#[inline(never)]
pub(crate) fn encode_plus(board: &mut Board) -> Result<(), Throw>
    ensures value { Becomes (encode_plus_entry board.old.stack board.old) board.old board.new result }
    ensures console { board.new.console ≡ board.old.console }
{
    let (address, length, second, more) = board.stack.top_four()?;
    let first = Array { address, length };
    let second = Array {
        address: second,
        length: more,
    };
    let whole = of_array(props::join(first, second))?;
    board.stack.drop_top(4);
    board.stack.push(whole.address);
    board.stack.push(whole.length);
    Ok(())
}

/// `decode-int` ( p n -- p n x ) takes a number off an array; -9 where a byte can't be read, -262 where it
/// has less than 4.
#[tactic(auto, unfolding(crate::specs::Encoding::decode_int_entry))]
#[inline(never)]
pub(crate) fn decode_int(board: &mut Board) -> Result<(), Throw>
    ensures value { Becomes (decode_int_entry board.old.stack board.old) board.old board.new result }
    ensures console { board.new.console ≡ board.old.console }
{
    let (address, length) = board.stack.top_two()?;
    let (x, rest) = of_array(props::decode_int(&board.memory, Array { address, length }))?;
    board.stack.room_for(1)?;
    board.stack.drop_top(2);
    board.stack.push(rest.address);
    board.stack.push(rest.length);
    board.stack.push(x);
    Ok(())
}

/// `decode-string` ( p n -- p n s n ) takes a string off an array, up to its first zero byte; -9 where a byte
/// can't be read, -262 where none is zero.
#[tactic(auto, unfolding(crate::specs::Encoding::decode_string_entry))]
#[inline(never)]
pub(crate) fn decode_string(board: &mut Board) -> Result<(), Throw>
    ensures value { Becomes (decode_string_entry board.old.stack board.old) board.old board.new result }
    ensures console { board.new.console ≡ board.old.console }
{
    let (address, length) = board.stack.top_two()?;
    let (text, rest) = of_array(props::decode_string(&board.memory, Array { address, length }))?;
    board.stack.room_for(2)?;
    board.stack.drop_top(2);
    board.stack.push(rest.address);
    board.stack.push(rest.length);
    board.stack.push(text.address);
    board.stack.push(text.length);
    Ok(())
}

/// `decode-phys` ( p n -- p n lo .. hi ) takes an address of the package that words work on off an array; -259 without
/// one, -9 where a byte can't be read, -262 where there are too few.
#[tactic(auto, unfolding(crate::specs::Encoding::decode_phys_entry))]
#[inline(never)]
pub(crate) fn decode_phys(board: &mut Board) -> Result<(), Throw>
    ensures value { Becomes (decode_phys_entry board.old.stack board.old) board.old board.new result }
    ensures console { board.new.console ≡ board.old.console }
{
    let (address, length) = board.stack.top_two()?;
    let count = active_cells(board)?;
    let (cells, rest) = match props::decode_phys(&board.memory, Array { address, length }, count) {
        Ok(found) => found,
        Err(fault) => return Err(array_throw(fault)),
    };
    board.stack.room_for(cells.len())?;
    board.stack.drop_top(2);
    board.stack.push(rest.address);
    board.stack.push(rest.length);
    push_all(&mut board.stack, cells.as_slice());
    Ok(())
}
