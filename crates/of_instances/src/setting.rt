ghost use Rattle.std.specs.Prelude.{◌≡◌, ◌≤◌, ◌++◌, ◌∷◌, [], length, drop, codes, true, IfOk};
ghost use Rattle.of_cells.specs.Outcomes.{Becomes};
ghost use Rattle.of_stacks.specs.Stacks.{Makes};
ghost use Rattle.of_instances.specs.Setting.{delete_entry, property_entry, property_put, reg_entry, string_entry};

use crate::cells::{cells_under, push_cells};
use crate::faults::{of_tree, stop_of};
use crate::reading::{active_package, cells_of, text_at};
use arrayvec::ArrayVec;
use of_board::Board;
use of_nodes::Phandle;
use of_stacks::{Stop, Throw};
use std::alloc::{AllocError, Global};

/// Bytes and a zero byte.
fn string_of(alloc: Global, text: &[u8]) -> Result<Vec<u8>, AllocError>
    requires { length text.now ≤ 0xFFFF_FFFF }
    ensures { IfOk result (λ v. v.items ≡ text.now ++ 0 ∷ []) }
{
    let mut value = Vec::with_capacity(alloc, text.len() + 1)?;
    value.extend_from_slice(text)?;
    value.extend_from_slice(&[0])?;
    Ok(value)
}

/// Sets a property of a package and drops so many cells, which must be there.
fn put_property(
    count: usize,
    board: &mut Board,
    node: Phandle,
    name: &[u8],
    value: &[u8],
) -> Result<(), Stop>
    requires { count ≤ length board.old.stack }
    ensures value { Makes true (property_put (drop count board.old.stack) board.old node name.now value.now) board.old
        board.new result }
    ensures console { board.new.console ≡ board.old.console }
{
    if let Err(fault) = board
        .tree
        .set_property(&mut board.memory, node, name, value)
    {
        return Err(stop_of(fault));
    }
    board.stack.drop_top(count);
    Ok(())
}

/// `property` ( p n s n -- ) sets a property of the package that words work on to a copy of the value; -259 without a
/// package, -9 where a byte can't be read, -32 for a bad name, -8 where there is no room.
#[tactic(auto, unfolding(crate::specs::Setting::property_entry))]
#[inline(never)]
pub(crate) fn set_property(board: &mut Board) -> Result<(), Stop>
    ensures value { Makes true (property_entry board.old.stack board.old) board.old board.new result }
    ensures console { board.new.console ≡ board.old.console }
{
    let (from, count, address, length) = board.stack.top_four()?;
    let package = active_package(board)?;
    let value = Vec::from_slice(
        board.active.new_devices.alloc(),
        text_at(&board.memory, from, count)?,
    )?;
    let name = Vec::from_slice(
        board.active.new_devices.alloc(),
        text_at(&board.memory, address, length)?,
    )?;
    put_property(4, board, package, name.as_slice(), value.as_slice())
}

/// `model`, `device-type` and `device-name` ( s n -- ) set the property of a name to a string; -259 without a
/// package, -9 where a byte can't be read, -32 for a bad name of the node, -8 where there is no room.
#[tactic(auto, unfolding(crate::specs::Setting::string_entry))]
#[inline(never)]
pub(crate) fn set_string(name: &[u8], board: &mut Board) -> Result<(), Stop>
    ensures value { Makes true (string_entry name.now board.old.stack board.old) board.old board.new result }
    ensures console { board.new.console ≡ board.old.console }
{
    let (address, length) = board.stack.top_two()?;
    let package = active_package(board)?;
    let text = text_at(&board.memory, address, length)?;
    let value = string_of(board.active.new_devices.alloc(), text)?;
    put_property(2, board, package, name, value.as_slice())
}

/// `reg` ( lo .. hi size -- ) sets `reg` of the package that words work on to an address and a size; -259
/// without a package, -8 where there is no room.
#[tactic(auto, unfolding(crate::specs::Setting::reg_entry))]
#[inline(never)]
pub(crate) fn set_reg(board: &mut Board) -> Result<(), Stop>
    ensures value { Makes true (reg_entry board.old.stack board.old) board.old board.new result }
    ensures console { board.new.console ≡ board.old.console }
{
    let (_, size) = board.stack.top_two()?;
    let package = active_package(board)?;
    let count = cells_of(&board.memory, &board.tree, package)?;
    let mut cells = cells_under(&board.stack, 1, count)?;
    cells.push(size);
    let mut value = ArrayVec::new();
    push_cells(&mut value, cells.as_slice());
    put_property(count + 1, board, package, b"reg", value.as_slice())
}

/// `delete-property` ( s n -- ) takes a property out of the package that words work on, if it has one of the name; -259
/// without a package, -9 where a byte can't be read.
#[tactic(auto, unfolding(crate::specs::Setting::delete_entry))]
#[inline(never)]
pub(crate) fn delete_property(board: &mut Board) -> Result<(), Throw>
    ensures value { Becomes (delete_entry board.old.stack board.old) board.old board.new result }
    ensures console { board.new.console ≡ board.old.console }
{
    let (address, length) = board.stack.top_two()?;
    let package = active_package(board)?;
    let name = text_at(&board.memory, address, length)?;
    of_tree(board.tree.delete_property(package, name))?;
    board.stack.drop_top(2);
    Ok(())
}
