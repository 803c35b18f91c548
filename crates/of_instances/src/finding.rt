ghost use Rattle.std.specs.Prelude.{◌≡◌, ◌==◌, ◌≤◌, drop, length, Ok};
ghost use Rattle.of_cells.specs.Outcomes.{Becomes};
ghost use Rattle.of_instances.specs.Finding.{get_inherited_entry, get_my_entry, get_package_entry, inherited};
ghost use Rattle.of_instances.specs.Finding.{inherited_for, next_entry, property_of, value_left};
ghost use Rattle.of_instances.specs.Left.{with_room};
ghost use Rattle.of_ihandles.specs.Instances.{most_instances};

use crate::faults::{of_instance, of_tree};
use crate::reading::{active_package, package_at, text_at};
use of_board::Board;
use of_cells::Cell;
use of_nodes::{Phandle, Property};
use of_stacks::Throw;

/// The most instances that are ever opened, and so the most that one is below.
const MOST_INSTANCES: usize = 65_536;

/// ( s n -- true ) where no property of the name was found, or ( s n -- p n false ) of its value; -3 where the stack
/// has no room.
fn leave_value(found: Option<Property>, board: &mut Board) -> Result<(), Throw>
    requires { 2 ≤ length board.old.stack }
    ensures value { Becomes (with_room (value_left (drop 2 board.old.stack) board.old (Ok found))) board.old board.new
        result }
    ensures console { board.new.console ≡ board.old.console }
{
    let Some(property) = found else {
        board.stack.replace_two(Cell::TRUE);
        return Ok(());
    };
    board.stack.room_for(1)?;
    board.stack.drop_top(2);
    board.stack.push(property.value.address);
    board.stack.push(property.value.length);
    board.stack.push(Cell::ZERO);
    Ok(())
}

/// `get-my-property` ( s n -- true, or p n false ) the value of a property of the package that words work on; -259
/// without one, -9 where a byte can't be read.
#[tactic(auto, unfolding(crate::specs::Finding::get_my_entry))]
#[inline(never)]
pub(crate) fn get_my_property(board: &mut Board) -> Result<(), Throw>
    ensures value { Becomes (get_my_entry board.old.stack board.old) board.old board.new result }
    ensures console { board.new.console ≡ board.old.console }
{
    let (address, length) = board.stack.top_two()?;
    let package = active_package(board)?;
    let name = text_at(&board.memory, address, length)?;
    let found = of_tree(board.tree.property(package, name))?;
    leave_value(found, board)
}

/// A property of the package of an instance; -260 where that was released.
fn property_of(board: &Board, name: &[u8], ihandle: Cell) -> Result<Option<Property>, Throw>
    ensures { result ≡ property_of board.now name.now ihandle }
{
    let package = of_instance(board.instances.package(ihandle))?;
    of_tree(board.tree.property(package, name))
}

/// A property of the package of the current instance, or of the nearest parent's that has one; -260 where one of them
/// was released.
#[tactic(auto, using(crate::proofs::Above::unrolled, crate::proofs::Above::never))]
fn inherited(board: &Board, name: &[u8]) -> Result<Option<Property>, Throw>
    ensures { result ≡ inherited board.now name.now most_instances board.now.active.my_self }
{
    let mut ihandle = board.active.my_self;
    let mut left = MOST_INSTANCES;
    while left > 0 {
        if let Some(property) = property_of(board, name, ihandle)? {
            return Ok(Some(property));
        }
        let parent = of_instance(board.instances.parent(ihandle))?;
        if parent.0 == 0 {
            return Ok(None);
        }
        ihandle = parent;
        left -= 1;
    }
    Ok(None)
}

/// A property of the current instance's package, or of the nearest parent's that has one; of this package alone where
/// no instance is current.
fn inherited_for(board: &Board, package: Phandle, name: &[u8]) -> Result<Option<Property>, Throw>
    ensures { result ≡ inherited_for (board.now.active.my_self.0 == 0) board.now (Ok «package») name.now }
{
    if board.active.my_self.0 == 0 {
        return of_tree(board.tree.property(package, name));
    }
    inherited(board, name)
}

/// `get-inherited-property` ( s n -- true, or p n false ) the value of a property of the current instance's package, or
/// of the nearest parent's that has one; of the active package alone where no instance is current. -259 without a
/// package, -260 where an instance was released, -9 where a byte can't be read.
#[tactic(auto, unfolding(crate::specs::Finding::get_inherited_entry))]
#[inline(never)]
pub(crate) fn get_inherited_property(board: &mut Board) -> Result<(), Throw>
    ensures value { Becomes (get_inherited_entry board.old.stack board.old) board.old board.new result }
    ensures console { board.new.console ≡ board.old.console }
{
    let (address, length) = board.stack.top_two()?;
    let package = active_package(board)?;
    let name = text_at(&board.memory, address, length)?;
    let found = inherited_for(board, package, name)?;
    leave_value(found, board)
}

/// `get-package-property` ( s n ph -- true, or p n false ) the value of a property of a package; -263 where
/// there is no such node, -9 where a byte can't be read.
#[tactic(auto, unfolding(crate::specs::Finding::get_package_entry))]
#[inline(never)]
pub(crate) fn get_package_property(board: &mut Board) -> Result<(), Throw>
    ensures value { Becomes (get_package_entry board.old.stack board.old) board.old board.new result }
    ensures console { board.new.console ≡ board.old.console }
{
    let (address, length, handle) = board.stack.top_three()?;
    let package = package_at(&board.tree, handle)?;
    let name = text_at(&board.memory, address, length)?;
    let found = of_tree(board.tree.property(package, name))?;
    board.stack.drop_top(3);
    let Some(property) = found else {
        board.stack.push(Cell::TRUE);
        return Ok(());
    };
    board.stack.push(property.value.address);
    board.stack.push(property.value.length);
    board.stack.push(Cell::ZERO);
    Ok(())
}

/// `next-property` ( s n ph -- false, or s n true ) the name of the property behind the one of a name, or of
/// the first where the name is empty; -263 where there is no such node, -9 where a byte can't be read.
#[tactic(auto, unfolding(crate::specs::Finding::next_entry))]
#[inline(never)]
pub(crate) fn next_property(board: &mut Board) -> Result<(), Throw>
    ensures value { Becomes (next_entry board.old.stack board.old) board.old board.new result }
    ensures console { board.new.console ≡ board.old.console }
{
    let (address, length, handle) = board.stack.top_three()?;
    let package = package_at(&board.tree, handle)?;
    let name = text_at(&board.memory, address, length)?;
    let next = of_tree(board.tree.next_property(package, name))?;
    board.stack.drop_top(3);
    let Some(property) = next else {
        board.stack.push(Cell::ZERO);
        return Ok(());
    };
    board.stack.push(property.name.address);
    board.stack.push(property.name.length);
    board.stack.push(Cell::TRUE);
    Ok(())
}
