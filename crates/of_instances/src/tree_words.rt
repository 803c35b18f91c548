ghost use Rattle.std.specs.Prelude.{◌≡◌, true};
ghost use Rattle.of_cells.specs.Outcomes.{Becomes};
ghost use Rattle.of_stacks.specs.Stacks.{Makes};
ghost use Rattle.of_board.specs.Active.{device_finished};
ghost use Rattle.of_instances.specs.TreeWords.{child_entry, find_method_entry, find_package_entry, finished_left};
ghost use Rattle.of_instances.specs.TreeWords.{handle, named_unopened_entry, unopened_entry};
ghost use Rattle.of_instances.specs.TreeWords.{new_device_entry, peer_entry, release_entry, tree_entry, tree_grows};

use crate::faults::{device_stop, of_instance, of_tree};
use crate::instance_words::{
    my_address, my_args, my_parent, my_self, my_space, my_unit, package_of, set_args,
};
use crate::reading::{package_at, text_at};
use of_board::Board;
use of_cells::Cell;
use of_fcodes::TreeWord;
use of_nodes::Phandle;
use of_stacks::{Stop, Throw};

/// `new-device` ( -- ) makes a child of the active package and an instance of it, which are active then; -259 without a
/// package, -8 where there are 1,024 nodes or the instance finds no room.
#[tactic(auto, unfolding(crate::specs::TreeWords::new_device_entry))]
#[inline(never)]
fn new_device(board: &mut Board) -> Result<(), Stop>
    ensures value { Makes true (new_device_entry board.old board.old.active.«package») board.old board.new result }
    ensures console { board.new.console ≡ board.old.console }
{
    let Some(found) = board.active.package else {
        return Err(Stop::Thrown(Throw::NO_NODE));
    };
    match board.open_device(found) {
        Ok(()) => Ok(()),
        Err(fault) => Err(device_stop(fault)),
    }
}

/// `finish-device` ( -- ) releases the instance of the latest open `new-device`, and makes active what that found; -259
/// where none is open.
#[inline(never)]
fn finish_device(board: &mut Board) -> Result<(), Throw>
    ensures value { Becomes (finished_left (device_finished board.old)) board.old board.new result }
    ensures console { board.new.console ≡ board.old.console }
{
    if !board.finish_device() {
        return Err(Throw::NO_NODE);
    }
    Ok(())
}

/// A phandle as a cell, or 0.
fn handle(found: Option<Phandle>) -> Cell
    ensures { result ≡ handle found }
{
    match found {
        Some(package) => package.0,
        None => Cell::ZERO,
    }
}

/// `child` ( ph -- ph or 0 ) the oldest child of a node; -263 where there is no such node.
#[tactic(auto, unfolding(crate::specs::TreeWords::child_entry))]
#[inline(never)]
fn child(board: &mut Board) -> Result<(), Throw>
    ensures value { Becomes (child_entry board.old.stack board.old) board.old board.new result }
    ensures console { board.new.console ≡ board.old.console }
{
    let x = board.stack.peek()?;
    let found = of_tree(board.tree.child(Phandle(x)))?;
    board.stack.replace_top(handle(found));
    Ok(())
}

/// `peer` ( ph -- ph or 0 ) the next younger child of the same parent, and of 0 the root; -263 where there is no
/// such node.
#[tactic(auto, unfolding(crate::specs::TreeWords::peer_entry))]
#[inline(never)]
fn peer(board: &mut Board) -> Result<(), Throw>
    ensures value { Becomes (peer_entry board.old.stack board.old) board.old board.new result }
    ensures console { board.new.console ≡ board.old.console }
{
    let x = board.stack.peek()?;
    if x.0 == 0 {
        board.stack.replace_top(Phandle::of(0).0);
        return Ok(());
    }
    let found = of_tree(board.tree.peer(Phandle(x)))?;
    board.stack.replace_top(handle(found));
    Ok(())
}

/// `find-package` ( s n -- false, or ph true ) the node of a path below `/packages`; -9 where a byte can't be
/// read.
#[tactic(auto, unfolding(crate::specs::TreeWords::find_package_entry))]
#[inline(never)]
fn find_package(board: &mut Board) -> Result<(), Throw>
    ensures value { Becomes (find_package_entry board.old.stack board.old) board.old board.new result }
    ensures console { board.new.console ≡ board.old.console }
{
    let (address, length) = board.stack.top_two()?;
    let path = text_at(&board.memory, address, length)?;
    let Some(package) = board.tree.find_package(&board.memory, path) else {
        board.stack.replace_two(Cell::ZERO);
        return Ok(());
    };
    board.stack.replace_two(package.0);
    board.stack.push(Cell::TRUE);
    Ok(())
}

/// `find-method` ( s n ph -- false, or xt true ) the method of a package; -263 where there is no such node, -9
/// where a byte can't be read.
#[tactic(auto, unfolding(crate::specs::TreeWords::find_method_entry))]
#[inline(never)]
fn find_method(board: &mut Board) -> Result<(), Throw>
    ensures value { Becomes (find_method_entry board.old.stack board.old) board.old board.new result }
    ensures console { board.new.console ≡ board.old.console }
{
    let (address, length, handle) = board.stack.top_three()?;
    let package = package_at(&board.tree, handle)?;
    let name = text_at(&board.memory, address, length)?;
    let found = of_tree(board.tree.method(package, name))?;
    board.stack.drop_top(3);
    let Some(xt) = found else {
        board.stack.push(Cell::ZERO);
        return Ok(());
    };
    board.stack.push(xt);
    board.stack.push(Cell::TRUE);
    Ok(())
}

/// `close-package` ( ih -- ) of a package without a method `close` releases the instance; -260 without one.
#[tactic(auto, unfolding(crate::specs::TreeWords::release_entry))]
#[inline(never)]
fn release(board: &mut Board) -> Result<(), Throw>
    ensures value { Becomes (release_entry board.old.stack board.old) board.old board.new result }
    ensures console { board.new.console ≡ board.old.console }
{
    let ihandle = board.stack.peek()?;
    of_instance(board.instances.close(&mut board.memory, ihandle))?;
    board.stack.drop_top(1);
    Ok(())
}

/// `open-package` ( s n ph -- 0 ) of a package without a method `open`.
#[tactic(auto, unfolding(crate::specs::TreeWords::unopened_entry))]
#[inline(never)]
fn unopened(board: &mut Board) -> Result<(), Throw>
    ensures value { Becomes (unopened_entry board.old.stack board.old) board.old board.new result }
    ensures console { board.new.console ≡ board.old.console }
{
    board.stack.top_three()?;
    board.stack.drop_top(3);
    board.stack.push(Cell::ZERO);
    Ok(())
}

/// `$open-package` ( args n name n -- 0 ) of such a package, or of none.
#[tactic(auto, unfolding(crate::specs::TreeWords::named_unopened_entry))]
#[inline(never)]
fn named_unopened(board: &mut Board) -> Result<(), Throw>
    ensures value { Becomes (named_unopened_entry board.old.stack board.old) board.old board.new result }
    ensures console { board.new.console ≡ board.old.console }
{
    board.stack.top_four()?;
    board.stack.drop_top(4);
    board.stack.push(Cell::ZERO);
    Ok(())
}

/// Runs a word of the group Tree; a stop changes nothing.
///
/// -4 where a cell is missing, then -259 where `new-device` finds no active package or `finish-device` no open
/// `new-device`, -260 where an instance is missing, -263 where a handle is of no node, -9 where a range can't be read,
/// -24 where a text is no address, -8 where there are 1,024 nodes or an instance finds no room, and -3 where the stack
/// has none. `close-package` releases the instance, as where its package has no method `close`, and `open-package` and
/// `$open-package` leave 0, as where there is no method `open`. The other words that call a method throw -256: what
/// they run `find_call` says. NoMemory may stand in place of any other answer of `new-device` and `set-args`.
#[tactic(auto, unfolding(crate::specs::TreeWords::tree_entry))]
pub fn run_tree_word(word: TreeWord, board: &mut Board) -> Result<(), Stop>
    ensures value { Makes (tree_grows word) (tree_entry word board.old) board.old board.new result }
    ensures console { board.new.console ≡ board.old.console }
{
    match word {
        TreeWord::NewDevice => new_device(board)?,
        TreeWord::FinishDevice => finish_device(board)?,
        TreeWord::Child => child(board)?,
        TreeWord::Peer => peer(board)?,
        TreeWord::FindPackage => find_package(board)?,
        TreeWord::FindMethod => find_method(board)?,
        TreeWord::OpenPackage => unopened(board)?,
        TreeWord::OpenNamedPackage => named_unopened(board)?,
        TreeWord::ClosePackage => release(board)?,
        TreeWord::CallPackage => return Err(Stop::Thrown(Throw::NOT_ASSIGNED)),
        TreeWord::CallParent => return Err(Stop::Thrown(Throw::NOT_ASSIGNED)),
        TreeWord::CallMethod => return Err(Stop::Thrown(Throw::NOT_ASSIGNED)),
        TreeWord::MySelf => my_self(board)?,
        TreeWord::MyParent => my_parent(board)?,
        TreeWord::PackageOf => package_of(board)?,
        TreeWord::MyArgs => my_args(board)?,
        TreeWord::SetArgs => set_args(board)?,
        TreeWord::MyUnit => my_unit(board)?,
        TreeWord::MyAddress => my_address(board)?,
        TreeWord::MySpace => my_space(board)?,
    }
    Ok(())
}
