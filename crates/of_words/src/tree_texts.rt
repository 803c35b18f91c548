// The console's words on the device tree. Those that print may find no memory.

ghost use Rattle.std.specs.Prelude.{◌≡◌, Ok, false, true};
ghost use Rattle.of_console.specs.Children.{ls_text};
ghost use Rattle.of_console.specs.Texts.{devs_text, properties_text, pwd_text};
ghost use Rattle.of_words.specs.ConsoleWords.{fault_stop, without_package, package_shown, text_shown};
ghost use Rattle.of_stacks.specs.Stacks.{Makes};

use of_board::Board;
use of_console::{devs_text, ls_text, properties_text, pwd_text};
use of_nodes::NodeFault;
use of_stacks::{Stop, Throw};

/// Why a text of the tree isn't there: -259 where there is no such node, or no memory.
fn fault_stop(fault: NodeFault) -> Stop
    ensures { result ≡ fault_stop fault }
{
    match fault {
        NodeFault::NoMemory => Stop::NoMemory,
        _ => Stop::Thrown(Throw::NO_NODE),
    }
}

/// `device-end` ( -- ) leaves no package active
pub(crate) fn end_device(board: &mut Board) -> Result<(), Stop>
    ensures value { Makes false (Ok (without_package board.old)) board.old board.new result }
    ensures ready { board.old.console.ready ≡ true → board.new.console.ready ≡ true }
{
    board.active.package = None;
    Ok(())
}

/// `pwd` ( -- ) prints the path of the active package; -259 where none is active
pub(crate) fn print_path(board: &mut Board) -> Result<(), Stop>
    ensures value { Makes true (package_shown (pwd_text board.old.memory board.old.tree) board.old.active.package
        board.old) board.old board.new result }
    ensures ready { board.old.console.ready ≡ true → board.new.console.ready ≡ true }
{
    let Some(node) = board.active.package else {
        return Err(Stop::Thrown(Throw::NO_NODE));
    };
    match pwd_text(&board.memory, &board.tree, node) {
        Ok(text) => Ok(board.console.print(&text)?),
        Err(fault) => Err(fault_stop(fault)),
    }
}

/// `ls` ( -- ) prints the children of the active package, a line each; -259 where none is active
pub(crate) fn print_children(board: &mut Board) -> Result<(), Stop>
    ensures value { Makes true (package_shown (ls_text board.old.memory board.old.tree) board.old.active.package
        board.old) board.old board.new result }
    ensures ready { board.old.console.ready ≡ true → board.new.console.ready ≡ true }
{
    let Some(node) = board.active.package else {
        return Err(Stop::Thrown(Throw::NO_NODE));
    };
    let alloc = board.active.new_devices.alloc();
    match ls_text(alloc, &board.memory, &board.tree, node) {
        Ok(text) => Ok(board.console.print(&text)?),
        Err(fault) => Err(fault_stop(fault)),
    }
}

/// `.properties` ( -- ) prints the properties of the active package, a line each; -259 where none is active
pub(crate) fn print_properties(board: &mut Board) -> Result<(), Stop>
    ensures value { Makes true (package_shown (properties_text board.old.memory board.old.tree)
        board.old.active.package board.old) board.old board.new result }
    ensures ready { board.old.console.ready ≡ true → board.new.console.ready ≡ true }
{
    let Some(node) = board.active.package else {
        return Err(Stop::Thrown(Throw::NO_NODE));
    };
    let alloc = board.active.new_devices.alloc();
    match properties_text(alloc, &board.memory, &board.tree, node) {
        Ok(text) => Ok(board.console.print(&text)?),
        Err(fault) => Err(fault_stop(fault)),
    }
}

/// `show-devs` ( -- ) prints the paths of all nodes, a line each
pub(crate) fn print_devices(board: &mut Board) -> Result<(), Stop>
    ensures value { Makes true (text_shown (Ok (devs_text board.old.memory board.old.tree)) board.old)
        board.old board.new result }
    ensures ready { board.old.console.ready ≡ true → board.new.console.ready ≡ true }
{
    let alloc = board.active.new_devices.alloc();
    match devs_text(alloc, &board.memory, &board.tree) {
        Ok(text) => Ok(board.console.print(&text)?),
        Err(fault) => Err(fault_stop(fault)),
    }
}
