//! The active package, the current instance and the open `new-device`s.

use crate::rows::check;
use crate::running::Trial;
use of_board::{Active, Board, DeviceFault};
use of_cells::Cell;
use of_ihandles::InstanceFault;
use of_nodes::{NodeFault, Phandle};
use std::test::Fail;

/// The end of a loaded image finishes what was opened in it, and releases its own instance.
const IMAGE_ENDS: &str = "\
run @2 new-device new-device new-device = | d0000014 e0000008 3/3 0 1 2
open d0000008 = e000000c | d0000014 e0000008 3/3 0 1 2 3
leave_image 1 d000000c e000000c = done | d000000c e0000008 1/3 0
run finish-device = | d0000008 0 0/3
leave_image 5 - 0 = done | 0 0 0/3
";

/// An image that finishes older ones: those that it opened are found by their numbers, not by how many are open. The
/// first two instances are released at `finish-device`, the third at the end; its block comes back, too.
const OLDER_FINISHED: &str = "\
run @2 new-device new-device = | d0000010 e0000004 2/2 0 1
run finish-device finish-device new-device = | d0000014 e0000008 1/3 2
leave_image 2 d0000010 0 = done | d0000010 e0000008 0/3
take = 300000 | d0000010 e0000008 0/3
";

/// A number isn't given again, nor is an ihandle.
const NUMBERS_RISE: &str = "\
open_device d0000008 = done | d000000c e0000000 1/1 0
finish_device = true | d0000008 0 0/1
open_device d0000004 = done | d0000010 e0000004 1/2 1
";

/// The latest is finished first, and its instance alone is released.
const LATEST_FIRST: &str = "\
run @2 new-device @1 new-device @0 = | d0000000 e0000004 2/2 0 1
finish_device = true | d0000004 e0000000 1/2 0
finish_device = true | d0000008 0 0/2
finish_device = false | d0000008 0 0/2
";

/// No package, no instance, no `new-device`.
const NOTHING_OPEN: &str = "\
finish_device = false | 0 0 0/0
";

/// All are finished, the latest first.
const ALL_FINISHED: &str = "\
run @2 new-device @1 new-device = | d0000010 e0000004 2/2 0 1
finish_all = done | d0000008 0 0/2
activate d0000004 e000001c = done | d0000004 e000001c 0/2
finish_all = done | d0000004 e000001c 0/2
";

/// The oldest found an instance that was current before.
const ALL_IN_AN_INSTANCE: &str = "\
open d0000004 = e0000000 | 0 0 0/0 0
activate - e0000000 = done | 0 e0000000 0/0 0
run @2 new-device new-device = | d0000010 e0000008 2/2 0 1 2
finish_all = done | d0000008 e0000000 0/2 0
";

/// Without a node no instance is opened.
const NO_PARENT: &str = "\
open_device d000000c = no such node | 0 0 0/0
run @2 new-device = | d000000c e0000000 1/1 0
";

/// Where its instance finds no room, the node is taken back, and neither a phandle nor an ihandle is used.
const NO_ROOM: &str = "\
slot d000000c 20001 = 0 | 0 0 0/0
open_device d0000008 = no room for the instance | 0 0 0/0
child d0000008 = - | 0 0 0/0
add_node d0000004 = d000000c | 0 0 0/0
open_device d0000008 = done | d0000010 e0000000 1/1 0
";

#[test]
fn histories(rt: HostRuntime) -> Result<(), Fail> {
    let tables = [
        IMAGE_ENDS,
        OLDER_FINISHED,
        NUMBERS_RISE,
        LATEST_FIRST,
        NOTHING_OPEN,
        ALL_FINISHED,
        ALL_IN_AN_INSTANCE,
        NO_PARENT,
        NO_ROOM,
    ];
    check::<Trial, _>(&rt, rt.alloc(), &tables)
}

#[test]
fn texts_are_allocated(rt: HostRuntime) -> Result<(), Fail> {
    let active = Active::new(rt.alloc());
    let text = String::from_str(active.new_devices.alloc(), "ab")?;
    assert!(rt; text.as_str() == "ab");
    Ok(())
}

/// Opens a `new-device` below `/slot`.
fn open_one(board: &mut Board) -> Result<(), DeviceFault> {
    board.open_device(Phandle::of(2))
}

/// Whether a fault says that no memory was found.
fn is_for_memory(fault: DeviceFault) -> bool {
    fault == DeviceFault::Node(NodeFault::NoMemory)
        || fault == DeviceFault::Instance(InstanceFault::NoMemory)
}

/// Whether no `new-device` was ever opened, and nothing was made for one.
fn is_at_first(board: &mut Board) -> bool {
    board.tree.child(Phandle::of(2)) == Ok(None)
        && board.active.new_devices.ever() == 0
        && board.active.my_self == Cell::ZERO
        && board.memory.instance_take(Cell::ZERO) == Ok(Cell(0x30_0000))
}

/// Whether a `new-device` is opened, or else refused for memory alone, and nothing was made for it.
fn opens_or_changes_nothing(trial: &mut Trial) -> bool {
    match open_one(&mut trial.board) {
        Ok(()) => true,
        Err(fault) => is_for_memory(fault) && is_at_first(&mut trial.board),
    }
}

// To be run with one allocation after another refused.
#[test]
fn a_refused_growth_opens_nothing(rt: HostRuntime) -> Result<(), Fail> {
    let mut trial = Trial::begun(rt.alloc())?;
    assert!(rt; opens_or_changes_nothing(&mut trial));
    Ok(())
}
