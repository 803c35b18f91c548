//! Slots of the current instance.
ghost use Rattle.std.specs.Prelude.{◌≡◌};
ghost use Rattle.of_own.specs.Slots.{in_instance, slot_address, slot_cell, slot_span};

use of_board::Board;
use of_cells::Cell;
use of_ihandles::InstanceFault;
use of_nodes::Span;
use of_stacks::Throw;

/// What was found in an instance; -260 where it isn't there.
pub(crate) fn in_instance<T: Drop>(found: Result<T, InstanceFault>) -> Result<T, Throw>
    ensures { result ≡ in_instance found }
{
    match found {
        Ok(found) => Ok(found),
        Err(_) => Err(Throw::NO_INSTANCE),
    }
}

/// Where the bytes of a slot stand in the current instance; -260 where that isn't one of the slot's package.
pub(crate) fn slot_span(board: &Board, number: u32) -> Result<Span, Throw>
    ensures { result ≡ slot_span board.now number }
{
    in_instance(
        board
            .instances
            .slot_span(board.active.my_self, number as usize),
    )
}

/// What a variable or a buffer gives that is one of each instance: where the bytes of its slot stand in the current
/// instance (IEEE 1275-1994, annex A, `instance`).
///
/// -260 where that isn't an instance of the slot's package.
pub fn slot_address(board: &Board, number: u32) -> Result<Cell, Throw>
    ensures { result ≡ slot_address board.now number }
{
    Ok(slot_span(board, number)?.address)
}

/// What a value gives that is one of each instance, and what such a defer executes: the cell that its slot holds in the
/// current instance (IEEE 1275-1994, annex A, `instance`).
///
/// -260 where that isn't an instance of the slot's package.
pub fn slot_cell(board: &Board, number: u32) -> Result<Cell, Throw>
    ensures { result ≡ slot_cell board.now number }
{
    in_instance(
        board
            .instances
            .slot_at(&board.memory, board.active.my_self, number as usize),
    )
}
