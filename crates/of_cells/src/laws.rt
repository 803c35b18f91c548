// Laws of the definitions. A law has no parameters and does nothing: its contract is the law.

ghost use Rattle.std.specs.Prelude.{◌≡◌, ℕ, ◌<◌, ◌^◌};
ghost use Rattle.of_cells.specs.declared.cells.Cell.{Cell};
ghost use Rattle.of_cells.specs.Division.{DividesBack};
ghost use Rattle.of_cells.specs.Splitting.{IsByte, IsHalf, IsCell, JoinsItsBytes, JoinsItsHalves, SplitsItsBytes};
ghost use Rattle.of_cells.specs.Splitting.{SplitsItsHalves, SplitsItsHalf, FlipsBack};

/// The floored quotient times the divisor, and the rest, give the number back; the rest is 0 or
/// has the divisor's sign (Forth 2012, 3.2.2.1).
pub fn floored_division()
    ensures { DividesBack }
{}

/// Split into halves or bytes and joined again, a cell is as before, and so is what was flipped
/// twice.
pub fn joins_of_splits()
    ensures bytes { JoinsItsBytes }
    ensures halves { JoinsItsHalves }
    ensures flips { FlipsBack }
{}

/// Joined to a cell and split again, bytes and halves are as before.
pub fn splits_of_joins()
    ensures bytes { SplitsItsBytes }
    ensures halves { SplitsItsHalves }
    ensures half { SplitsItsHalf }
{}
