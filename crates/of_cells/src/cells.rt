ghost use Rattle.std.specs.Prelude.{◌≡◌, not, ◌==◌};
ghost use Rattle.of_cells.specs.Numbers.{flag, signed};

/// A cell: a number of 32 bits, read unsigned or in two's complement (Forth 2012, 3.1.4).
///
/// As a flag 0 is false and every other cell is true (Forth 2012, 3.1.3.1).
#[derive(Clone, Copy, Debug, Default, PartialEq, Eq)]
pub struct Cell(pub u32);

impl Cell {
    /// The cell 0, which is also the flag false.
    pub const ZERO: Cell = Cell(0);

    /// The cell 1.
    pub const ONE: Cell = Cell(1);

    /// The flag true, with all bits set.
    pub const TRUE: Cell = Cell(0xffff_ffff);

    /// The flag of a truth value: all bits set, or none.
    pub fn flag(truth: bool) -> Cell
        ensures { result ≡ flag truth }
    {
        if truth { Cell::TRUE } else { Cell::ZERO }
    }

    /// Whether the cell counts as true.
    pub fn is_true(self) -> bool
        ensures { result ≡ not (self.0 == 0) }
    {
        self.0 != 0
    }

    /// The cell as a signed number.
    pub fn signed(self) -> i32
        ensures { result ≡ signed self }
    {
        self.0.cast_signed()
    }
}
