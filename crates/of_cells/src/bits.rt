ghost use Rattle.std.specs.Prelude.{◌≡◌, ◌^◌};
ghost use Rattle.of_cells.specs.Bits.{both, either, differing, inverted, shifted_left, shifted_right};
ghost use Rattle.of_cells.specs.Bits.{shifted_keeping_sign};

use crate::cells::Cell;

impl Cell {
    /// The bits set in both cells (Forth 2012, 6.1.0720).
    pub fn and(self, other: Cell) -> Cell
        ensures { result ≡ both self other }
    {
        Cell(self.0 & other.0)
    }

    /// The bits set in either cell (Forth 2012, 6.1.1980).
    pub fn or(self, other: Cell) -> Cell
        ensures { result ≡ either self other }
    {
        Cell(self.0 | other.0)
    }

    /// The bits in which the cells differ (Forth 2012, 6.1.2490).
    pub fn xor(self, other: Cell) -> Cell
        ensures { result ≡ differing self other }
    {
        Cell(self.0 ^ other.0)
    }

    /// Each bit turned (Forth 2012, 6.1.1720).
    pub fn invert(self) -> Cell
        ensures { result ≡ inverted self }
    {
        Cell(!self.0)
    }

    /// Shifts towards the high bits; a count of 32 or more gives 0 (Forth 2012, 6.1.1805).
    pub fn shift_left(self, count: Cell) -> Cell
        ensures { result ≡ shifted_left self count }
    {
        if count.0 < 32 {
            Cell(self.0.wrapping_shl(count.0))
        } else {
            Cell(0)
        }
    }

    /// Shifts towards the low bits; a count of 32 or more gives 0 (Forth 2012, 6.1.2162).
    pub fn shift_right(self, count: Cell) -> Cell
        ensures { result ≡ shifted_right self count }
    {
        if count.0 < 32 {
            Cell(self.0 >> count.0)
        } else {
            Cell(0)
        }
    }

    /// Shifts towards the low bits with copies of the sign; a count of 32 or more gives the sign
    /// in all bits (IEEE 1275-1994, `>>a`).
    pub fn shift_right_keeping_sign(self, count: Cell) -> Cell
        ensures { result ≡ shifted_keeping_sign self count }
    {
        let count = if count.0 < 32 { count.0 } else { 31 };
        Cell((self.0.cast_signed() >> count).cast_unsigned())
    }
}
