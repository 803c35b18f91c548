ghost use Rattle.std.specs.Prelude.{◌≡◌, ◌^◌};
ghost use Rattle.of_cells.specs.Arithmetic.{plus, minus, times, negated, magnitude, least, greatest};

use crate::cells::Cell;

impl Cell {
    /// The sum, modulo 2^32 (Forth 2012, 6.1.0120).
    pub fn add(self, other: Cell) -> Cell
        ensures { result ≡ plus self other }
    {
        Cell(self.0.wrapping_add(other.0))
    }

    /// The difference, modulo 2^32 (Forth 2012, 6.1.0160).
    pub fn sub(self, other: Cell) -> Cell
        ensures { result ≡ minus self other }
    {
        Cell(self.0.wrapping_sub(other.0))
    }

    /// The product, modulo 2^32 (Forth 2012, 6.1.0090).
    pub fn mul(self, other: Cell) -> Cell
        ensures { result ≡ times self other }
    {
        Cell(self.0.wrapping_mul(other.0))
    }

    /// The negative, modulo 2^32 (Forth 2012, 6.1.1910).
    pub fn negate(self) -> Cell
        ensures { result ≡ negated self }
    {
        Cell(0u32.wrapping_sub(self.0))
    }

    /// The absolute value; that of the least number is itself (Forth 2012, 6.1.0690).
    pub fn abs(self) -> Cell
        ensures { result ≡ magnitude self }
    {
        if self.0 < 1 << 31 {
            self
        } else {
            self.negate()
        }
    }

    /// The lesser of two signed numbers (Forth 2012, 6.1.1880).
    pub fn min(self, other: Cell) -> Cell
        ensures { result ≡ least self other }
    {
        if self.is_less(other) { self } else { other }
    }

    /// The greater of two signed numbers (Forth 2012, 6.1.1870).
    pub fn max(self, other: Cell) -> Cell
        ensures { result ≡ greatest self other }
    {
        if self.is_less(other) { other } else { self }
    }
}
