ghost use Rattle.std.specs.Prelude.{◌≡◌, ◌≢◌, ◌^◌, ◌<◌, ◌*ℤ◌};
ghost use Rattle.of_cells.specs.Numbers.{signed};
ghost use Rattle.of_cells.specs.Division.{quotient, remainder, unsigned_quotient, unsigned_remainder, scaled_quotient};
ghost use Rattle.of_cells.specs.Division.{scaled_remainder};

use crate::cells::Cell;
use crate::doubles::Double;

/// The signed product of two cells, whole.
fn signed_product(x: Cell, y: Cell) -> i64
    ensures { result ≡ signed x *ℤ signed y }
{
    i64::from(x.signed()) * i64::from(y.signed())
}

impl Cell {
    /// The signed quotient rounded down; the least number by -1 wraps to itself (Forth 2012,
    /// 6.1.0230).
    pub fn div(self, divisor: Cell) -> Cell
        requires { divisor.0 ≢ 0 }
        ensures { result ≡ quotient self divisor }
    {
        if self.0 < 1 << 31 {
            if divisor.0 < 1 << 31 {
                self.unsigned_div(divisor)
            } else if self.0 == 0 {
                Cell(0)
            } else {
                Cell(!((self.0 - 1) / (!divisor.0 + 1)))
            }
        } else if divisor.0 < 1 << 31 {
            Cell(!(!self.0 / divisor.0))
        } else {
            Cell((!self.0 + 1) / (!divisor.0 + 1))
        }
    }

    /// What the signed quotient rounded down leaves: 0, or of the divisor's sign (Forth 2012,
    /// 6.1.1890).
    pub fn modulo(self, divisor: Cell) -> Cell
        requires { divisor.0 ≢ 0 }
        ensures { result ≡ remainder self divisor }
    {
        if self.0 < 1 << 31 {
            if divisor.0 < 1 << 31 {
                self.unsigned_modulo(divisor)
            } else if self.0 == 0 {
                Cell(0)
            } else {
                Cell(!divisor.0 - (self.0 - 1) % (!divisor.0 + 1)).negate()
            }
        } else if divisor.0 < 1 << 31 {
            Cell(divisor.0 - 1 - !self.0 % divisor.0)
        } else {
            Cell((!self.0 + 1) % (!divisor.0 + 1)).negate()
        }
    }

    /// The unsigned quotient (IEEE 1275-1994, `u/mod`).
    pub fn unsigned_div(self, divisor: Cell) -> Cell
        requires { divisor.0 ≢ 0 }
        ensures { result ≡ unsigned_quotient self divisor }
    {
        Cell(self.0 / divisor.0)
    }

    /// What the unsigned quotient leaves (IEEE 1275-1994, `u/mod`).
    pub fn unsigned_modulo(self, divisor: Cell) -> Cell
        requires { divisor.0 ≢ 0 }
        ensures { result ≡ unsigned_remainder self divisor }
    {
        Cell(self.0 % divisor.0)
    }

    /// The signed quotient, rounded down, of the product with a factor, over 64 bits; modulo
    /// 2^32 (Forth 2012, 6.1.0100).
    pub fn scaled_div(self, factor: Cell, divisor: Cell) -> Cell
        requires { divisor.0 ≢ 0 }
        ensures { result ≡ scaled_quotient self factor divisor }
    {
        let product = signed_product(self, factor);
        let size = product.unsigned_abs();
        let by = u64::from(divisor.abs().0);
        if product == 0 || (product < 0) == (divisor.0 >= 1 << 31) {
            Double::new(size / by).low
        } else {
            Double::new((size - 1) / by).low.invert()
        }
    }

    /// What that quotient leaves: 0, or of the divisor's sign (Forth 2012, 6.1.0110).
    pub fn scaled_modulo(self, factor: Cell, divisor: Cell) -> Cell
        requires { divisor.0 ≢ 0 }
        ensures { result ≡ scaled_remainder self factor divisor }
    {
        let product = signed_product(self, factor);
        let size = product.unsigned_abs();
        let by = u64::from(divisor.abs().0);
        if divisor.0 < 1 << 31 {
            if product < 0 {
                Double::new(by - 1 - (size - 1) % by).low
            } else {
                Double::new(size % by).low
            }
        } else if product <= 0 {
            Double::new(size % by).low.negate()
        } else {
            Double::new(by - 1 - (size - 1) % by).low.negate()
        }
    }
}
