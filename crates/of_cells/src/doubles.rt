ghost use Rattle.std.specs.Prelude.{◌≡◌, ◌≢◌, ◌^◌, ◌<◌, ◌*◌, ◌+◌};

use crate::cells::Cell;

/// A number of 64 bits in two cells; on a stack the high cell is on top (Forth 2012, 3.1.4.1).
#[derive(Clone, Copy, Debug, Default, PartialEq, Eq)]
pub struct Double {
    /// The less significant 32 bits.
    pub low: Cell,
    /// The more significant 32 bits.
    pub high: Cell,
}

impl Double {
    ghost use Rattle.of_cells.specs.Doubles.{number_of, double, wide_product, double_quotient, double_remainder};
    ghost use Rattle.of_cells.specs.Doubles.{double_sum, double_difference, extended};

    /// The double of a number.
    pub fn new(number: u64) -> Double
        ensures { result ≡ double number }
    {
        Double {
            low: Cell((number & 0xffff_ffff) as u32),
            high: Cell((number >> 32) as u32),
        }
    }

    /// The unsigned number that the double is.
    pub fn number(self) -> u64
        ensures { result ≡ number_of self }
    {
        u64::from(self.low.0) + (u64::from(self.high.0) << 32)
    }

    /// The product of two unsigned cells (Forth 2012, 6.1.2360).
    pub fn product(x: Cell, y: Cell) -> Double
        ensures { result ≡ wide_product x y }
    {
        Double::new(u64::from(x.0) * u64::from(y.0))
    }

    /// A signed cell as a double (Forth 2012, 6.1.2170).
    pub fn extend(x: Cell) -> Double
        ensures { result ≡ extended x }
    {
        let high = if x.0 < 1 << 31 {
            Cell::ZERO
        } else {
            Cell::TRUE
        };
        Double { low: x, high }
    }

    /// The unsigned quotient by a cell, modulo 2^32 (Forth 2012, 6.1.2370).
    pub fn div(self, divisor: Cell) -> Cell
        requires { divisor.0 ≢ 0 }
        ensures { result ≡ double_quotient self divisor }
    {
        Double::new(self.number() / u64::from(divisor.0)).low
    }

    /// What the unsigned quotient by a cell leaves (Forth 2012, 6.1.2370).
    pub fn modulo(self, divisor: Cell) -> Cell
        requires { divisor.0 ≢ 0 }
        ensures { result ≡ double_remainder self divisor }
    {
        Cell((self.number() % u64::from(divisor.0)) as u32)
    }

    /// The sum, modulo 2^64 (Forth 2012, 8.6.1.1040).
    pub fn add(self, other: Double) -> Double
        ensures { result ≡ double_sum self other }
    {
        Double::new(self.number().wrapping_add(other.number()))
    }

    /// The difference, modulo 2^64 (Forth 2012, 8.6.1.1050).
    pub fn sub(self, other: Double) -> Double
        ensures { result ≡ double_difference self other }
    {
        Double::new(self.number().wrapping_sub(other.number()))
    }
}
