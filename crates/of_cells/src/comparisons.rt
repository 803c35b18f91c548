ghost use Rattle.std.specs.Prelude.{◌≡◌, ◌^◌, not};
ghost use Rattle.of_cells.specs.Comparing.{is_less, is_at_most, is_below, is_between, is_within};

use crate::cells::Cell;

impl Cell {
    /// Whether this signed number is less (Forth 2012, 6.1.0480).
    pub fn is_less(self, other: Cell) -> bool
        ensures { result ≡ is_less self other }
    {
        self.0.cast_signed() < other.0.cast_signed()
    }

    /// Whether this signed number is greater (Forth 2012, 6.1.0540).
    pub fn is_greater(self, other: Cell) -> bool
        ensures { result ≡ is_less other self }
    {
        other.is_less(self)
    }

    /// Whether this signed number is at most the other.
    pub fn is_at_most(self, other: Cell) -> bool
        ensures { result ≡ is_at_most self other }
    {
        self.0.cast_signed() <= other.0.cast_signed()
    }

    /// Whether this signed number is at least the other.
    pub fn is_at_least(self, other: Cell) -> bool
        ensures { result ≡ is_at_most other self }
    {
        other.is_at_most(self)
    }

    /// Whether this unsigned number is less (Forth 2012, 6.1.2340).
    pub fn is_below(self, other: Cell) -> bool
        ensures { result ≡ is_below self other }
    {
        self.0 < other.0
    }

    /// Whether this unsigned number is greater (Forth 2012, 6.2.2350).
    pub fn is_above(self, other: Cell) -> bool
        ensures { result ≡ is_below other self }
    {
        other.is_below(self)
    }

    /// Whether this unsigned number is at most the other.
    pub fn is_not_above(self, other: Cell) -> bool
        ensures { result ≡ not (is_below other self) }
    {
        self.0 <= other.0
    }

    /// Whether this unsigned number is at least the other.
    pub fn is_not_below(self, other: Cell) -> bool
        ensures { result ≡ not (is_below self other) }
    {
        other.is_not_above(self)
    }

    /// Whether this signed number lies between two others, both ends in (IEEE 1275-1994,
    /// `between`).
    pub fn is_between(self, low: Cell, high: Cell) -> bool
        ensures { result ≡ is_between self low high }
    {
        low.is_at_most(self) && self.is_at_most(high)
    }

    /// Whether this cell lies on the circle of cells from `low` up to, but not with, `high`
    /// (Forth 2012, 6.2.2440).
    pub fn is_within(self, low: Cell, high: Cell) -> bool
        ensures { result ≡ is_within self low high }
    {
        self.sub(low).is_below(high.sub(low))
    }
}
