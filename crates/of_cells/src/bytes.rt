ghost use Rattle.std.specs.Prelude.{◌≡◌, ◌^◌, ◌<◌};
ghost use Rattle.of_cells.specs.Splitting.{low_byte, second_byte, third_byte, high_byte, low_half, high_half, half_of};
ghost use Rattle.of_cells.specs.Splitting.{cell_of_halves, cell_of_bytes, flipped_half, flipped_halves, flipped_bytes};

use crate::cells::Cell;

impl Cell {
    /// The least significant byte.
    pub fn low_byte(self) -> Cell
        ensures { result ≡ low_byte self }
    {
        Cell(self.0 % 0x100)
    }

    /// The byte above the least significant one.
    pub fn second_byte(self) -> Cell
        ensures { result ≡ second_byte self }
    {
        Cell(self.0 / 0x100 % 0x100)
    }

    /// The byte below the most significant one.
    pub fn third_byte(self) -> Cell
        ensures { result ≡ third_byte self }
    {
        Cell(self.0 / 0x1_0000 % 0x100)
    }

    /// The most significant byte.
    pub fn high_byte(self) -> Cell
        ensures { result ≡ high_byte self }
    {
        Cell(self.0 / 0x100_0000)
    }

    /// The less significant 16 bits.
    pub fn low_half(self) -> Cell
        ensures { result ≡ low_half self }
    {
        Cell(self.0 % 0x1_0000)
    }

    /// The more significant 16 bits.
    pub fn high_half(self) -> Cell
        ensures { result ≡ high_half self }
    {
        Cell(self.0 / 0x1_0000)
    }

    /// The half of two bytes (IEEE 1275-1994, `bwjoin`).
    pub fn from_two_bytes(low: Cell, high: Cell) -> Cell
        ensures { result ≡ half_of low high }
    {
        Cell(low.0 % 0x100 + 0x100 * (high.0 % 0x100))
    }

    /// The cell of two halves (IEEE 1275-1994, `wljoin`).
    pub fn from_halves(low: Cell, high: Cell) -> Cell
        ensures { result ≡ cell_of_halves low high }
    {
        Cell(low.0 % 0x1_0000 + 0x1_0000 * (high.0 % 0x1_0000))
    }

    /// The cell of four bytes (IEEE 1275-1994, `bljoin`).
    pub fn from_four_bytes(low: Cell, second: Cell, third: Cell, high: Cell) -> Cell
        ensures { result ≡ cell_of_bytes low second third high }
    {
        Cell(
            low.0 % 0x100
                + 0x100 * (second.0 % 0x100)
                + 0x1_0000 * (third.0 % 0x100)
                + 0x100_0000 * (high.0 % 0x100),
        )
    }

    /// The two bytes of the low half exchanged (IEEE 1275-1994, `wbflip`).
    pub fn flip_half(self) -> Cell
        ensures { result ≡ flipped_half self }
    {
        Cell::from_two_bytes(self.second_byte(), self.low_byte())
    }

    /// The halves exchanged (IEEE 1275-1994, `lwflip`).
    pub fn flip_halves(self) -> Cell
        ensures { result ≡ flipped_halves self }
    {
        Cell::from_halves(self.high_half(), self.low_half())
    }

    /// The four bytes in the other order (IEEE 1275-1994, `lbflip`).
    pub fn flip_bytes(self) -> Cell
        ensures { result ≡ flipped_bytes self }
    {
        Cell::from_four_bytes(
            self.high_byte(),
            self.third_byte(),
            self.second_byte(),
            self.low_byte(),
        )
    }
}
