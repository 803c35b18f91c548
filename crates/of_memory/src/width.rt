ghost use Rattle.std.specs.Prelude.{◌≡◌};
ghost use Rattle.of_memory.specs.Width.{bytes_in};

/// How many bytes an access reads or writes at once, and of what its address is a multiple.
#[derive(Clone, Copy)]
pub enum Width {
    /// One byte.
    One,

    /// Two bytes.
    Two,

    /// Four bytes, a cell.
    Four,
}

impl Width {
    /// The number of bytes: 1, 2 or 4.
    #[inline]
    pub fn bytes(self) -> u32
        ensures { result ≡ bytes_in self }
    {
        match self {
            Width::One => 1,
            Width::Two => 2,
            Width::Four => 4,
        }
    }
}
