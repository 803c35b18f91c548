ghost use Rattle.std.specs.Prelude.{◌≡◌};
ghost use Rattle.of_stream.specs.Sizes.{is_end, size_behind};

use crate::stream::OffsetSize;
use of_cells::Cell;
use of_fcodes::FCode;

/// What stands behind an FCode in an image.
#[derive(Clone, Copy, Debug, PartialEq, Eq)]
pub enum Argument<'a> {
    /// Nothing.
    Nothing,
    /// A cell.
    Literal(Cell),
    /// The bytes of a string.
    String(&'a [u8]),
    /// An FCode.
    FCode(FCode),
    /// The bytes of a name, and an FCode.
    Named(&'a [u8], FCode),
    /// How many bytes a branch's target stands behind the first byte of this offset.
    Offset(i16),
}

/// A token of an image: an FCode with what stands behind it (IEEE 1275-1994, 5.2.2).
#[derive(Clone, Copy, Debug, PartialEq, Eq)]
pub struct Token<'a> {
    /// The FCode.
    pub code: FCode,
    /// What stands behind it.
    pub argument: Argument<'a>,
}

impl Token<'_> {
    /// The size of the offsets behind the token: two bytes behind `offset16`, else as before it.
    #[inline]
    pub fn size_behind(&self, size: OffsetSize) -> OffsetSize
        ensures { result ≡ size_behind self.now.code.0 size }
    {
        match self.code.0 {
            0x0cc => OffsetSize::Two,
            _ => size,
        }
    }

    /// Whether the token ends an image, as `end0` and `end1` do.
    #[inline]
    pub fn is_end(&self) -> bool
        ensures { result ≡ is_end self.now.code.0 }
    {
        matches!(self.code.0, 0x000 | 0x0ff)
    }
}
