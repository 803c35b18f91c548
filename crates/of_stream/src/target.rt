ghost use Rattle.std.specs.Prelude.{◌≡◌, ◌<◌, ◌^◌};
ghost use Rattle.of_stream.specs.Targets.{target_at};

/// The position, from 0, to which the offset of the token at a position leads; none where it leads
/// before the first byte.
///
/// An offset counts from its own first byte, the one behind the FCode.
#[inline]
pub fn target_at(position: usize, by: i16) -> Option<usize>
    requires { position < 2 ^ 63 }
    ensures { result ≡ target_at position by }
{
    (position + 1).checked_add_signed(isize::from(by))
}
