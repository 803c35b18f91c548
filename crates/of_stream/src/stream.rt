ghost use Rattle.std.specs.Prelude.{◌≡◌, ◌<◌, ◌≤◌, length, MatchResult, IfOk, IfErr, OnOk, IfSome, Some, None};
ghost use Rattle.std.specs.Option.{option_map};
ghost use Rattle.of_stream.specs.Image.{header_fault, header_length, first_size};
ghost use Rattle.of_stream.specs.Sizes.{width};
ghost use Rattle.of_stream.specs.Targets.{landing};
ghost use Rattle.of_stream.specs.Decoding.{IsShort, argument_shown, token_from, token_shown};

use crate::fault::StreamFault;
use crate::operand::{read_argument, read_code};
use crate::target::target_at;
use crate::token::Token;
use of_fcodes::operand_of;

/// How many bytes stand before the first token: start byte, format, checksum and length.
pub const HEADER_LENGTH: usize = 8;

/// How many bytes the offsets of branches have.
#[derive(Clone, Copy, Debug, PartialEq, Eq)]
pub enum OffsetSize {
    /// One byte.
    One,
    /// Two bytes.
    Two,
}

impl OffsetSize {
    /// How many bytes an offset has: 1 or 2.
    #[inline]
    pub fn bytes(self) -> usize
        ensures { result ≡ width self }
    {
        match self {
            OffsetSize::One => 1,
            OffsetSize::Two => 2,
        }
    }
}

/// The bytes of an image.
#[derive(Clone, Copy, Debug)]
pub struct Stream<'a> {
    /// All bytes, the header's too.
    pub image: &'a [u8],
}

/// Opens an image (IEEE 1275-1994, 5.2.2.5).
///
/// Short where there are fewer than eight bytes; then Start0 or BadStart by the first byte.
/// Checksum, length and format are not checked.
#[tactic(auto, unfolding(crate::specs::Image::header_fault))]
pub fn open(image: &[u8]) -> Result<Stream<'_>, StreamFault>
    ensures fault { MatchResult result (λ _. header_fault image.now ≡ None) (λ f. header_fault image.now ≡ Some f) }
    ensures image { IfOk result (λ s. s.image.now ≡ image.now) }
    ensures long { OnOk result (header_length ≤ length image.now) }
{
    if image.len() < HEADER_LENGTH {
        return Err(StreamFault::Short);
    }
    match image[0] {
        0xf0 => Err(StreamFault::Start0),
        0xf1 => Ok(Stream { image }),
        0xf2 => Ok(Stream { image }),
        0xf3 => Ok(Stream { image }),
        0xfd => Ok(Stream { image }),
        start => Err(StreamFault::BadStart(start)),
    }
}

impl<'a> Stream<'a> {
    /// The offset size with which the image begins: one byte for `version1`, else two.
    pub fn first_size(self) -> OffsetSize
        ensures { result ≡ first_size self.entry.image.now }
    {
        match self.image {
            [0xfd, ..] => OffsetSize::One,
            _ => OffsetSize::Two,
        }
    }

    /// The token at a position, and the position behind it; Ended with the position where the
    /// image ends before the token does.
    #[inline(always)]
    pub fn token_at(
        self,
        position: usize,
        size: OffsetSize,
    ) -> Result<(Token<'a>, usize), StreamFault>
        ensures ok { IfOk result (λ r. token_from self.entry.image.now position size ≡ Some (token_shown r.0, r.1)) }
        ensures err { IfErr result (λ f. (token_from self.entry.image.now position size ≡ None) ×
            (f ≡ StreamFault.Ended position)) }
        ensures short { IfOk result (λ r. IsShort (argument_shown r.0.argument)) }
        ensures rises { IfOk result (λ r. position < r.1) }
        ensures within { IfOk result (λ r. r.1 ≤ length self.entry.image.now) }
    {
        match token_in(self.image, position, size) {
            Some(found) => Ok(found),
            None => Err(StreamFault::Ended(position)),
        }
    }

    /// The position at which the image goes on where the offset of the token at a position is
    /// followed; none where that lies before the first token, or at the end or past it.
    #[inline]
    pub fn landing(self, position: usize, by: i16) -> Option<usize>
        requires { position < length self.image.now }
        ensures { result ≡ landing (length self.entry.image.now) position by }
    {
        let target = target_at(position, by)?;
        if target < HEADER_LENGTH || target >= self.image.len() {
            return None;
        }
        Some(target)
    }
}

/// The token at a position and the position behind it, where the image doesn't end before.
#[inline(always)]
#[tactic(auto, unfolding(crate::specs::Decoding::token_from, crate::specs::Decoding::decoded))]
fn token_in(image: &[u8], position: usize, size: OffsetSize) -> Option<(Token<'_>, usize)>
    ensures token { option_map (λ r. (token_shown r.0, r.1)) result ≡ token_from image.now position size }
    ensures short { IfSome result (λ r. IsShort (argument_shown r.0.argument)) }
    ensures rises { IfSome result (λ r. position < r.1) }
    ensures within { IfSome result (λ r. r.1 ≤ length image.now) }
{
    if position > image.len() {
        return None;
    }
    let (code, rest) = read_code(&image[position..])?;
    let (argument, rest) = read_argument(operand_of(code), size, rest)?;
    Some((Token { code, argument }, image.len() - rest.len()))
}
