// Readers of operands: each gives the value and the bytes behind it, or nothing where the bytes
// end before it does.

ghost use Rattle.std.specs.Prelude.{◌≡◌, ◌<◌, ◌≤◌, length, IfSome, Some, None};
ghost use Rattle.std.specs.Option.{option_map};
ghost use Rattle.of_stream.specs.Decoding.{code, cell_from, literal, counted, offset, argument};
ghost use Rattle.of_stream.specs.Decoding.{code_read, literal_read};
ghost use Rattle.of_stream.specs.Decoding.{counted_read, offset_read, argument_read, argument_shown, IsShort};

use crate::stream::OffsetSize;
use crate::token::Argument;
use of_cells::Cell;
use of_fcodes::{FCode, Operand};

/// An FCode of one byte, or of two where the first is 0x01 to 0x0F.
#[inline(always)]
pub fn read_code(bytes: &[u8]) -> Option<(FCode, &[u8])>
    ensures read { option_map code_read result ≡ code bytes.now }
    ensures shorter { IfSome result (λ r. length r.1.now < length bytes.now) }
{
    match bytes {
        [] => None,
        [first, rest @ ..] => {
            if *first == 0 || *first > 0x0f {
                return Some((FCode(u16::from(*first)), rest));
            }
            match rest {
                [] => None,
                [second, rest @ ..] => {
                    Some((FCode(u16::from(*first) * 0x100 + u16::from(*second)), rest))
                }
            }
        }
    }
}

/// The cell of four bytes, the most significant first.
#[inline(always)]
fn cell_from(a: u8, b: u8, c: u8, d: u8) -> Cell
    ensures { result ≡ cell_from a b c d }
{
    Cell(u32::from_be_bytes([a, b, c, d]))
}

/// A cell of four bytes.
#[inline(always)]
fn read_literal(bytes: &[u8]) -> Option<(Cell, &[u8])>
    ensures read { option_map literal_read result ≡ literal bytes.now }
    ensures shorter { IfSome result (λ r. length r.1.now ≤ length bytes.now) }
{
    match bytes {
        [a, b, c, d, rest @ ..] => Some((cell_from(*a, *b, *c, *d), rest)),
        _ => None,
    }
}

/// A string behind the byte of its length.
#[inline(always)]
fn read_string(bytes: &[u8]) -> Option<(&[u8], &[u8])>
    ensures read { option_map counted_read result ≡ counted bytes.now }
    ensures short { IfSome result (λ r. length r.0.now < 256) }
    ensures shorter { IfSome result (λ r. length r.1.now ≤ length bytes.now) }
{
    match bytes {
        [] => None,
        [length, rest @ ..] => {
            let length = usize::from(*length);
            if rest.len() < length {
                return None;
            }
            Some((&rest[..length], &rest[length..]))
        }
    }
}

/// A signed offset.
#[inline(always)]
fn read_offset(size: OffsetSize, bytes: &[u8]) -> Option<(i16, &[u8])>
    ensures read { option_map offset_read result ≡ offset size bytes.now }
    ensures shorter { IfSome result (λ r. length r.1.now ≤ length bytes.now) }
{
    match size {
        OffsetSize::One => match bytes {
            [a, rest @ ..] => Some((i16::from((*a).cast_signed()), rest)),
            _ => None,
        },
        OffsetSize::Two => match bytes {
            [a, b, rest @ ..] => Some((i16::from_be_bytes([*a, *b]), rest)),
            _ => None,
        },
    }
}

/// What stands behind an FCode of this operand.
#[inline(always)]
pub fn read_argument(
    operand: Operand,
    size: OffsetSize,
    bytes: &[u8],
) -> Option<(Argument<'_>, &[u8])>
    ensures read { option_map argument_read result ≡ argument operand size bytes.now }
    ensures short { IfSome result (λ r. IsShort (argument_shown r.0)) }
    ensures shorter { IfSome result (λ r. length r.1.now ≤ length bytes.now) }
{
    match operand {
        Operand::Nothing => Some((Argument::Nothing, bytes)),
        Operand::Literal => {
            let (x, rest) = read_literal(bytes)?;
            Some((Argument::Literal(x), rest))
        }
        Operand::String => {
            let (text, rest) = read_string(bytes)?;
            Some((Argument::String(text), rest))
        }
        Operand::FCode => {
            let (code, rest) = read_code(bytes)?;
            Some((Argument::FCode(code), rest))
        }
        Operand::Named => {
            let (name, rest) = read_string(bytes)?;
            let (code, rest) = read_code(rest)?;
            Some((Argument::Named(name, code), rest))
        }
        Operand::Offset => {
            let (by, rest) = read_offset(size, bytes)?;
            Some((Argument::Offset(by), rest))
        }
    }
}
