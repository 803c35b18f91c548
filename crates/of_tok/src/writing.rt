// The bytes of tokens.

ghost use Rattle.std.specs.Prelude.{◌≡◌, ◌++◌, [], map, reverse, None, OnOk, OnErr, IfOk, IfErr, Ok};
ghost use Rattle.of_tok.specs.Image.{AreWritable, IsRefused, IsUnfit, IsWritable, fitting, unfit, written_behind};
ghost use Rattle.of_tok.specs.Image.{written_bytes};
ghost use Rattle.of_tok.specs.Shown.{written_shown};

use crate::fault::TokFault;
use crate::written::{Aim, Written};
use of_stream::{Argument, OffsetSize, Token};
use std::alloc::Global;

/// The offset that leads to a token's target, if it fits its size.
fn offset(aim: &Aim) -> Option<i16>
    ensures { result ≡ fitting aim.now }
{
    let by = aim.target as i128 - (aim.place.position as i128 + 1);
    let fits = match aim.place.size {
        OffsetSize::One => by >= -0x80 && by < 0x80,
        OffsetSize::Two => by >= -0x8000 && by < 0x8000,
    };
    if fits { Some(by as i16) } else { None }
}

/// Appends the bytes of a token.
///
/// OffsetTooLong with the position of its word where its offset doesn't fit; NoMemory.
fn put(out: &mut Vec<u8>, token: &Written<'_>) -> Result<(), TokFault>
    requires { IsWritable (written_shown token.now) }
    ensures bytes { OnOk result (out.new.items ≡ out.old.items ++ written_bytes (written_shown token.now)) }
    ensures fits { OnOk result (unfit (written_shown token.now) ≡ None) }
    ensures err { IfErr result (IsUnfit (unfit (written_shown token.now))) }
{
    match token {
        Written::Straight(size, token) => {
            token.put(*size, out)?;
            Ok(())
        }
        Written::Aimed(aim) => match offset(aim) {
            None => Err(TokFault::OffsetTooLong(aim.word)),
            Some(by) => {
                let token = Token {
                    code: aim.code,
                    argument: Argument::Offset(by),
                };
                token.put(aim.place.size, out)?;
                Ok(())
            }
        },
    }
}

/// The bytes of tokens, the last of which comes first.
///
/// OffsetTooLong with the position of the first word, in the order of the image, whose offset doesn't
/// fit; NoMemory.
#[tactic(auto, using(crate::proofs::WriteLemmas::one_written, crate::proofs::WriteLemmas::last_first))]
pub fn write_tokens(alloc: Global, mut tokens: Vec<Written<'_>>) -> Result<Vec<u8>, TokFault>
    requires { AreWritable (reverse (map written_shown tokens.items)) }
    ensures ok { IfOk result (λ bytes.
        written_behind [] (reverse (map written_shown tokens.entry.items)) ≡ Ok bytes.items) }
    ensures err { IfErr result (λ f.
        IsRefused (written_behind [] (reverse (map written_shown tokens.entry.items))) f) }
{
    let mut out = Vec::new(alloc);
    while let Some(token) = tokens.pop() {
        put(&mut out, &token)?;
    }
    Ok(out)
}
