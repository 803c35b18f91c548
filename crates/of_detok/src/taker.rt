ghost use Rattle.std.specs.Prelude.{◌≡◌, ◌≤◌, ◌++◌, ◌∷◌, [], drop, length, IfOk, IfErr, OnOk};
ghost use Rattle.of_stream.specs.Image.{first_size, header_length};
ghost use Rattle.of_detok.specs.Definitions.{bytes_before, definitions_of, is_open_behind, taken, taken_behind};

use crate::fault::DetokFault;
use of_fcodes::FCode;
use of_stream::{HEADER_LENGTH, Stream, StreamFault, open};
use std::alloc::{AllocError, Global};

/// The byte of `end0`.
const END: u8 = 0x00;

/// The byte of `external-token`.
const EXTERNAL: u8 = 0xca;

/// The byte of `b(create)`.
const CREATE: u8 = 0xbb;

/// Whether a definition is open behind a token.
fn is_open_behind(is_open: bool, code: FCode) -> bool
    ensures { result ≡ is_open_behind is_open code.0 }
{
    match code.0 {
        0x0b7 => true,
        0x0c2 => false,
        _ => is_open,
    }
}

/// All bytes but the first.
fn behind_first(bytes: &[u8]) -> &[u8]
    ensures { result.now ≡ drop 1 bytes.now }
{
    match bytes {
        [] => &[],
        [_, rest @ ..] => rest,
    }
}

/// Appends what is taken of a token of these bytes.
fn push_taken(out: &mut Vec<u8>, is_open: bool, code: FCode, own: &[u8]) -> Result<(), AllocError>
    ensures { OnOk result (out.new.items ≡ out.old.items ++ taken is_open code.0 own.now) }
{
    if is_open {
        return out.extend_from_slice(own);
    }
    match code.0 {
        0x0b6 => {
            out.push(EXTERNAL)?;
            out.extend_from_slice(behind_first(own))
        }
        0x0b5 | 0x0ca | 0x0b7 | 0x0cc => out.extend_from_slice(own),
        0x0b8 | 0x0b9 | 0x0ba | 0x0bb | 0x0bc | 0x0bd | 0x0be => out.extend_from_slice(&[CREATE]),
        _ => Ok(()),
    }
}

/// Takes what makes words behind the header, and says why it stops before the end, if it does. A token has a byte at
/// least, so there are no more tokens than bytes.
fn take_tokens(out: &mut Vec<u8>, stream: Stream<'_>) -> Result<Option<StreamFault>, AllocError>
    requires { header_length ≤ length stream.image.now }
    ensures { IfOk result (λ fault. (out.new.items ++ 0x00 ∷ [], fault)
        ≡ bytes_before out.old.items (taken_behind stream.entry.image.now)) }
{
    let mut position = HEADER_LENGTH;
    let mut size = stream.first_size();
    let mut is_open = false;
    for _ in 0..stream.image.len() {
        let (token, next) = match stream.token_at(position, size) {
            Ok(read) => read,
            Err(fault) => return Ok(Some(fault)),
        };
        if token.is_end() {
            return Ok(None);
        }
        push_taken(out, is_open, token.code, &stream.image[position..next])?;
        is_open = is_open_behind(is_open, token.code);
        position = next;
        size = token.size_behind(size);
    }
    Ok(Some(StreamFault::Ended(position)))
}

/// The definitions of an image: the image again, with those of its tokens alone that make words, up to its end token or
/// up to what is wrong with it, which is given, too (IEEE 1275-1994, 5.2.2 and 5.3.3.1).
///
/// The eight bytes of the header stay as they are, though sum and length may be others now; the evaluator checks
/// neither. `new-token`, `external-token` and `offset16` are kept with their operands, and so is each token from a
/// `b(:)` to its `b(;)`: a definition is whole, so its offsets lead where they led. Outside a definition `named-token`
/// is written as `external-token`, so that its word has its name whether or not `fcode-debug?` is set; and the other
/// defining tokens, as `b(value)`, are written as `b(create)`, which takes nothing from the stack: the word is there,
/// with its number and name, and has no value. All else is left out, and `end0` stands behind the last token. So where
/// these bytes are run each definition is compiled, and nothing is executed; words that an image makes by `set-token`,
/// `byte-load` or `evaluate` are lacking.
///
/// What is wrong is the header, and then there are no bytes, or a token up to the end token that can't be read.
/// NoMemory.
#[tactic(auto, unfolding(crate::specs::Definitions::definitions_of))]
pub fn definitions(
    alloc: Global,
    image: &[u8],
) -> Result<(Vec<u8>, Option<StreamFault>), DetokFault>
    ensures ok { IfOk result (λ r. definitions_of image.now ≡ (r.0.items, r.1)) }
    ensures err { IfErr result (λ e. e ≡ DetokFault.NoMemory) }
{
    let mut out = Vec::new(alloc);
    let stream = match open(image) {
        Ok(stream) => stream,
        Err(fault) => return Ok((out, Some(fault))),
    };
    out.extend_from_slice(&image[..HEADER_LENGTH])?;
    let fault = take_tokens(&mut out, stream)?;
    out.extend_from_slice(&[END])?;
    Ok((out, fault))
}
