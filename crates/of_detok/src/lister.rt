ghost use Rattle.std.specs.Prelude.{◌≡◌, ◌+◌, ◌-◌, ◌/◌, ◌≤◌, ◌<◌, ◌^◌, ◌++◌, codes, length, take, drop, IfOk, IfErr};
ghost use Rattle.std.specs.Prelude.{OnOk, slice_range};
ghost use Rattle.std.specs.List.{flat_map};
ghost use Rattle.of_stream.specs.Decoding.{token_shown};
ghost use Rattle.of_stream.specs.Image.{first_size, header_length};
ghost use Rattle.of_detok.specs.Listing.{header_line, line_text, token_line, trailing_from, lines_from};
ghost use Rattle.of_detok.specs.Listing.{text_behind, listed, listed_so_far, IsRefused};

use crate::fault::DetokFault;
use crate::labels::{write_header, write_noted};
use crate::line::write_line;
use crate::notes::{Extras, Notes};
use of_stream::{HEADER_LENGTH, Stream, StreamFault, Token, open};
use std::alloc::{AllocError, Global};

/// How many bytes stand on a line behind the end token.
const TRAILING: usize = 16;

/// Writes the line of the header.
#[tactic(auto, unfolding(crate::specs::Listing::line_text), using(std::proofs::lemmas::List::append_assoc))]
fn write_header_line(out: &mut Vec<u8>, image: &[u8]) -> Result<(), AllocError>
    requires { header_length ≤ length image.now }
    ensures { OnOk result (out.new.items ≡ out.old.items ++ line_text (header_line image.now)) }
{
    write_line(out, 0, &image[..HEADER_LENGTH])?;
    write_header(out, image)?;
    out.push(b'\n')?;
    Ok(())
}

/// Writes the line of the token from a position up to another.
#[tactic(auto, unfolding(crate::specs::Listing::line_text), using(std::proofs::lemmas::List::append_assoc))]
fn write_token_line(
    out: &mut Vec<u8>,
    image: &[u8],
    notes: &Notes<'_>,
    position: usize,
    token: Token<'_>,
    next: usize,
) -> Result<(), AllocError>
    requires rises { position ≤ next }
    requires within { next ≤ length image.now }
    ensures { OnOk result (out.new.items
        ≡ out.old.items ++ line_text (token_line image.now notes.now position (token_shown token.entry, next))) }
{
    write_line(out, position, &image[position..next])?;
    write_noted(out, notes, position, token)?;
    out.push(b'\n')?;
    Ok(())
}

/// Writes a line behind the end token.
#[tactic(auto, unfolding(crate::specs::Listing::line_text), using(std::proofs::lemmas::List::append_assoc))]
fn write_trailing_line(out: &mut Vec<u8>, before: usize, bytes: &[u8]) -> Result<(), AllocError>
    ensures { OnOk result (out.new.items
        ≡ out.old.items ++ line_text (record { before = before; bytes = bytes.now; label = codes "trailing" })) }
{
    write_line(out, before, bytes)?;
    out.extend_from_slice(b"trailing\n")
}

/// The bytes of the line that begins at a position behind the end token.
#[tactic(auto, using(std::proofs::lemmas::List::take_min))]
fn bytes_from(image: &[u8], position: usize) -> &[u8]
    requires { position ≤ length image.now }
    ensures { result.now ≡ take 16 (drop position image.now) }
{
    let rest = &image[position..];
    &rest[..TRAILING.min(rest.len())]
}

/// Writes the lines from a position on, behind the end token.
fn write_trailing(out: &mut Vec<u8>, image: &[u8], position: usize) -> Result<(), AllocError>
    requires { position ≤ length image.now }
    ensures { OnOk result (out.new.items ≡ out.old.items ++ flat_map line_text (trailing_from image.now position)) }
{
    let count = (image.len() - position).div_ceil(TRAILING);
    for k in 0..count {
        let first = position + TRAILING * k;
        write_trailing_line(out, first, bytes_from(image, first))?;
    }
    Ok(())
}

/// Writes the lines behind the header, and says why it stops before the end, if it does. A token has a byte at least,
/// so there are no more tokens than bytes.
fn write_tokens<'a>(
    out: &mut Vec<u8>,
    stream: Stream<'a>,
    mut notes: Notes<'a>,
) -> Result<Option<StreamFault>, AllocError>
    requires { header_length ≤ length stream.image.now }
    ensures { IfOk result (λ fault. (out.new.items, fault)
        ≡ text_behind out.old.items (lines_from stream.entry.image.now (length stream.entry.image.now) notes.entry
        header_length (first_size stream.entry.image.now))) }
{
    let mut position = HEADER_LENGTH;
    let mut size = stream.first_size();
    for _ in 0..stream.image.len() {
        let (token, next) = match stream.token_at(position, size) {
            Ok(read) => read,
            Err(fault) => return Ok(Some(fault)),
        };
        write_token_line(out, stream.image, &notes, position, token, next)?;
        if token.is_end() {
            write_trailing(out, stream.image, next)?;
            return Ok(None);
        }
        notes.pass(token);
        position = next;
        size = token.size_behind(size);
    }
    Ok(Some(StreamFault::Ended(position)))
}

/// The listing of an image (IEEE 1275-1994, 5.2.2), a line for each token, up to the end of the image or up to what is
/// wrong with it, which is given, too.
///
/// A line has its position in six digits (modulo 2^24), `: `, its bytes in hexadecimal, two spaces,
/// the name and the operands. The first line is the header's, with the start word, and with the
/// checksum and the length of the image where the header says others. Offsets have the size that
/// holds at their token, in the order of the bytes. Bytes behind the end token are lines of up to
/// sixteen bytes, named `trailing`.
///
/// What is wrong is the header, and then there are no lines, or a token up to the end token that can't be read. An
/// error is for memory alone.
#[tactic(auto, unfolding(crate::specs::Listing::lines_of))]
pub fn partial_listing(
    alloc: Global,
    image: &[u8],
    extras: Extras,
) -> Result<(Vec<u8>, Option<StreamFault>), AllocError>
    ensures { IfOk result (λ r. (r.0.items, r.1) ≡ listed_so_far extras image.now) }
{
    let mut out = Vec::new(alloc);
    let stream = match open(image) {
        Ok(stream) => stream,
        Err(fault) => return Ok((out, Some(fault))),
    };
    let notes = Notes::new(alloc, extras)?;
    write_header_line(&mut out, image)?;
    let fault = write_tokens(&mut out, stream, notes)?;
    Ok((out, fault))
}

/// The listing of an image whose tokens can all be read, as `partial_listing` gives it.
///
/// Stream where the header, or a token up to the end token, can't be read; NoMemory.
pub fn listing(alloc: Global, image: &[u8], extras: Extras) -> Result<Vec<u8>, DetokFault>
    ensures ok { IfOk result (λ text. listed extras image.now ≡ Ok text.items) }
    ensures err { IfErr result (λ f. IsRefused (listed extras image.now) f) }
{
    match partial_listing(alloc, image, extras)? {
        (text, None) => Ok(text),
        (_, Some(fault)) => Err(DetokFault::Stream(fault)),
    }
}
