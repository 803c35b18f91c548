ghost use Rattle.std.specs.Prelude.{◌≡◌, ◌<◌, ◌≤◌, ◌++◌, ◌∷◌, length, map, IfOk, IfErr, IfSome, Some, None, Ok};
ghost use Rattle.std.specs.Prelude.{if◌then◌else◌, nat_eq};
ghost use Rattle.std.specs.List.{position};
ghost use Rattle.std.specs.Option.{option_map};
ghost use Rattle.std.specs.Str.{str_eq_ignore_ascii_case};
ghost use Rattle.of_detok.specs.Digits.{digit_value, place};
ghost use Rattle.of_detok.specs.Reading.{text_lines, are_spaces, byte_of, paired, line_bytes, meaning, IsUnread};

use crate::fault::DetokFault;
use crate::line::place_of;
use std::alloc::{AllocError, Global};

/// The value of a hexadecimal digit of either case.
#[inline]
fn digit_value(digit: u8) -> Option<u8>
    ensures value { result ≡ digit_value digit }
    ensures small { IfSome result (λ v. v < 16) }
{
    let value = char::from(digit).to_digit(16)?;
    Some(value as u8)
}

/// Whether two texts differ at most in the case of their letters.
fn is_same(a: &[u8], b: &[u8]) -> bool
    ensures { result ≡ str_eq_ignore_ascii_case a.now b.now }
{
    a.eq_ignore_ascii_case(b)
}

/// Whether both bytes are spaces.
#[inline]
fn are_spaces(a: u8, b: u8) -> bool
    ensures { result ≡ are_spaces a b }
{
    a == b' ' && b == b' '
}

/// The byte that two digits say.
#[inline]
fn byte_of(high: u8, low: u8) -> Option<u8>
    ensures { result ≡ byte_of (digit_value high) (digit_value low) }
{
    let high = digit_value(high)?;
    let low = digit_value(low)?;
    Some(high * 16 + low)
}

/// Appends the bytes of pairs of digits up to two spaces, and says whether two spaces end them.
fn read_pairs(out: &mut Vec<u8>, mut text: &[u8]) -> Result<bool, AllocError>
    ensures { IfOk result (λ ended. option_map (λ bytes. out.old.items ++ bytes) (paired text.entry.now)
        ≡ (if ended then Some out.new.items else None)) }
{
    while let [a, b, rest @ ..] = text {
        if are_spaces(*a, *b) {
            return Ok(true);
        }
        let Some(byte) = byte_of(*a, *b) else {
            return Ok(false);
        };
        out.push(byte)?;
        text = rest;
    }
    Ok(false)
}

/// Appends the bytes on a line, and says whether it is a line of a listing.
#[tactic(auto, unfolding(crate::specs::Reading::line_bytes), using(crate::proofs::Loops::some_or_none))]
fn read_line(image: &mut Vec<u8>, line: &[u8]) -> Result<bool, AllocError>
    ensures { IfOk result (λ is_line. option_map (λ bytes. image.old.items ++ bytes)
        (line_bytes (length image.old.items) line.now) ≡ (if is_line then Some image.new.items else None)) }
{
    let before = image.len();
    let (head, digits) = line.split_at(line.len().min(8));
    if !is_same(head, &place_of(before)) {
        return Ok(false);
    }
    if !read_pairs(image, digits)? {
        return Ok(false);
    }
    Ok(before < image.len())
}

/// Where the first newline stands.
fn newline_in(text: &[u8]) -> Option<usize>
    ensures { result ≡ position (λ byte. nat_eq byte 10) text.now }
{
    text.iter().position(|byte| *byte == b'\n')
}

/// The first line of a text that isn't empty, and what stands behind its newline.
#[tactic(auto, using(crate::proofs::Loops::line_open))]
fn first_line(text: &[u8]) -> (&[u8], &[u8])
    requires { 0 < length text.now }
    ensures lines { text_lines text.now ≡ result.0.now ∷ text_lines result.1.now }
    ensures shorter { length result.1.now < length text.now }
{
    match newline_in(text) {
        Some(end) => (&text[..end], &text[end + 1..]),
        None => (text, &[]),
    }
}

/// The image that a listing means: the bytes on its lines, joined.
///
/// A line has six hexadecimal digits, which say how many bytes stand before it (modulo 2^24),
/// `: `, an even positive number of hexadecimal digits, and two spaces; what follows isn't read.
/// Digits may have either case. Lines end at 0x0A; a last piece without it is a line too.
///
/// BadLine with the number, from 1, of the first line that is none; NoMemory.
#[tactic(auto, using(crate::proofs::Loops::no_lines))]
pub fn read_listing(alloc: Global, text: &[u8]) -> Result<Vec<u8>, DetokFault>
    ensures ok { IfOk result (λ image. meaning text.now ≡ Ok image.items) }
    ensures err { IfErr result (λ f. IsUnread (meaning text.now) f) }
{
    let mut image = Vec::new(alloc);
    let mut rest = text;
    let mut number = 1usize;
    while !rest.is_empty() {
        let (line, behind) = first_line(rest);
        if !read_line(&mut image, line)? {
            return Err(DetokFault::BadLine(number));
        }
        rest = behind;
        number += 1;
    }
    Ok(image)
}
