// What is said behind the bytes of a line. Each function that writes puts its text behind what
// stands there.

ghost use Rattle.std.specs.Prelude.{◌≡◌, ◌<◌, ◌≤◌, ◌+◌, ◌*◌, ◌^◌, ◌++◌, codes, length, map, replicate, OnOk};
ghost use Rattle.std.specs.Prelude.{slice_index};
ghost use Rattle.std.specs.Option.{option_map};
ghost use Rattle.of_detok.specs.Labels.{name, shown, quoted, wrapped, operands, token_label, start_name};
ghost use Rattle.of_detok.specs.Labels.{actual_sum, said_sum, said_length, unless_said, header_label};
ghost use Rattle.of_detok.specs.Notes.{indent, noted_label, said_name};
ghost use Rattle.of_detok.specs.Digits.{digits};
ghost use Rattle.of_stream.specs.Decoding.{argument_shown, token_shown};
ghost use Rattle.of_stream.specs.Image.{header_length};
ghost use Rattle.of_stream.specs.Targets.{target};

use crate::line::write_digits;
use crate::notes::{Nest, Notes, nest_of};
use of_fcodes::{FCode, name_of};
use of_stream::{Argument, HEADER_LENGTH, Token, target_at};
use std::alloc::AllocError;

/// Writes an FCode in three digits.
fn write_code(out: &mut Vec<u8>, code: FCode) -> Result<(), AllocError>
    ensures { OnOk result (out.new.items ≡ out.old.items ++ digits 3 code.0) }
{
    write_digits(out, 3, usize::from(code.0))
}

/// Writes the name of an FCode, and of one that isn't listed its number.
#[tactic(auto, unfolding(crate::specs::Labels::name), using(std::proofs::lemmas::List::append_assoc))]
fn write_name(out: &mut Vec<u8>, code: FCode) -> Result<(), AllocError>
    ensures { OnOk result (out.new.items ≡ out.old.items ++ name code.0) }
{
    match name_of(code) {
        Some(name) => out.extend_from_slice(name.as_bytes()),
        None => {
            out.extend_from_slice(b"fcode-")?;
            write_code(out, code)
        }
    }
}

/// A byte as it is shown in a string: `.` unless it can be printed.
#[inline]
fn shown(byte: u8) -> u8
    ensures { result ≡ shown byte }
{
    match byte {
        0x20..=0x7e => byte,
        _ => b'.',
    }
}

/// Writes a string in quotes.
#[tactic(auto, unfolding(crate::specs::Labels::quoted), using(std::proofs::lemmas::List::append_assoc))]
fn write_quoted(out: &mut Vec<u8>, text: &[u8]) -> Result<(), AllocError>
    ensures { OnOk result (out.new.items ≡ out.old.items ++ quoted text.now) }
{
    out.push(b'"')?;
    write_shown(out, text)?;
    out.push(b'"')?;
    Ok(())
}

/// Writes the bytes of a string.
fn write_shown(out: &mut Vec<u8>, text: &[u8]) -> Result<(), AllocError>
    ensures { OnOk result (out.new.items ≡ out.old.items ++ map shown text.now) }
{
    for byte in text {
        out.push(shown(*byte))?;
    }
    Ok(())
}

/// Where the offset of the token at a position leads, modulo 2^24.
fn target_shown(position: usize, by: i16) -> usize
    requires { position < 2 ^ 63 }
    ensures { result ≡ wrapped (target position by) }
{
    match target_at(position, by) {
        Some(target) => target % 0x100_0000,
        None => 0xff_ffff - (usize::from(by.unsigned_abs()) - position - 2) % 0x100_0000,
    }
}

/// Writes the operands of the token at a position, each behind a space.
#[tactic(auto, unfolding(crate::specs::Labels::operands), using(std::proofs::lemmas::List::append_assoc))]
fn write_operands(
    out: &mut Vec<u8>,
    position: usize,
    argument: Argument<'_>,
) -> Result<(), AllocError>
    requires { position < 2 ^ 63 }
    ensures { OnOk result (out.new.items ≡ out.old.items ++ operands position (argument_shown argument.entry)) }
{
    match argument {
        Argument::Nothing => Ok(()),
        Argument::Literal(x) => {
            out.push(b' ')?;
            write_digits(out, 8, x.0 as usize)
        }
        Argument::String(text) => {
            out.push(b' ')?;
            write_quoted(out, text)
        }
        Argument::FCode(code) => {
            out.push(b' ')?;
            write_code(out, code)
        }
        Argument::Named(name, code) => {
            out.push(b' ')?;
            write_quoted(out, name)?;
            out.push(b' ')?;
            write_code(out, code)
        }
        Argument::Offset(by) => {
            out.extend_from_slice(b" -> ")?;
            write_digits(out, 6, target_shown(position, by))
        }
    }
}

/// Writes the name and the operands of the token at a position.
#[tactic(auto, using(std::proofs::lemmas::List::append_assoc))]
fn write_token(out: &mut Vec<u8>, position: usize, token: Token<'_>) -> Result<(), AllocError>
    requires { position < 2 ^ 63 }
    ensures { OnOk result (out.new.items ≡ out.old.items ++ token_label position (token_shown token.entry)) }
{
    write_name(out, token.code)?;
    write_operands(out, position, token.argument)
}

/// Writes two spaces for each structure.
fn write_spaces(out: &mut Vec<u8>, depth: usize) -> Result<(), AllocError>
    ensures { OnOk result (out.new.items ≡ out.old.items ++ replicate (2 * depth) 0x20) }
{
    for _ in 0..depth {
        out.extend_from_slice(b"  ")?;
    }
    Ok(())
}

/// Writes the spaces before the name of a token.
fn write_indent(out: &mut Vec<u8>, nest: Nest, depth: Option<usize>) -> Result<(), AllocError>
    ensures { OnOk result (out.new.items ≡ out.old.items ++ indent nest depth) }
{
    match depth {
        Some(depth) => write_spaces(out, nest.depth_at(depth)),
        None => Ok(()),
    }
}

/// Writes the name that a token's FCode was given, if it was given one.
#[tactic(auto, using(std::proofs::lemmas::List::append_assoc))]
fn write_said(out: &mut Vec<u8>, name: Option<&[u8]>) -> Result<(), AllocError>
    ensures { OnOk result (out.new.items ≡ out.old.items ++ said_name (option_map (λ text. text.now) name.entry)) }
{
    match name {
        Some(name) => {
            out.push(b' ')?;
            write_shown(out, name)
        }
        None => Ok(()),
    }
}

/// Writes the label of the token at a position, indented, with the name that it was given.
#[tactic(auto, using(std::proofs::lemmas::List::append_assoc))]
pub fn write_noted(
    out: &mut Vec<u8>,
    notes: &Notes<'_>,
    position: usize,
    token: Token<'_>,
) -> Result<(), AllocError>
    requires { position < 2 ^ 63 }
    ensures { OnOk result (out.new.items ≡ out.old.items ++ noted_label notes.now position (token_shown token.entry)) }
{
    write_indent(out, nest_of(token), notes.depth())?;
    write_token(out, position, token)?;
    write_said(out, notes.name_of(token))
}

/// The word that a start byte stands for.
fn start_name(start: u8) -> &'static [u8]
    ensures { result.now ≡ start_name start }
{
    match start {
        0xf1 => b"start1",
        0xf2 => b"start2",
        0xf3 => b"start4",
        _ => b"version1",
    }
}

/// The low sixteen bits of the sum of the bytes behind the header.
#[tactic(auto, unfolding(crate::specs::Labels::actual_sum))]
fn actual_sum(image: &[u8]) -> usize
    requires { header_length ≤ length image.now }
    ensures { result ≡ actual_sum image.now }
{
    let mut sum = 0;
    for byte in &image[HEADER_LENGTH..] {
        sum = (sum + usize::from(*byte)) % 0x1_0000;
    }
    sum
}

/// The checksum that a header says.
fn said_sum(image: &[u8]) -> usize
    requires { header_length ≤ length image.now }
    ensures { result ≡ said_sum image.now }
{
    usize::from(image[2]) * 0x100 + usize::from(image[3])
}

/// The length that a header says.
fn said_length(image: &[u8]) -> usize
    requires { header_length ≤ length image.now }
    ensures { result ≡ said_length image.now }
{
    let high = usize::from(image[4]) * 0x100 + usize::from(image[5]);
    (high * 0x100 + usize::from(image[6])) * 0x100 + usize::from(image[7])
}

/// Writes a number under a title where the header says another.
#[tactic(auto, using(std::proofs::lemmas::List::append_assoc))]
fn write_unless_said(
    out: &mut Vec<u8>,
    title: &[u8],
    count: usize,
    said: usize,
    actual: usize,
) -> Result<(), AllocError>
    ensures { OnOk result (out.new.items ≡ out.old.items ++ unless_said title.now count said actual) }
{
    if said == actual {
        return Ok(());
    }
    out.extend_from_slice(title)?;
    write_digits(out, count, actual)?;
    out.push(b')')?;
    Ok(())
}

/// Writes the start word, and the checksum and the length where the header says others.
#[tactic(auto, unfolding(crate::specs::Labels::header_label), using(std::proofs::lemmas::List::append_assoc))]
pub fn write_header(out: &mut Vec<u8>, image: &[u8]) -> Result<(), AllocError>
    requires { header_length ≤ length image.now }
    ensures { OnOk result (out.new.items ≡ out.old.items ++ header_label image.now) }
{
    out.extend_from_slice(start_name(image[0]))?;
    write_unless_said(out, b" (sum ", 4, said_sum(image), actual_sum(image))?;
    write_unless_said(out, b" (bytes ", 8, said_length(image), image.len())
}
