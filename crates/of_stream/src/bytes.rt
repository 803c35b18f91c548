// The bytes of a token. Each function that appends puts its bytes behind what stands there, and
// leaves nothing behind where the growth is refused.

ghost use Rattle.std.specs.Prelude.{◌≡◌, ◌↔◌, ◌<◌, ◌-◌, ◌^◌, ◌++◌, length, IsTrue, OnOk, OnErr, true};
ghost use Rattle.of_stream.specs.Decoding.{argument_shown, token_shown};
ghost use Rattle.of_stream.specs.Bytes.{argument_bytes, cell_bytes, code_bytes, counted_bytes, offset_bytes};
ghost use Rattle.of_stream.specs.Bytes.{token_bytes};
ghost use Rattle.of_stream.specs.Bytes.{IsEncodable, fits, is_code, is_offset, operand_for};

use crate::stream::OffsetSize;
use crate::token::{Argument, Token};
use of_cells::Cell;
use of_fcodes::{FCode, Operand, operand_of};
use std::alloc::AllocError;

/// Whether a number is an FCode.
#[inline]
fn is_code(code: FCode) -> bool
    ensures { result ≡ is_code code.0 }
{
    code.0 == 0 || (code.0 > 0x00f && code.0 < 0x1000)
}

/// Whether an offset has bytes.
#[inline]
fn is_offset(size: OffsetSize, by: i16) -> bool
    ensures { result ≡ is_offset size by }
{
    match size {
        OffsetSize::One => by >= -0x80 && by < 0x80,
        OffsetSize::Two => true,
    }
}

/// Whether an argument has bytes.
fn fits(size: OffsetSize, argument: &Argument<'_>) -> bool
    ensures { result ≡ fits size (argument_shown argument.now) }
{
    match argument {
        Argument::Nothing | Argument::Literal(_) => true,
        Argument::String(text) => text.len() < 256,
        Argument::FCode(code) => is_code(*code),
        Argument::Named(name, code) => name.len() < 256 && is_code(*code),
        Argument::Offset(by) => is_offset(size, *by),
    }
}

/// The operand that an argument is.
fn operand_for(argument: &Argument<'_>) -> Operand
    ensures { result ≡ operand_for (argument_shown argument.now) }
{
    match argument {
        Argument::Nothing => Operand::Nothing,
        Argument::Literal(_) => Operand::Literal,
        Argument::String(_) => Operand::String,
        Argument::FCode(_) => Operand::FCode,
        Argument::Named(_, _) => Operand::Named,
        Argument::Offset(_) => Operand::Offset,
    }
}

/// How many bytes an FCode has.
#[inline]
fn code_length(code: FCode) -> usize
    ensures length { result ≡ length (code_bytes code) }
    ensures few { result < 3 }
{
    if code.0 < 0x100 { 1 } else { 2 }
}

/// How many bytes stand behind an FCode.
fn argument_length(size: OffsetSize, argument: &Argument<'_>) -> usize
    ensures length { result ≡ length (argument_bytes size (argument_shown argument.now)) }
    ensures fits { result < 2 ^ 64 - 2 }
{
    match argument {
        Argument::Nothing => 0,
        Argument::Literal(_) => 4,
        Argument::String(text) => 1 + text.len(),
        Argument::FCode(code) => code_length(*code),
        Argument::Named(name, code) => 1 + name.len() + code_length(*code),
        Argument::Offset(_) => size.bytes(),
    }
}

/// Appends an FCode.
fn put_code(out: &mut Vec<u8>, code: FCode) -> Result<(), AllocError>
    requires { is_code code.0 ≡ true }
    ensures ok { OnOk result (out.new.items ≡ out.old.items ++ code_bytes code) }
    ensures err { OnErr result (out.new.items ≡ out.old.items) }
{
    if code.0 < 0x100 {
        return out.extend_from_slice(&[code.0 as u8]);
    }
    out.extend_from_slice(&[(code.0 / 0x100) as u8, (code.0 % 0x100) as u8])
}

/// Appends a cell.
fn put_cell(out: &mut Vec<u8>, x: Cell) -> Result<(), AllocError>
    ensures ok { OnOk result (out.new.items ≡ out.old.items ++ cell_bytes x) }
    ensures err { OnErr result (out.new.items ≡ out.old.items) }
{
    out.extend_from_slice(&[
        (x.0 / 0x100_0000) as u8,
        (x.0 / 0x1_0000 % 0x100) as u8,
        (x.0 / 0x100 % 0x100) as u8,
        (x.0 % 0x100) as u8,
    ])
}

/// Appends a string behind its length.
#[tactic(auto, using(crate::proofs::Undoing::undoing))]
fn put_text(out: &mut Vec<u8>, text: &[u8]) -> Result<(), AllocError>
    requires { length text.now < 256 }
    ensures ok { OnOk result (out.new.items ≡ out.old.items ++ counted_bytes text.now) }
    ensures err { OnErr result (out.new.items ≡ out.old.items) }
{
    let before = out.len();
    out.extend_from_slice(&[text.len() as u8])?;
    let done = out.extend_from_slice(text);
    if done.is_err() {
        out.truncate(before);
    }
    done
}

/// Appends a name and an FCode.
#[tactic(auto, using(crate::proofs::Undoing::undoing))]
fn put_named(out: &mut Vec<u8>, name: &[u8], code: FCode) -> Result<(), AllocError>
    requires name { length name.now < 256 }
    requires code { is_code code.0 ≡ true }
    ensures ok { OnOk result (out.new.items ≡ out.old.items ++ counted_bytes name.now ++ code_bytes code) }
    ensures err { OnErr result (out.new.items ≡ out.old.items) }
{
    let before = out.len();
    put_text(out, name)?;
    let done = put_code(out, code);
    if done.is_err() {
        out.truncate(before);
    }
    done
}

/// Appends an offset.
fn put_offset(out: &mut Vec<u8>, size: OffsetSize, by: i16) -> Result<(), AllocError>
    requires { is_offset size by ≡ true }
    ensures ok { OnOk result (out.new.items ≡ out.old.items ++ offset_bytes size by) }
    ensures err { OnErr result (out.new.items ≡ out.old.items) }
{
    match size {
        OffsetSize::One => out.extend_from_slice(&[(by as i8).cast_unsigned()]),
        OffsetSize::Two => {
            let bits = by.cast_unsigned();
            out.extend_from_slice(&[(bits / 0x100) as u8, (bits % 0x100) as u8])
        }
    }
}

/// Appends what stands behind an FCode.
fn put_argument(
    out: &mut Vec<u8>,
    size: OffsetSize,
    argument: Argument<'_>,
) -> Result<(), AllocError>
    requires { fits size (argument_shown argument) ≡ true }
    ensures ok { OnOk result (out.new.items ≡ out.old.items ++ argument_bytes size (argument_shown argument.entry)) }
    ensures err { OnErr result (out.new.items ≡ out.old.items) }
{
    match argument {
        Argument::Nothing => Ok(()),
        Argument::Literal(x) => put_cell(out, x),
        Argument::String(text) => put_text(out, text),
        Argument::FCode(code) => put_code(out, code),
        Argument::Named(name, code) => put_named(out, name, code),
        Argument::Offset(by) => put_offset(out, size, by),
    }
}

impl Token<'_> {
    /// Whether the token has bytes: its FCode is 0x000 or 0x010 to 0xFFF, its argument is what
    /// stands behind that FCode, strings have up to 255 bytes, and an offset fits its size.
    pub fn is_encodable(&self, size: OffsetSize) -> bool
        ensures { IsTrue result ↔ IsEncodable size (token_shown self.now) }
    {
        is_code(self.code)
            && operand_for(&self.argument) == operand_of(self.code)
            && fits(size, &self.argument)
    }

    /// How many bytes the token has in an image.
    #[tactic(auto, unfolding(crate::specs::Bytes::token_bytes))]
    pub fn length(&self, size: OffsetSize) -> usize
        ensures { result ≡ length (token_bytes size (token_shown self.now)) }
    {
        code_length(self.code) + argument_length(size, &self.argument)
    }

    /// Appends the bytes of the token.
    ///
    /// A refused growth leaves what stood there.
    #[tactic(auto, unfolding(crate::specs::Bytes::token_bytes), using(crate::proofs::Undoing::undoing))]
    pub fn put(&self, size: OffsetSize, out: &mut Vec<u8>) -> Result<(), AllocError>
        requires { IsEncodable size (token_shown self.now) }
        ensures ok { OnOk result (out.new.items ≡ out.old.items ++ token_bytes size (token_shown self.now)) }
        ensures err { OnErr result (out.new.items ≡ out.old.items) }
    {
        let before = out.len();
        put_code(out, self.code)?;
        let done = put_argument(out, size, self.argument);
        if done.is_err() {
            out.truncate(before);
        }
        done
    }
}
