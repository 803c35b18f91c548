// Lines that show findings. Each function that writes puts its text behind what stands there.

ghost use Rattle.std.specs.Prelude.{◌≡◌, ◌++◌, IfOk, OnOk};
ghost use Rattle.std.specs.Fmt.{signed_decimal};
ghost use Rattle.std.specs.String.{string_bytes};
ghost use Rattle.of_fcodes.specs.Lookup.{name_numbered};
ghost use Rattle.of_check.specs.Texts.{fault_shown, finding_line, findings_text, name_or_none, number_shown, sentence};

use crate::finding::Finding;
use of_fcodes::{FCode, name_of};
use of_stream::StreamFault;
use std::alloc::{AllocError, Global};

/// A number in hexadecimal digits, of which there are so many at least.
fn number_shown(alloc: Global, least: usize, number: usize) -> Result<String, AllocError>
    ensures { IfOk result (λ text. string_bytes text ≡ number_shown least number) }
{
    format!(in alloc; "{number:0least$x}")
}

/// Writes a text.
fn write_text(out: &mut Vec<u8>, text: &[u8]) -> Result<(), AllocError>
    ensures { OnOk result (out.new.items ≡ out.old.items ++ text.now) }
{
    out.extend_from_slice(text)
}

/// Writes a title and a number behind it.
#[tactic(auto, using(std::proofs::lemmas::List::append_assoc))]
fn write_titled(
    alloc: Global,
    out: &mut Vec<u8>,
    title: &[u8],
    least: usize,
    number: usize,
) -> Result<(), AllocError>
    ensures { OnOk result (out.new.items ≡ out.old.items ++ (title.now ++ number_shown least number)) }
{
    let digits = number_shown(alloc, least, number)?;
    write_text(out, title)?;
    write_text(out, digits.as_bytes())
}

/// Writes a signed number in decimal digits.
fn write_signed(alloc: Global, out: &mut Vec<u8>, number: i16) -> Result<(), AllocError>
    ensures { OnOk result (out.new.items ≡ out.old.items ++ signed_decimal number) }
{
    let digits = number.to_string(alloc)?;
    write_text(out, digits.as_bytes())
}

/// Writes what is wrong with a header.
fn write_fault(alloc: Global, out: &mut Vec<u8>, fault: StreamFault) -> Result<(), AllocError>
    ensures { OnOk result (out.new.items ≡ out.old.items ++ fault_shown fault) }
{
    match fault {
        StreamFault::BadStart(byte) => {
            write_titled(alloc, out, b"bad start byte ", 2, usize::from(byte))
        }
        StreamFault::Start0 => write_text(out, b"start0 images are not read"),
        StreamFault::Short => write_text(out, b"image shorter than its header"),
        StreamFault::Ended(position) => {
            write_titled(alloc, out, b"image ended in the token at ", 6, position)
        }
    }
}

/// Writes the name of an FCode, if it has one.
fn write_name(out: &mut Vec<u8>, code: FCode) -> Result<(), AllocError>
    ensures { OnOk result (out.new.items ≡ out.old.items ++ name_or_none (name_numbered code.0)) }
{
    match name_of(code) {
        Some(name) => write_text(out, name.as_bytes()),
        None => Ok(()),
    }
}

/// Writes what is found.
#[tactic(auto, using(std::proofs::lemmas::List::append_assoc))]
fn write_sentence(alloc: Global, out: &mut Vec<u8>, finding: Finding) -> Result<(), AllocError>
    ensures { OnOk result (out.new.items ≡ out.old.items ++ sentence finding) }
{
    match finding {
        Finding::Unopened(fault) => write_fault(alloc, out, fault),
        Finding::Sum { said, actual } => {
            write_titled(alloc, out, b"the header says the sum ", 4, said)?;
            write_titled(alloc, out, b", and it is ", 4, actual)
        }
        Finding::Cut { said, actual } => {
            write_titled(alloc, out, b"the header says ", 8, said)?;
            write_titled(alloc, out, b" bytes, and the image is cut at ", 8, actual)
        }
        Finding::Longer { said, more } => {
            write_titled(alloc, out, b"the header says ", 8, said)?;
            write_titled(alloc, out, b" bytes, and ", 8, more)?;
            write_text(out, b" stand behind them")
        }
        Finding::Unread(_) => write_text(out, b"the image ends in this token"),
        Finding::Endless(_) => write_text(out, b"the image ends without end0 or end1"),
        Finding::Outside { code, by, .. } => {
            write_text(out, b"the offset ")?;
            write_signed(alloc, out, by)?;
            write_text(out, b" of ")?;
            write_name(out, code)?;
            write_text(out, b" leads outside")
        }
        Finding::Unnested(_) => { write_text(out, b"the definition of this b(:) has no reading") }
        Finding::Unmade { code, .. } => {
            write_titled(alloc, out, b"", 3, usize::from(code.0))?;
            write_text(out, b" is used before it is made")
        }
    }
}

/// Writes the line of a finding.
#[tactic(auto, unfolding(crate::specs::Texts::finding_line), using(std::proofs::lemmas::List::append_assoc))]
fn write_line(alloc: Global, out: &mut Vec<u8>, finding: Finding) -> Result<(), AllocError>
    ensures { OnOk result (out.new.items ≡ out.old.items ++ finding_line finding) }
{
    write_titled(alloc, out, b"", 6, finding.position())?;
    write_text(out, b": ")?;
    write_sentence(alloc, out, finding)?;
    out.push(b'\n')?;
    Ok(())
}

/// A line for each finding: its position in six hexadecimal digits at least, `: `, and a sentence. So a line is
/// `000008: the offset -16 of bbranch leads outside`.
///
/// An error is for memory alone.
pub fn finding_lines(alloc: Global, found: &[Finding]) -> Result<Vec<u8>, AllocError>
    ensures { IfOk result (λ text. text.items ≡ findings_text found.now) }
{
    let mut out = Vec::new(alloc);
    for finding in found {
        write_line(alloc, &mut out, *finding)?;
    }
    Ok(out)
}
