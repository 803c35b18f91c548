ghost use Rattle.std.specs.Prelude.{◌≡◌, false, IfErr, OnOk, OnErr};
ghost use Rattle.std.specs.Io.KnownBytes.{Appends};
ghost use Rattle.of_files.specs.Messages.{AppendsPart, bad_start_text};
ghost use Rattle.of_files.specs.Saying.{Said};
ghost use Rattle.of_files.specs.Faults.{IsUnwritten, is_done, status_of};

use crate::fault::Fault;
use crate::messages::Messages;
use hex::encode_to_slice;
use of_arguments::Status;
use of_calls::ScriptFault;
use of_source::Place;
use std::io::{self, Error, ErrorKind, Write};

/// Writes all bytes, in as many writes as it takes.
///
/// Unwritten where a write fails or takes no byte: what went out is then the first of them.
pub fn write_whole<W: Write>(out: &mut W, bytes: &[u8]) -> Result<(), Fault>
    ensures ok { OnOk result (Appends (W.contents out.old) (W.contents out.new) bytes.now) }
    ensures err { OnErr result (AppendsPart (W.contents out.old) (W.contents out.new) bytes.now) }
    ensures fault { IfErr result IsUnwritten }
{
    let mut gone = 0usize;
    while gone < bytes.len() {
        match out.write(&bytes[gone..]) {
            Ok(0) => return Err(Fault::Unwritten(None)),
            Ok(count) => gone += count,
            Err(error) => return Err(Fault::Unwritten(error.raw_os_error())),
        }
    }
    Ok(())
}

/// The line that is said of an image whose first byte begins none: the byte in two digits.
fn bad_start_text(byte: u8) -> [u8; 23]
    ensures { result ≡ bad_start_text byte }
{
    let mut text = *b"ofw: bad start byte 00\n";
    let _ = encode_to_slice([byte], &mut text[20..22]);
    text
}

/// What the system says of the error of a number; of an error without one that it is another.
fn reason(code: Option<i32>) -> Error {
    match code {
        Some(code) => Error::from_raw_os_error(code),
        None => Error::from(ErrorKind::Other),
    }
}

/// Says that a write failed, unless nobody reads what is written.
fn say_unwritten<E: Write>(code: Option<i32>, errors: &mut E) -> io::Result<()> {
    let reason = reason(code);
    match reason.kind() {
        ErrorKind::BrokenPipe => Ok(()),
        _ => writeln!(errors, "ofw: the output can't be written: {reason}"),
    }
}

/// Whether a byte that is no digit stands as one does in a source: in `fcode-version1` or `fcode-version2`, or where a
/// comment begins.
fn is_of_source(place: Place, byte: u8) -> bool {
    match byte {
        b'o' => place.column == 3,
        b'\\' | b'(' => true,
        _ => false,
    }
}

/// Says which byte of a text is no digit, with its place.
fn say_stray<E: Write>(path: &str, place: Place, byte: u8, errors: &mut E) -> io::Result<()> {
    let Place { line, column } = place;
    if byte.is_ascii_graphic() {
        let digit = char::from(byte);
        writeln!(
            errors,
            "ofw: {path}:{line}:{column}: '{digit}' is no hexadecimal digit"
        )?;
        if is_of_source(place, byte) {
            return writeln!(
                errors,
                "ofw: this looks like a source: `ofw tok` makes its image"
            );
        }
        return Ok(());
    }
    if byte == 0xef && line == 1 && column == 1 {
        return writeln!(
            errors,
            "ofw: {path}:1:1: byte ef, as of a byte order mark, is no hexadecimal digit"
        );
    }
    writeln!(
        errors,
        "ofw: {path}:{line}:{column}: byte {byte:02x} is no hexadecimal digit"
    )
}

/// Says why a script was given up, with its line.
fn say_given_up<E: Write>(path: &str, fault: ScriptFault, errors: &mut E) -> io::Result<()> {
    match fault.line() {
        Some(line) => writeln!(errors, "ofw: {path}:{line}: {fault}"),
        None => writeln!(errors, "ofw: {path}: {fault}"),
    }
}

/// Says what is wrong where that is no start byte: of a file behind its path, of a text with the place.
fn say_other<E: Write>(path: &str, fault: Fault, errors: &mut E) -> io::Result<()> {
    if let Some((Place { line, column }, wrong)) = fault.source_place() {
        return writeln!(errors, "ofw: {path}:{line}:{column}: {wrong}");
    }
    match fault {
        Fault::Unwritten(code) => say_unwritten(code, errors),
        Fault::BadDigit { place, byte } => say_stray(path, place, byte, errors),
        Fault::Unopened(code) | Fault::Unread(code) | Fault::Unkept(code) => {
            let reason = reason(code);
            writeln!(errors, "ofw: {path}: {reason}")
        }
        Fault::GivenUp(fault) => say_given_up(path, fault, errors),
        Fault::ArgumentNotText
        | Fault::NoMemory
        | Fault::TwoOutsides
        | Fault::BadLimit
        | Fault::TwoProducts
        | Fault::TwoListings
        | Fault::NoGuide => { writeln!(errors, "ofw: {fault}") }
        _ => writeln!(errors, "ofw: {path}: {fault}"),
    }
}

/// Says what is wrong, on a line of its own.
fn say<E: Write>(path: &str, fault: Fault, errors: &mut Messages<E>)
    ensures { Said E.contents errors.old errors.new fault }
{
    match fault.bad_start() {
        Some(byte) => errors.say(&bad_start_text(byte)),
        None => {
            let _ = say_other(path, fault, errors);
        }
    }
}

/// Says on the error output what is wrong with the file at a path, or with what was to be done with it,
/// and gives the status that belongs to it.
///
/// Of a bad start byte goes out `ofw: bad start byte`, the byte in two hexadecimal digits and a
/// newline, or the first part of it where a write fails.
#[tactic(auto, using(crate::proofs::Ends::not_done))]
pub fn report<E: Write>(path: &str, fault: Fault, errors: &mut Messages<E>) -> Status
    ensures status { result ≡ status_of fault }
    ensures said { Said E.contents errors.old errors.new fault }
    ensures undone { is_done result ≡ false }
{
    say(path, fault, errors);
    fault.status()
}
