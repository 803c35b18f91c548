//! `tok`: the images of sources.
ghost use Rattle.std.specs.Prelude.{◌≡◌, false, true, IfOk, IfErr, IfSome, OnOk};
ghost use Rattle.std.specs.Io.KnownBytes.{Appends};
ghost use Rattle.std.specs.String.{string_bytes};
ghost use Rattle.of_files.specs.Faults.{EndsWith, IsUnwritten, is_done, status_of};
ghost use Rattle.of_files.specs.Messages.{AppendsPart};
ghost use Rattle.of_files.specs.Saying.{Said};
ghost use Rattle.of_files.specs.Sources.{FaultsSource, FaultsWith, HasImage, Tokenizes, TokenizesFile, Writes};

use crate::fault::{Fault, no_image, no_source};
use crate::input::read_whole;
use crate::messages::Messages;
use crate::output::{report, write_whole};
use crate::reasons::say_wrong;
use hex::encode;
use of_arguments::Status;
use of_source::parse;
use of_tok::tokenize;
use std::alloc::Global;
use std::io::{Read, Write};

/// The image of a source.
fn image_of(alloc: Global, text: &[u8]) -> Result<Vec<u8>, Fault>
    ensures ok { IfOk result (λ image. HasImage text.now image.items) }
    ensures err { IfErr result (λ f. FaultsSource text.now f) }
{
    let source = match parse(alloc, text) {
        Ok(source) => source,
        Err(fault) => return Err(no_source(text, fault)),
    };
    match tokenize(alloc, &source) {
        Ok(image) => Ok(image),
        Err(fault) => Err(no_image(text, fault)),
    }
}

/// The image of a source, in hexadecimal digits and a newline.
fn tokenize_text(alloc: Global, text: &[u8]) -> Result<String, Fault>
    ensures ok { IfOk result (λ digits. TokenizesFile text.now (string_bytes digits)) }
    ensures err { IfErr result (λ f. FaultsSource text.now f) }
{
    let image = image_of(alloc, text)?;
    let Ok(mut digits) = encode(alloc, image.as_slice()) else {
        return Err(Fault::NoMemory);
    };
    match digits.push('\n') {
        Ok(()) => Ok(digits),
        Err(_) => Err(Fault::NoMemory),
    }
}

/// Says a fault of the file of a text, and where it is one of a word of a source, the word's line and what is wrong
/// there; gives the status that belongs to it.
pub(crate) fn report_in<E: Write>(
    alloc: Global,
    path: &str,
    text: &[u8],
    fault: Fault,
    errors: &mut Messages<E>,
) -> Status
    ensures status { result ≡ status_of fault }
    ensures said { Said E.contents errors.old errors.new fault }
    ensures undone { is_done result ≡ false }
{
    let status = report(path, fault, errors);
    if let Fault::NoSource { fault, .. } = fault {
        say_wrong(alloc, text, fault, errors);
    }
    status
}

/// The image of the source of a file, to be written elsewhere, or the status of the fault that it has.
///
/// The fault is said on the error output, as by `tok`.
#[tactic(auto, using(crate::proofs::Texts::image_unread, crate::proofs::Texts::image_refused))]
pub fn image<R: Read, E: Write>(
    alloc: Global,
    path: &str,
    file: &mut R,
    errors: &mut Messages<E>,
) -> Result<Vec<u8>, Status>
    ensures ok { IfOk result (λ image. IfSome (R.remaining file.old) (λ bytes. HasImage bytes image.items)) }
    ensures silent { OnOk result (errors.new ≡ errors.old) }
    ensures err { IfErr result (λ s. IfSome (R.remaining file.old) (λ bytes. FaultsWith bytes s)) }
{
    let text = match read_whole(alloc, file) {
        Ok(text) => text,
        Err(fault) => return Err(report(path, fault, errors)),
    };
    match image_of(alloc, &text) {
        Ok(image) => Ok(image),
        Err(fault) => Err(report_in(alloc, path, &text, fault, errors)),
    }
}

/// The fault of a write to the file at a path, or to an output without one.
fn unkept(path: &str, fault: Fault) -> Fault
    ensures { status_of result ≡ status_of fault }
{
    match fault {
        Fault::Unwritten(code) if !path.is_empty() => Fault::Unkept(code),
        _ => fault,
    }
}

/// Writes an image to the file at a path, or to an output without one, and gives the status; a fault is said on the
/// error output.
pub fn keep<W: Write, E: Write>(
    path: &str,
    image: &[u8],
    out: &mut W,
    errors: &mut Messages<E>,
) -> Status
    ensures written { Writes image.now (W.contents out.old) (W.contents out.new) result }
    ensures silent { result ≡ Status.Done → errors.new ≡ errors.old }
{
    match write_whole(out, image) {
        Ok(()) => Status::Done,
        Err(fault) => report(path, unkept(path, fault), errors),
    }
}

/// Prints the image of a source.
fn print_digits<W: Write>(digits: &str, out: &mut W) -> Result<Status, Fault>
    ensures ok { IfOk result (λ s. (s ≡ Status.Done) × Appends (W.contents out.old) (W.contents out.new) digits.now) }
    ensures err { IfErr result (λ f. AppendsPart (W.contents out.old) (W.contents out.new) digits.now
        × IsUnwritten f) }
{
    write_whole(out, digits.as_bytes())?;
    Ok(Status::Done)
}

/// Prints the image of a source, in hexadecimal digits and a newline.
#[tactic(auto, using(crate::proofs::Texts::source_given_up))]
fn print_image<W: Write>(alloc: Global, text: &[u8], out: &mut W) -> Result<Status, Fault>
    ensures { Tokenizes text.now (W.contents out.old) (W.contents out.new) result }
{
    match tokenize_text(alloc, text) {
        Ok(digits) => print_digits(&digits, out),
        Err(fault) => Err(fault),
    }
}

/// Prints the image of the source of a file, in hexadecimal digits and a newline, and gives the status.
///
/// A fault is said on the error output, behind the path; of a word that fits nowhere the line is shown, too, and what
/// is wrong there.
#[tactic(auto, using(crate::proofs::Texts::source_unread, crate::proofs::Texts::source_ended))]
pub fn tok<R: Read, W: Write, E: Write>(
    alloc: Global,
    path: &str,
    file: &mut R,
    out: &mut W,
    errors: &mut Messages<E>,
) -> Status
    ensures answered { IfSome (R.remaining file.old) (λ bytes. EndsWith
        (Tokenizes bytes (W.contents out.old) (W.contents out.new)) (Said E.contents errors.old errors.new) result) }
    ensures silent { is_done result ≡ true → errors.new ≡ errors.old }
{
    let text = match read_whole(alloc, file) {
        Ok(text) => text,
        Err(fault) => return report(path, fault, errors),
    };
    match print_image(alloc, &text, out) {
        Ok(status) => status,
        Err(fault) => report_in(alloc, path, &text, fault, errors),
    }
}
