//! `check`: what is wrong with an image.
ghost use Rattle.std.specs.Prelude.{◌≡◌, true, IfSome};
ghost use Rattle.of_files.specs.Faults.{EndsWith, is_done};
ghost use Rattle.of_files.specs.Saying.{Said};
ghost use Rattle.of_inspect.specs.Looks.{Checks, ChecksImage, look_status};

use of_arguments::Status;
use of_check::{Finding, finding_lines, findings};
use of_files::{Fault, Messages, read_image, report, write_whole};
use std::alloc::Global;
use std::io::{Read, Write};

/// The status of a look at an image.
fn look_status(found: &[Finding]) -> Status
    ensures { result ≡ look_status found.now }
{
    match found {
        [] => Status::Done,
        [_, ..] => Status::Fault,
    }
}

/// Prints a line for each thing that is wrong with an image.
#[tactic(auto, using(crate::proofs::Looked::looked, crate::proofs::Looked::not_looked))]
fn check_image<W: Write>(alloc: Global, image: &[u8], out: &mut W) -> Result<Status, Fault>
    ensures { ChecksImage image.now (W.contents out.old) (W.contents out.new) result }
{
    let Ok(found) = findings(alloc, image) else {
        return Err(Fault::NoMemory);
    };
    let Ok(text) = finding_lines(alloc, &found) else {
        return Err(Fault::NoMemory);
    };
    match write_whole(out, &text) {
        Ok(()) => Ok(look_status(&found)),
        Err(fault) => Err(fault),
    }
}

/// The same of the image of a file.
#[tactic(auto, using(crate::proofs::Looked::file_looked, crate::proofs::Looked::file_unread))]
fn check_file<R: Read, W: Write>(alloc: Global, file: &mut R, out: &mut W) -> Result<Status, Fault>
    ensures { IfSome (R.remaining file.old) (λ bytes.
        Checks bytes (W.contents out.old) (W.contents out.new) result) }
{
    match read_image(alloc, file) {
        Ok(image) => check_image(alloc, &image, out),
        Err(fault) => Err(fault),
    }
}

/// Looks the image of a file over, without running it, prints a line for each thing that is wrong with it, and gives
/// the status: done where there is none, and else that of a fault.
///
/// The file is read as for `run`. What is wrong with the file is said on the error output, behind its path.
#[tactic(auto, using(crate::proofs::Looked::ended, crate::proofs::Looked::not_ended))]
pub fn check<R: Read, W: Write, E: Write>(
    alloc: Global,
    path: &str,
    file: &mut R,
    out: &mut W,
    errors: &mut Messages<E>,
) -> Status
    ensures answered { IfSome (R.remaining file.old) (λ bytes. EndsWith
        (Checks bytes (W.contents out.old) (W.contents out.new)) (Said E.contents errors.old errors.new) result) }
    ensures silent { is_done result ≡ true → errors.new ≡ errors.old }
{
    match check_file(alloc, file, out) {
        Ok(status) => status,
        Err(fault) => report(path, fault, errors),
    }
}
