//! Console lines, from a file.
ghost use Rattle.std.specs.Prelude.{◌≡◌, Ok, IfOk, IfErr, IfSome, OnOk, map};
ghost use Rattle.of_calls.specs.ConsoleLines.{parsed_lines};
ghost use Rattle.of_files.specs.Handed.{FaultsLines, FaultsLinesWith};

use crate::fault::{Fault, no_lines};
use crate::input::read_whole;
use crate::messages::Messages;
use crate::output::report;
use of_arguments::Status;
use of_calls::parse_lines;
use std::alloc::Global;
use std::io::{Read, Write};

/// The console lines of a file.
#[tactic(auto, using(crate::proofs::Replies::lines_read, crate::proofs::Replies::lines_refused))]
fn read_lines<R: Read>(alloc: Global, file: &mut R) -> Result<Vec<Vec<u8>>, Fault>
    ensures ok { IfOk result (λ lines. IfSome (R.remaining file.old) (λ text.
        parsed_lines text ≡ Ok (map (λ l. l.items) lines.items))) }
    ensures err { IfErr result (λ f. IfSome (R.remaining file.old) (λ text. FaultsLines text f)) }
{
    let text = read_whole(alloc, file)?;
    match parse_lines(alloc, &text) {
        Ok(lines) => Ok(lines),
        Err(fault) => Err(no_lines(fault)),
    }
}

/// The console lines of the file at a path, for a run, or the status of the fault that the file has.
///
/// The fault is said on the error output, behind the path: of a line that is too long with line and column.
pub fn lines<R: Read, E: Write>(
    alloc: Global,
    path: &str,
    file: &mut R,
    errors: &mut Messages<E>,
) -> Result<Vec<Vec<u8>>, Status>
    ensures ok { IfOk result (λ lines. IfSome (R.remaining file.old) (λ text.
        parsed_lines text ≡ Ok (map (λ l. l.items) lines.items))) }
    ensures silent { OnOk result (errors.new ≡ errors.old) }
    ensures err { IfErr result (λ s. IfSome (R.remaining file.old) (λ text. FaultsLinesWith text s)) }
{
    match read_lines(alloc, file) {
        Ok(lines) => Ok(lines),
        Err(fault) => Err(report(path, fault, errors)),
    }
}
