//! The commands of a debugger's script, from a file.
ghost use Rattle.std.specs.Prelude.{◌≡◌, Ok, IfOk, IfErr, IfSome, OnOk, map};
ghost use Rattle.of_calls.specs.Scripts.{command_of, parsed_script};
ghost use Rattle.of_files.specs.Handed.{FaultsScript, FaultsScriptWith};

use crate::fault::{Fault, no_script};
use crate::input::read_whole;
use crate::messages::Messages;
use crate::output::report;
use of_arguments::Status;
use of_calls::{ScriptCommand, parse_script};
use std::alloc::Global;
use std::io::{Read, Write};

/// The commands of a file.
#[tactic(auto, using(crate::proofs::Replies::script_read, crate::proofs::Replies::script_refused))]
fn read_script<R: Read>(alloc: Global, file: &mut R) -> Result<Vec<ScriptCommand>, Fault>
    ensures ok { IfOk result (λ commands. IfSome (R.remaining file.old) (λ text.
        parsed_script text ≡ Ok (map command_of commands.items))) }
    ensures err { IfErr result (λ f. IfSome (R.remaining file.old) (λ text. FaultsScript text f)) }
{
    let text = read_whole(alloc, file)?;
    match parse_script(alloc, &text) {
        Ok(commands) => Ok(commands),
        Err(fault) => Err(no_script(fault)),
    }
}

/// The commands of the file at a path, for a debugger, or the status of the fault that the file has.
///
/// The fault is said on the error output, behind the path: of a text that is no script with line and column.
pub fn script<R: Read, E: Write>(
    alloc: Global,
    path: &str,
    file: &mut R,
    errors: &mut Messages<E>,
) -> Result<Vec<ScriptCommand>, Status>
    ensures ok { IfOk result (λ commands. IfSome (R.remaining file.old) (λ text.
        parsed_script text ≡ Ok (map command_of commands.items))) }
    ensures silent { OnOk result (errors.new ≡ errors.old) }
    ensures err { IfErr result (λ s. IfSome (R.remaining file.old) (λ text. FaultsScriptWith text s)) }
{
    match read_script(alloc, file) {
        Ok(commands) => Ok(commands),
        Err(fault) => Err(report(path, fault, errors)),
    }
}
