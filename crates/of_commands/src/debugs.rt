//! `debug`: an image runs under the commands of a script.
ghost use Rattle.std.specs.Prelude.{◌≡◌, Ok, IfOk, IfErr};
ghost use Rattle.std.specs.Io.KnownBytes.{Appends};
ghost use Rattle.of_commands.specs.Debugs.{AnswersDebugging, PrintsStates};
ghost use Rattle.of_files.specs.Faults.{given_up};
ghost use Rattle.of_commands.specs.Debugs.{debugging_of};
ghost use Rattle.of_files.specs.Messages.{AppendsPart};
ghost use Rattle.of_files.specs.Saying.{Said};
ghost use Rattle.of_files.specs.Faults.{IsUnwritten};

use of_arguments::Status;
use of_asking::Answer;
use of_calls::{ScriptCommand, ScriptFault};
use of_files::{Fault, Messages, given_up, refused, report, write_whole};
use of_script::{Played, debug_image};
use std::alloc::Global;
use std::io::Write;

/// What `debug` was asked for.
#[derive(Clone, Copy)]
pub struct DebugRun<'a> {
    /// The path of the image, for what is wrong with it.
    pub path: &'a str,
    /// The image.
    pub image: &'a [u8],
    /// The console lines that are read behind it.
    pub lines: &'a [Vec<u8>],
    /// What is answered, in order.
    pub answers: &'a [Answer],
    /// How many steps are made at most.
    pub limit: u64,
    /// The path of the script, for what is wrong with it.
    pub script: &'a str,
    /// The commands of the script.
    pub commands: &'a [ScriptCommand],
}

/// Prints what was printed under a script, and answers why the script was given up, if it was.
fn print_played<W: Write>(played: &Played, out: &mut W) -> Result<Option<ScriptFault>, Fault>
    ensures ok { IfOk result (λ wrong. (wrong ≡ played.now.wrong)
        × Appends (W.contents out.old) (W.contents out.new) played.now.text.items) }
    ensures err { IfErr result (λ f. AppendsPart (W.contents out.old) (W.contents out.new) played.now.text.items
        × IsUnwritten f) }
{
    write_whole(out, &played.text)?;
    Ok(played.wrong)
}

/// Runs the image under the script, and prints the states that are shown.
fn print_states<W: Write>(alloc: Global, asked: DebugRun<'_>, out: &mut W) -> Result<Status, Fault>
    ensures { PrintsStates (debugging_of asked.entry) (W.contents out.old) (W.contents out.new) result }
{
    match debug_image(
        alloc,
        asked.image,
        asked.lines,
        asked.answers,
        asked.limit,
        asked.commands,
    ) {
        Ok(played) => match print_played(&played, out) {
            Ok(None) => Ok(Status::Done),
            Ok(Some(wrong)) => Err(given_up(wrong)),
            Err(fault) => Err(fault),
        },
        Err(refusal) => Err(refused(asked.image.len(), refusal)),
    }
}

/// Runs an image under the commands of a script, and prints a line for each state that `in`, `over`, `out` or `go`
/// leads to: `@`, how many steps were made, and the data stack, the bottom first. Behind a whole script the console
/// bytes are printed.
///
/// The status is that of a run that is done. With a command that can't be carried out what was printed before stays,
/// and the console bytes aren't printed. What is wrong is said on the error output, behind the path of the file that it
/// is in, of a command with its line. Else nothing is said.
pub fn debug<W: Write, E: Write>(
    alloc: Global,
    asked: DebugRun<'_>,
    out: &mut W,
    errors: &mut Messages<E>,
) -> Status
    ensures answered { AnswersDebugging (debugging_of asked.entry) (W.contents out.old) (W.contents out.new)
        (Said E.contents errors.old errors.new) result }
    ensures silent { result ≡ Status.Done → errors.new ≡ errors.old }
{
    match print_states(alloc, asked, out) {
        Ok(status) => status,
        Err(Fault::GivenUp(fault)) => report(asked.script, Fault::GivenUp(fault), errors),
        Err(fault) => report(asked.path, fault, errors),
    }
}
