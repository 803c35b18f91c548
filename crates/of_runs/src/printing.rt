//! A run, and what goes out of what it prints.
ghost use Rattle.std.specs.Prelude.{IfErr, IfOk, OnErr, OnOk, drop};
ghost use Rattle.std.specs.Io.KnownBytes.{Appends};
ghost use Rattle.of_files.specs.Faults.{IsUnwritten};
ghost use Rattle.of_files.specs.Messages.{AppendsPart};
ghost use Rattle.of_runs.specs.Runs.{GivesUp, RunsOn, console_of};

use crate::answers::print_answered;
use crate::boards::print_on_board;
use crate::outside::{Answerer, Outside};
use of_files::{Fault, write_whole};
use of_machine::{End, ScriptMachine};
use std::alloc::Global;
use std::io::Write;

/// How many steps are made at most before what was printed goes out.
pub(crate) const STRETCH: u64 = 1_000_000;

/// Prints what was printed on a machine behind so many bytes.
pub(crate) fn print_since<W: Write>(
    machine: &ScriptMachine,
    before: usize,
    out: &mut W,
) -> Result<(), Fault>
    ensures ok { OnOk result (Appends (W.contents out.old) (W.contents out.new)
        (drop before (console_of machine.now))) }
    ensures err { OnErr result (AppendsPart (W.contents out.old) (W.contents out.new)
        (drop before (console_of machine.now))) }
    ensures fault { IfErr result IsUnwritten }
{
    let text = machine.console().get(before..).unwrap_or(&[]);
    write_whole(out, text)?;
    // what can't be flushed is met by the next write
    let _ = out.flush();
    Ok(())
}

/// Runs an image for `/slot` and console lines on a new machine, for at most `limit` steps, with the answers of
/// `outside`, and prints what the run prints as it comes: what was printed goes out at least each million steps. A
/// board stays as it was.
///
/// Gives the machine as the run leaves it, and how the run ended. Refused are an image over 256 KiB, then a line over
/// 255 bytes, then an image whose header can't be read, and then nothing is printed. NoMemory comes where a growth of
/// memory is refused, and Unwritten where a write fails: what went out is then what the run had printed after some
/// number of steps, or with Unwritten the first of it.
pub fn print_run<W: Write>(
    alloc: Global,
    image: &[u8],
    outside: Outside<'_>,
    limit: u64,
    out: &mut W,
) -> Result<(ScriptMachine, End), Fault>
    ensures run { IfOk result (λ r. RunsOn image.now outside.entry limit r.0 r.1) }
    ensures printed { IfOk result (λ r. Appends (W.contents out.old) (W.contents out.new) (console_of r.0)) }
    ensures given_up { IfErr result (λ f. GivesUp image.now outside.entry limit
        (W.contents out.old) (W.contents out.new) f) }
{
    match outside.answerer {
        Answerer::Answers(answers) => {
            print_answered(alloc, image, outside.lines, answers, limit, out)
        }
        Answerer::Board(board) => { print_on_board(alloc, image, outside.lines, board, limit, out) }
    }
}
