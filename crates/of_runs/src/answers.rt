//! Runs whose questions are answered in order.
ghost use Rattle.std.specs.Prelude.{◌≡◌, ◌≤◌, ◌⊎◌, [], IfErr, IfOk, map};
ghost use Rattle.std.specs.Io.KnownBytes.{Appends};
ghost use Rattle.of_machine.specs.Runs.{IsCalm, RunsTo};
ghost use Rattle.of_machine.specs.declared.answers.End.TheVariants.{LimitReached};
ghost use Rattle.of_runs.specs.Printing.{Prints, PrintsAll, Stops, StopsAll};
ghost use Rattle.of_runs.specs.Runs.{Breaks, NeverBegins, console_of};

use crate::printing::{STRETCH, print_since};
use of_asking::Answer;
use of_files::{Fault, refused};
use of_machine::{End, ScriptMachine, ScriptRun, begin_run, stretches_join};
use of_print_laws::printed_stays;
use std::alloc::Global;
use std::io::Write;

/// Makes a stretch of a run, and prints what it prints.
fn print_stretch<W: Write>(run: &mut ScriptRun<'_>, limit: u64, out: &mut W) -> Result<End, Fault>
    requires few { run.old.machine.steps ≤ limit }
    requires calm { IsCalm run.old }
    ensures ok { IfOk result (λ e. Prints limit run.old run.new (W.contents out.old) (W.contents out.new) e) }
    ensures calm { IfOk result (λ e. e ≡ LimitReached → IsCalm run.new) }
    ensures made { IfOk result (λ e. e ≡ LimitReached → run.new.machine.steps ≡ limit) }
    ensures err { IfErr result (λ f. Stops limit run.old (W.contents out.old) (W.contents out.new) f) }
{
    printed_stays();
    let before = run.machine().console().len();
    let Ok(end) = run.go(limit) else {
        return Err(Fault::NoMemory);
    };
    match print_since(run.machine(), before, out) {
        Ok(()) => Ok(end),
        Err(fault) => Err(fault),
    }
}

/// Makes the rest of a run, and prints what it prints, stretch by stretch.
fn print_rest<W: Write>(run: &mut ScriptRun<'_>, limit: u64, out: &mut W) -> Result<End, Fault>
    requires few { run.old.machine.steps ≤ limit }
    requires calm { IsCalm run.old }
    ensures ok { IfOk result (λ e. Prints limit run.old run.new (W.contents out.old) (W.contents out.new) e) }
    ensures err { IfErr result (λ f. Stops limit run.old (W.contents out.old) (W.contents out.new) f) }
{
    stretches_join();
    while limit - run.machine().steps() > STRETCH {
        let until = run.machine().steps() + STRETCH;
        match print_stretch(run, until, out) {
            Ok(End::LimitReached) => {}
            Ok(End::Done) => return Ok(End::Done),
            Ok(End::AnswersOut) => return Ok(End::AnswersOut),
            Err(fault) => return Err(fault),
        }
    }
    print_stretch(run, limit, out)
}

/// Prints what a run has printed so far, and then its rest.
fn print_begun<W: Write>(run: &mut ScriptRun<'_>, limit: u64, out: &mut W) -> Result<End, Fault>
    requires few { run.old.machine.steps ≤ limit }
    requires calm { IsCalm run.old }
    ensures ok { IfOk result (λ e. PrintsAll limit run.old run.new (W.contents out.old) (W.contents out.new) e) }
    ensures err { IfErr result (λ f. StopsAll limit run.old (W.contents out.old) (W.contents out.new) f) }
{
    match print_since(run.machine(), 0, out) {
        Ok(()) => print_rest(run, limit, out),
        Err(fault) => Err(fault),
    }
}

/// Runs an image and console lines with these answers, and prints what the run prints as it comes.
pub(crate) fn print_answered<W: Write>(
    alloc: Global,
    image: &[u8],
    lines: &[Vec<u8>],
    answers: &[Answer],
    limit: u64,
    out: &mut W,
) -> Result<(ScriptMachine, End), Fault>
    ensures run { IfOk result (λ r. RunsTo image.now (map (λ l. l.items) lines.now) answers.now [] limit r.0 r.1) }
    ensures printed { IfOk result (λ r. Appends (W.contents out.old) (W.contents out.new) (console_of r.0)) }
    ensures given_up { IfErr result (λ f.
        NeverBegins image.now (map (λ l. l.items) lines.now) (W.contents out.old) (W.contents out.new) f
        ⊎ Breaks (RunsTo image.now (map (λ l. l.items) lines.now) answers.now []) limit
        (W.contents out.old) (W.contents out.new) f) }
{
    stretches_join();
    let mut run = match begin_run(alloc, image, lines, answers, &[]) {
        Ok(run) => run,
        Err(refusal) => return Err(refused(image.len(), refusal)),
    };
    match print_begun(&mut run, limit, out) {
        Ok(end) => Ok((run.into_machine(), end)),
        Err(fault) => Err(fault),
    }
}
