//! How a run ended, in words on the error output.
ghost use Rattle.std.specs.Prelude.{◌≡◌, [], IfErr};
ghost use Rattle.of_machine.specs.Runs.{IsCalm};

use crate::engine::Run;
use crate::places::{say_returns, say_spot, stands_at_end};
use of_asking::Answer;
use of_devices::{Board, Rack};
use of_files::Fault;
use of_machine::{End, ScriptMachine, ScriptRun, begin_run, go_with};
use of_runs::Answerer;
use std::alloc::Global;
use std::io::{self, Write};

/// The most bytes that the text of a throw has.
const MOST_OF_A_THROW: usize = 72;

/// Whether what a machine has printed may end with the text of a throw that nothing caught, which begins with `fault `
/// and ends its line. Where it doesn't, its last step was none.
pub(crate) fn may_have_thrown(machine: &ScriptMachine) -> bool {
    let console = machine.console();
    let behind = console.len().saturating_sub(MOST_OF_A_THROW);
    let last = console.get(behind..).unwrap_or(&[]);
    last.ends_with(b"\n") && last.windows(6).any(|part| part == b"fault ".as_slice())
}

/// A run that has ended.
#[derive(Clone, Copy)]
struct Ended<'a> {
    /// What it was asked for.
    run: Run<'a>,
    /// Its image.
    image: &'a [u8],
    /// The machine as it left it.
    machine: &'a ScriptMachine,
    /// How it ended.
    end: End,
}

impl Ended<'_> {
    /// How many steps come before its last.
    fn steps(self) -> u64 {
        self.machine.steps().saturating_sub(1)
    }

    /// Whether the machine as it left it tells how it ended: where it was cut short, or no throw ended it.
    fn tells(self) -> bool {
        cut_by(self.end).is_some() || !may_have_thrown(self.machine)
    }
}

/// Says what is on the data stack, the bottom first.
fn say_stack<E: Write>(path: &str, machine: &ScriptMachine, errors: &mut E) -> io::Result<()> {
    write!(errors, "ofw: {path}: stack:")?;
    for cell in machine.stack() {
        let number = cell.0;
        write!(errors, " {number:x}")?;
    }
    writeln!(errors)
}

/// What cut a run short, if anything did.
fn cut_by(end: End) -> Option<&'static str> {
    match end {
        End::Done => None,
        End::LimitReached => Some("limit reached"),
        End::AnswersOut => Some("answers out"),
    }
}

/// Says that a run is done.
fn say_done<E: Write>(ended: Ended<'_>, errors: &mut E) -> io::Result<()> {
    let path = ended.run.image;
    let steps = ended.machine.steps();
    writeln!(errors, "ofw: {path}: done after {steps} steps")
}

/// Says how a run ended by its last step, before which the machine stood so: at the end of its image, or by a throw,
/// whose text was printed last, and which items of the return stack that has cut off.
fn say_last<E: Write>(before: &ScriptMachine, ended: Ended<'_>, errors: &mut E) -> io::Result<()> {
    let path = ended.run.image;
    let text = ended
        .machine
        .console()
        .get(before.console().len()..)
        .unwrap_or(&[]);
    if stands_at_end(before) && text.is_empty() {
        return say_done(ended, errors);
    }
    let text = std::str::from_utf8(text).unwrap_or("").trim_end();
    write!(errors, "ofw: {path}: ")?;
    say_spot(before, ended.image, errors)?;
    writeln!(errors, ": {text}")?;
    say_returns(path, before, errors)
}

/// Says how a run ended whose machine tells it: at its limit, at a question without an answer, or at the end of what it
/// read.
fn say_how<E: Write>(ended: Ended<'_>, errors: &mut E) -> io::Result<()> {
    let Some(cut) = cut_by(ended.end) else {
        return say_done(ended, errors);
    };
    let path = ended.run.image;
    let steps = ended.machine.steps();
    write!(errors, "ofw: {path}: {cut} after {steps} steps; next: ")?;
    say_spot(ended.machine, ended.image, errors)?;
    writeln!(errors)?;
    say_returns(path, ended.machine, errors)
}

/// Says how a run ended by its last step, and what is on its data stack, where the machine stood so before.
fn say_all<E: Write>(before: &ScriptMachine, ended: Ended<'_>, errors: &mut E) {
    if say_last(before, ended, errors).is_ok() {
        let _ = say_stack(ended.run.image, ended.machine, errors);
    }
}

/// Makes the steps of a run again, with these answers, and says how it ended.
fn say_answered<E: Write>(
    again: &mut ScriptRun<'_>,
    ended: Ended<'_>,
    errors: &mut E,
) -> Result<(), Fault>
    requires calm { IsCalm again.old }
    requires none { again.old.machine.steps ≡ 0 }
    ensures { IfErr result (λ f. f ≡ Fault.NoMemory) }
{
    let Ok(_) = again.go(ended.steps()) else {
        return Err(Fault::NoMemory);
    };
    say_all(again.machine(), ended, errors);
    Ok(())
}

/// The same where the devices of a board answer, which stays as it was.
fn say_on_board<E: Write>(
    alloc: Global,
    again: &mut ScriptRun<'_>,
    board: &Board,
    ended: Ended<'_>,
    errors: &mut E,
) -> Result<(), Fault>
    requires calm { IsCalm again.old }
    requires none { again.old.machine.steps ≡ 0 }
    requires unanswered { again.old.answers ≡ [] }
    ensures { IfErr result (λ f. f ≡ Fault.NoMemory) }
{
    let Ok(copy) = board.copy(alloc) else {
        return Err(Fault::NoMemory);
    };
    let Ok(device) = Box::new(alloc, copy) else {
        return Err(Fault::NoMemory);
    };
    let mut rack: Rack = Vec::new(alloc);
    let Ok(()) = rack.push(device) else {
        return Err(Fault::NoMemory);
    };
    let Ok(_) = go_with(again, &mut rack, ended.steps()) else {
        return Err(Fault::NoMemory);
    };
    say_all(again.machine(), ended, errors);
    Ok(())
}

/// Runs the image of a run that has ended once more, with answers, and says how it ended.
fn explain_answered<E: Write>(
    alloc: Global,
    answers: &[Answer],
    ended: Ended<'_>,
    errors: &mut E,
) -> Result<(), Fault>
    ensures { IfErr result (λ f. f ≡ Fault.NoMemory) }
{
    match begin_run(alloc, ended.image, ended.run.outside.lines, answers, &[]) {
        Ok(mut again) => say_answered(&mut again, ended, errors),
        Err(_) => Err(Fault::NoMemory),
    }
}

/// The same where the devices of a board answer.
fn explain_on_board<E: Write>(
    alloc: Global,
    board: &Board,
    ended: Ended<'_>,
    errors: &mut E,
) -> Result<(), Fault>
    ensures { IfErr result (λ f. f ≡ Fault.NoMemory) }
{
    match begin_run(alloc, ended.image, ended.run.outside.lines, &[], &[]) {
        Ok(mut again) => say_on_board(alloc, &mut again, board, ended, errors),
        Err(_) => Err(Fault::NoMemory),
    }
}

/// Says how the run of an image ended that left this machine, where it stood then or was thrown out of, and what is on
/// its data stack. Where a throw ended it, the image is run again, up to its last step, to find where that was.
///
/// An error is for memory alone. What can't be written is left out.
pub(crate) fn say_end<E: Write>(
    alloc: Global,
    run: Run<'_>,
    image: &[u8],
    machine: &ScriptMachine,
    end: End,
    errors: &mut E,
) -> Result<(), Fault>
    ensures { IfErr result (λ f. f ≡ Fault.NoMemory) }
{
    let ended = Ended {
        run,
        image,
        machine,
        end,
    };
    if ended.tells() {
        if say_how(ended, errors).is_ok() {
            let _ = say_stack(run.image, machine, errors);
        }
        return Ok(());
    }
    match run.outside.answerer {
        Answerer::Answers(answers) => explain_answered(alloc, answers, ended, errors),
        Answerer::Board(board) => explain_on_board(alloc, board, ended, errors),
    }
}
