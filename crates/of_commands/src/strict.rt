//! Whether a run ended by a throw that nothing caught.
ghost use Rattle.std.specs.Prelude.{◌≡◌, [], IfErr};
ghost use Rattle.of_machine.specs.Runs.{IsCalm};

use crate::explain::may_have_thrown;
use crate::places::stands_at_end;
use of_asking::Answer;
use of_devices::{Board, Rack};
use of_files::Fault;
use of_machine::{End, ScriptMachine, ScriptRun, begin_run, go_with, run_rack, run_script};
use of_refusal::Refusal;
use of_runs::{Answerer, Outside};
use std::alloc::Global;

/// Whether a machine's last step, before which it stood so, was a throw that nothing caught: it wasn't the end of an
/// image or of a line, or its text was printed there.
fn is_thrown(before: &ScriptMachine, after: &ScriptMachine) -> bool {
    !stands_at_end(before) || after.console().len() > before.console().len()
}

/// Makes the steps of a run that has left this machine again, but for the last, and looks at that.
fn throws_last(again: &mut ScriptRun<'_>, after: &ScriptMachine) -> Result<bool, Fault>
    requires calm { IsCalm again.old }
    requires none { again.old.machine.steps ≡ 0 }
    ensures { IfErr result (λ f. f ≡ Fault.NoMemory) }
{
    match again.go(after.steps().saturating_sub(1)) {
        Ok(_) => Ok(is_thrown(again.machine(), after)),
        Err(_) => Err(Fault::NoMemory),
    }
}

/// The same where the devices of a board like this answer.
fn throws_last_on(
    alloc: Global,
    again: &mut ScriptRun<'_>,
    board: &Board,
    after: &ScriptMachine,
) -> Result<bool, Fault>
    requires calm { IsCalm again.old }
    requires none { again.old.machine.steps ≡ 0 }
    requires unanswered { again.old.answers ≡ [] }
    ensures { IfErr result (λ f. f ≡ Fault.NoMemory) }
{
    let Ok(copy) = board.copy(alloc) else {
        return Err(Fault::NoMemory);
    };
    let Ok(device) = Box::new(alloc, copy) else {
        return Err(Fault::NoMemory);
    };
    let mut rack: Rack = Vec::new(alloc);
    let Ok(()) = rack.push(device) else {
        return Err(Fault::NoMemory);
    };
    match go_with(again, &mut rack, after.steps().saturating_sub(1)) {
        Ok(_) => Ok(is_thrown(again.machine(), after)),
        Err(_) => Err(Fault::NoMemory),
    }
}

/// Whether a run throws at its end, with these answers.
fn throws_answered(
    alloc: Global,
    image: &[u8],
    lines: &[Vec<u8>],
    answers: &[Answer],
    limit: u64,
) -> Result<bool, Fault>
    ensures { IfErr result (λ f. f ≡ Fault.NoMemory) }
{
    let after = match run_script(alloc, image, lines, answers, &[], limit) {
        Ok((machine, End::Done)) => machine,
        Ok(_) => return Ok(false),
        Err(Refusal::NoMemory) => return Err(Fault::NoMemory),
        Err(_) => return Ok(false),
    };
    if !may_have_thrown(&after) {
        return Ok(false);
    }
    match begin_run(alloc, image, lines, answers, &[]) {
        Ok(mut again) => throws_last(&mut again, &after),
        Err(_) => Err(Fault::NoMemory),
    }
}

/// The machine of a run on a board like this, if it is done.
fn done_on_board(
    alloc: Global,
    image: &[u8],
    lines: &[Vec<u8>],
    board: &Board,
    limit: u64,
) -> Result<Option<ScriptMachine>, Fault>
    ensures { IfErr result (λ f. f ≡ Fault.NoMemory) }
{
    let Ok(copy) = board.copy(alloc) else {
        return Err(Fault::NoMemory);
    };
    let Ok(device) = Box::new(alloc, copy) else {
        return Err(Fault::NoMemory);
    };
    let mut rack: Rack = Vec::new(alloc);
    let Ok(()) = rack.push(device) else {
        return Err(Fault::NoMemory);
    };
    match run_rack(alloc, image, lines, &mut rack, &[], limit) {
        Ok((machine, End::Done)) => Ok(Some(machine)),
        Ok(_) => Ok(None),
        Err(Refusal::NoMemory) => Err(Fault::NoMemory),
        Err(_) => Ok(None),
    }
}

/// Whether a run throws at its end, where the devices of a board like this answer.
fn throws_on_board(
    alloc: Global,
    image: &[u8],
    lines: &[Vec<u8>],
    board: &Board,
    limit: u64,
) -> Result<bool, Fault>
    ensures { IfErr result (λ f. f ≡ Fault.NoMemory) }
{
    let after = match done_on_board(alloc, image, lines, board, limit) {
        Ok(Some(machine)) => machine,
        Ok(None) => return Ok(false),
        Err(fault) => return Err(fault),
    };
    if !may_have_thrown(&after) {
        return Ok(false);
    }
    match begin_run(alloc, image, lines, &[], &[]) {
        Ok(mut again) => throws_last_on(alloc, &mut again, board, &after),
        Err(_) => Err(Fault::NoMemory),
    }
}

/// Whether the run of an image is done within `limit` steps, and its last step is a throw that nothing caught. To find
/// that, the image is run, and once more where what it printed may end with the text of a throw.
///
/// An error is for memory alone.
pub fn ends_by_throw(
    alloc: Global,
    image: &[u8],
    outside: Outside<'_>,
    limit: u64,
) -> Result<bool, Fault>
    ensures { IfErr result (λ f. f ≡ Fault.NoMemory) }
{
    match outside.answerer {
        Answerer::Answers(answers) => throws_answered(alloc, image, outside.lines, answers, limit),
        Answerer::Board(board) => throws_on_board(alloc, image, outside.lines, board, limit),
    }
}
