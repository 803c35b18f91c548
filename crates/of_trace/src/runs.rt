//! Runs that are made step by step, and traced.
ghost use Rattle.std.specs.Prelude.{◌≡◌, ◌≤◌, [], ◌∷◌, IfOk, OnOk, map};
ghost use Rattle.of_devices.specs.Parts.{board_meant};
ghost use Rattle.of_machine.specs.Racks.{answers_of};
ghost use Rattle.of_machine.specs.Runs.{IsCalm, RunsTo};
ghost use Rattle.of_machine.specs.Stretches.{Stretches, StretchesWith};
ghost use Rattle.of_machine.specs.declared.answers.End.TheVariants.{LimitReached};

use crate::fault::TraceFault;
use crate::tracer::{Source, Tracer};
use of_asking::Answer;
use of_devices::{Board, Rack};
use of_machine::{End, ScriptMachine, ScriptRun, begin_run, go_with, stretches_join};
use of_refusal::Refusal;
use std::alloc::Global;
use std::io::Write;

/// Makes a stretch of a run, of one step where its limit is the next, and writes its line.
fn trace_stretch<T: Write>(
    run: &mut ScriptRun<'_>,
    limit: u64,
    tracer: &mut Tracer<'_>,
    trace: &mut T,
) -> Result<End, TraceFault>
    requires few { run.old.machine.steps ≤ limit }
    requires calm { IsCalm run.old }
    ensures ok { IfOk result (λ e. Stretches limit run.old run.new e) }
    ensures calm { IfOk result (λ e. e ≡ LimitReached → IsCalm run.new) }
    ensures made { IfOk result (λ e. e ≡ LimitReached → run.new.machine.steps ≡ limit) }
{
    let Ok(end) = run.go(limit) else {
        return Err(TraceFault::NoMemory);
    };
    match tracer.look(run.machine(), trace) {
        Ok(()) => Ok(end),
        Err(fault) => Err(fault),
    }
}

/// Makes the rest of a run step by step, and writes a line for each.
fn trace_rest<T: Write>(
    run: &mut ScriptRun<'_>,
    limit: u64,
    tracer: &mut Tracer<'_>,
    trace: &mut T,
) -> Result<End, TraceFault>
    requires few { run.old.machine.steps ≤ limit }
    requires calm { IsCalm run.old }
    ensures { IfOk result (λ e. Stretches limit run.old run.new e) }
{
    stretches_join();
    while limit - run.machine().steps() > 1 {
        let until = run.machine().steps() + 1;
        match trace_stretch(run, until, tracer, trace) {
            Ok(End::LimitReached) => {}
            Ok(End::Done) => return Ok(End::Done),
            Ok(End::AnswersOut) => return Ok(End::AnswersOut),
            Err(fault) => return Err(fault),
        }
    }
    trace_stretch(run, limit, tracer, trace)
}

/// Traces a run that was begun.
fn trace_begun<T: Write>(
    alloc: Global,
    run: &mut ScriptRun<'_>,
    lines: &[Vec<u8>],
    answers: &[Answer],
    limit: u64,
    trace: &mut T,
) -> Result<End, TraceFault>
    requires few { run.old.machine.steps ≤ limit }
    requires calm { IsCalm run.old }
    ensures { IfOk result (λ e. Stretches limit run.old run.new e) }
{
    match Tracer::new(alloc, lines, Source::Answers(answers), run.machine()) {
        Ok(mut tracer) => trace_rest(run, limit, &mut tracer, trace),
        Err(fault) => Err(fault),
    }
}

/// Runs an image for `/slot` and console lines on a new machine, for at most `limit` steps, with these answers, and
/// writes a line for each step, as soon as it is made: where it was made, what it asked and was answered, the data
/// stack behind it, and what it changed in the data space and in the device tree and has printed. The step whose
/// question has no answer that fits has a line without a stack.
///
/// Gives the machine as the run leaves it, and how the run ended. Refused are an image over 256 KiB, then a line over
/// 255 bytes, then an image whose header can't be read. NoMemory comes where a growth of memory is refused, and
/// Unwritten where a line can't be written; then the lines before it were.
pub fn trace_answered<T: Write>(
    alloc: Global,
    image: &[u8],
    lines: &[Vec<u8>],
    answers: &[Answer],
    limit: u64,
    trace: &mut T,
) -> Result<(ScriptMachine, End), TraceFault>
    ensures { IfOk result (λ r. RunsTo image.now (map (λ l. l.items) lines.now) answers.now [] limit r.0 r.1) }
{
    stretches_join();
    let mut run = match begin_run(alloc, image, lines, answers, &[]) {
        Ok(run) => run,
        Err(Refusal::NoMemory) => return Err(TraceFault::NoMemory),
        Err(refusal) => return Err(TraceFault::Refused(refusal)),
    };
    match trace_begun(alloc, &mut run, lines, answers, limit, trace) {
        Ok(end) => Ok((run.into_machine(), end)),
        Err(fault) => Err(fault),
    }
}

/// Makes a stretch of a run whose questions a rack answers, of one step where its limit is the next, and writes its
/// line.
fn trace_stretch_with<T: Write>(
    run: &mut ScriptRun<'_>,
    rack: &mut Rack,
    limit: u64,
    tracer: &mut Tracer<'_>,
    trace: &mut T,
) -> Result<End, TraceFault>
    requires few { run.old.machine.steps ≤ limit }
    requires calm { IsCalm run.old }
    requires none { run.old.answers ≡ [] }
    ensures ok { IfOk result (λ e. StretchesWith limit (map (λ d. meant d) rack.old.items)
        (map (λ d. meant d) rack.new.items) run.old run.new e) }
    ensures calm { OnOk result (IsCalm run.new) }
    ensures none { OnOk result (run.new.answers ≡ []) }
    ensures made { IfOk result (λ e. e ≡ LimitReached → run.new.machine.steps ≡ limit) }
{
    let Ok(end) = go_with(run, rack, limit) else {
        return Err(TraceFault::NoMemory);
    };
    match tracer.look(run.machine(), trace) {
        Ok(()) => Ok(end),
        Err(fault) => Err(fault),
    }
}

/// Makes the rest of such a run step by step, and writes a line for each.
fn trace_rest_with<T: Write>(
    run: &mut ScriptRun<'_>,
    rack: &mut Rack,
    limit: u64,
    tracer: &mut Tracer<'_>,
    trace: &mut T,
) -> Result<End, TraceFault>
    requires few { run.old.machine.steps ≤ limit }
    requires calm { IsCalm run.old }
    requires none { run.old.answers ≡ [] }
    ensures { IfOk result (λ e. StretchesWith limit (map (λ d. meant d) rack.old.items)
        (map (λ d. meant d) rack.new.items) run.old run.new e) }
{
    stretches_join();
    while limit - run.machine().steps() > 1 {
        let until = run.machine().steps() + 1;
        match trace_stretch_with(run, rack, until, tracer, trace) {
            Ok(End::LimitReached) => {}
            Ok(End::Done) => return Ok(End::Done),
            Ok(End::AnswersOut) => return Ok(End::AnswersOut),
            Err(fault) => return Err(fault),
        }
    }
    trace_stretch_with(run, rack, limit, tracer, trace)
}

/// Traces such a run that was begun, whose rack is a board like this.
fn trace_begun_with<T: Write>(
    alloc: Global,
    run: &mut ScriptRun<'_>,
    rack: &mut Rack,
    lines: &[Vec<u8>],
    board: &Board,
    limit: u64,
    trace: &mut T,
) -> Result<End, TraceFault>
    requires few { run.old.machine.steps ≤ limit }
    requires calm { IsCalm run.old }
    requires none { run.old.answers ≡ [] }
    ensures { IfOk result (λ e. StretchesWith limit (map (λ d. meant d) rack.old.items)
        (map (λ d. meant d) rack.new.items) run.old run.new e) }
{
    let Ok(copy) = board.copy(alloc) else {
        return Err(TraceFault::NoMemory);
    };
    match Tracer::new(alloc, lines, Source::Board(copy), run.machine()) {
        Ok(mut tracer) => trace_rest_with(run, rack, limit, &mut tracer, trace),
        Err(fault) => Err(fault),
    }
}

/// Traces a run on a rack, which is a board like this.
fn trace_on_rack<T: Write>(
    alloc: Global,
    image: &[u8],
    lines: &[Vec<u8>],
    rack: &mut Rack,
    board: &Board,
    limit: u64,
    trace: &mut T,
) -> Result<(ScriptMachine, End), TraceFault>
    ensures { IfOk result (λ r. RunsTo image.now (map (λ l. l.items) lines.now)
        (answers_of (map (λ d. meant d) rack.old.items) r.0.asked) [] limit r.0 r.1) }
{
    stretches_join();
    let mut run = match begin_run(alloc, image, lines, &[], &[]) {
        Ok(run) => run,
        Err(Refusal::NoMemory) => return Err(TraceFault::NoMemory),
        Err(refusal) => return Err(TraceFault::Refused(refusal)),
    };
    match trace_begun_with(alloc, &mut run, rack, lines, board, limit, trace) {
        Ok(end) => Ok((run.into_machine(), end)),
        Err(fault) => Err(fault),
    }
}

/// The same where the devices of a board answer, which stays as it was.
pub fn trace_on_board<T: Write>(
    alloc: Global,
    image: &[u8],
    lines: &[Vec<u8>],
    board: &Board,
    limit: u64,
    trace: &mut T,
) -> Result<(ScriptMachine, End), TraceFault>
    ensures { IfOk result (λ r. RunsTo image.now (map (λ l. l.items) lines.now)
        (answers_of (board_meant board.now ∷ []) r.0.asked) [] limit r.0 r.1) }
{
    let Ok(copy) = board.copy(alloc) else {
        return Err(TraceFault::NoMemory);
    };
    let Ok(device) = Box::new(alloc, copy) else {
        return Err(TraceFault::NoMemory);
    };
    let mut rack: Rack = Vec::new(alloc);
    let Ok(()) = rack.push(device) else {
        return Err(TraceFault::NoMemory);
    };
    trace_on_rack(alloc, image, lines, &mut rack, board, limit, trace)
}
