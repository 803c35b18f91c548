//! Runs whose questions the devices of a board answer.
ghost use Rattle.std.specs.Prelude.{◌≡◌, ◌≤◌, ◌⊎◌, [], ◌∷◌, IfErr, IfOk, OnOk, map};
ghost use Rattle.std.specs.Io.KnownBytes.{Appends};
ghost use Rattle.of_devices.specs.Parts.{board_meant};
ghost use Rattle.of_machine.specs.Runs.{IsCalm};
ghost use Rattle.of_machine.specs.declared.answers.End.TheVariants.{LimitReached};
ghost use Rattle.of_runs.specs.Printing.{OnRack, PrintsAllWith, PrintsWith, StopsAllWith, StopsWith};
ghost use Rattle.of_runs.specs.Runs.{Breaks, NeverBegins, console_of};

use crate::printing::{STRETCH, print_since};
use of_devices::{Board, Rack};
use of_files::{Fault, refused};
use of_machine::{End, ScriptMachine, ScriptRun, begin_run, go_with, stretches_join};
use of_print_laws::printed_stays;
use std::alloc::Global;
use std::io::Write;

/// Makes a stretch of a run, and prints what it prints.
fn print_stretch<W: Write>(
    run: &mut ScriptRun<'_>,
    rack: &mut Rack,
    limit: u64,
    out: &mut W,
) -> Result<End, Fault>
    requires few { run.old.machine.steps ≤ limit }
    requires calm { IsCalm run.old }
    requires none { run.old.answers ≡ [] }
    ensures ok { IfOk result (λ e. PrintsWith limit (map (λ d. meant d) rack.old.items)
        (map (λ d. meant d) rack.new.items) run.old run.new (W.contents out.old) (W.contents out.new) e) }
    ensures calm { OnOk result (IsCalm run.new) }
    ensures none { OnOk result (run.new.answers ≡ []) }
    ensures made { IfOk result (λ e. e ≡ LimitReached → run.new.machine.steps ≡ limit) }
    ensures err { IfErr result (λ f. StopsWith limit (map (λ d. meant d) rack.old.items) run.old
        (W.contents out.old) (W.contents out.new) f) }
{
    printed_stays();
    let before = run.machine().console().len();
    let Ok(end) = go_with(run, rack, limit) else {
        return Err(Fault::NoMemory);
    };
    match print_since(run.machine(), before, out) {
        Ok(()) => Ok(end),
        Err(fault) => Err(fault),
    }
}

/// Makes the rest of a run, and prints what it prints, stretch by stretch.
fn print_rest<W: Write>(
    run: &mut ScriptRun<'_>,
    rack: &mut Rack,
    limit: u64,
    out: &mut W,
) -> Result<End, Fault>
    requires few { run.old.machine.steps ≤ limit }
    requires calm { IsCalm run.old }
    requires none { run.old.answers ≡ [] }
    ensures ok { IfOk result (λ e. PrintsWith limit (map (λ d. meant d) rack.old.items)
        (map (λ d. meant d) rack.new.items) run.old run.new (W.contents out.old) (W.contents out.new) e) }
    ensures err { IfErr result (λ f. StopsWith limit (map (λ d. meant d) rack.old.items) run.old
        (W.contents out.old) (W.contents out.new) f) }
{
    stretches_join();
    while limit - run.machine().steps() > STRETCH {
        let until = run.machine().steps() + STRETCH;
        match print_stretch(run, rack, until, out) {
            Ok(End::LimitReached) => {}
            Ok(End::Done) => return Ok(End::Done),
            Ok(End::AnswersOut) => return Ok(End::AnswersOut),
            Err(fault) => return Err(fault),
        }
    }
    print_stretch(run, rack, limit, out)
}

/// Prints what a run has printed so far, and then its rest.
fn print_begun<W: Write>(
    run: &mut ScriptRun<'_>,
    rack: &mut Rack,
    limit: u64,
    out: &mut W,
) -> Result<End, Fault>
    requires few { run.old.machine.steps ≤ limit }
    requires calm { IsCalm run.old }
    requires none { run.old.answers ≡ [] }
    ensures ok { IfOk result (λ e. PrintsAllWith limit (map (λ d. meant d) rack.old.items)
        (map (λ d. meant d) rack.new.items) run.old run.new (W.contents out.old) (W.contents out.new) e) }
    ensures err { IfErr result (λ f. StopsAllWith limit (map (λ d. meant d) rack.old.items) run.old
        (W.contents out.old) (W.contents out.new) f) }
{
    match print_since(run.machine(), 0, out) {
        Ok(()) => print_rest(run, rack, limit, out),
        Err(fault) => Err(fault),
    }
}

/// Runs an image and console lines on the devices of a rack, and prints what the run prints as it comes.
fn print_on_rack<W: Write>(
    alloc: Global,
    image: &[u8],
    lines: &[Vec<u8>],
    rack: &mut Rack,
    limit: u64,
    out: &mut W,
) -> Result<(ScriptMachine, End), Fault>
    ensures run { IfOk result (λ r. OnRack image.now (map (λ l. l.items) lines.now)
        (map (λ d. meant d) rack.old.items) limit r.0 r.1) }
    ensures printed { IfOk result (λ r. Appends (W.contents out.old) (W.contents out.new) (console_of r.0)) }
    ensures given_up { IfErr result (λ f.
        NeverBegins image.now (map (λ l. l.items) lines.now) (W.contents out.old) (W.contents out.new) f
        ⊎ Breaks (OnRack image.now (map (λ l. l.items) lines.now) (map (λ d. meant d) rack.old.items)) limit
        (W.contents out.old) (W.contents out.new) f) }
{
    stretches_join();
    let mut run = match begin_run(alloc, image, lines, &[], &[]) {
        Ok(run) => run,
        Err(refusal) => return Err(refused(image.len(), refusal)),
    };
    match print_begun(&mut run, rack, limit, out) {
        Ok(end) => Ok((run.into_machine(), end)),
        Err(fault) => Err(fault),
    }
}

/// The same on a copy of a board.
pub(crate) fn print_on_board<W: Write>(
    alloc: Global,
    image: &[u8],
    lines: &[Vec<u8>],
    board: &Board,
    limit: u64,
    out: &mut W,
) -> Result<(ScriptMachine, End), Fault>
    ensures run { IfOk result (λ r. OnRack image.now (map (λ l. l.items) lines.now) (board_meant board.now ∷ []) limit
        r.0 r.1) }
    ensures printed { IfOk result (λ r. Appends (W.contents out.old) (W.contents out.new) (console_of r.0)) }
    ensures given_up { IfErr result (λ f.
        NeverBegins image.now (map (λ l. l.items) lines.now) (W.contents out.old) (W.contents out.new) f
        ⊎ Breaks (OnRack image.now (map (λ l. l.items) lines.now) (board_meant board.now ∷ [])) limit
        (W.contents out.old) (W.contents out.new) f) }
{
    let Ok(copy) = board.copy(alloc) else {
        return Err(Fault::NoMemory);
    };
    let Ok(device) = Box::new(alloc, copy) else {
        return Err(Fault::NoMemory);
    };
    let mut rack: Rack = Vec::new(alloc);
    let Ok(()) = rack.push(device) else {
        return Err(Fault::NoMemory);
    };
    print_on_rack(alloc, image, lines, &mut rack, limit, out)
}
