ghost use Rattle.std.specs.Prelude.{◌≡◌, ◌≤◌, [], IfOk, IfErr, OnOk, OnErr, None, is_some, map, false, true};
ghost use Rattle.of_machine.specs.declared.answers.End.TheVariants.{AnswersOut, LimitReached};
ghost use Rattle.of_machine.specs.States.{Refuses};
ghost use Rattle.of_machine.specs.Racks.{IsLeft, IsLeftWith, Rounds, answers_of};
ghost use Rattle.of_machine.specs.Refused.{IsHeldWith};
ghost use Rattle.of_devices.specs.Racks.{told_all};
ghost use Rattle.of_machine.specs.Runs.{IsCalm, RunsTo, due_of, script_refusal};
ghost use Rattle.of_machine.specs.Stretches.{StretchesWith};

use crate::answers::End;
use crate::laws::runs_agree;
use crate::run::{ScriptMachine, begin_run, end_of};
use crate::script_run::{Advance, ScriptRun};
use of_client::ClientCall;
use of_devices::{Rack, ask};
use of_refusal::Refusal;
use std::alloc::{AllocError, Global};

/// Makes steps up to one whose question the rack answers, or up to one behind which clients are answered or a line is
/// handed in, at most until `limit` are made; answers whether more can be made.
///
/// An error is for memory alone.
fn round_with(run: &mut ScriptRun, rack: &mut Rack, limit: u64) -> Result<bool, AllocError>
    requires few { run.old.machine.steps ≤ limit }
    requires calm { IsCalm run.old }
    requires none { run.old.answers ≡ [] }
    ensures ok { IfOk result (λ more. Rounds limit more
        (map (λ d. meant d) rack.old.items) (map (λ d. meant d) rack.new.items) run.old run.new) }
    ensures left { OnErr result (IsLeftWith limit
        (map (λ d. meant d) rack.old.items) (map (λ d. meant d) rack.new.items) run.old) }
    ensures held { OnErr result (IsHeldWith limit
        (map (λ d. meant d) rack.old.items) (map (λ d. meant d) rack.new.items) run.old run.new) }
{
    match run.advance(limit)? {
        Advance::Further => Ok(true),
        Advance::Over => Ok(false),
        Advance::Asks(query) => {
            let answer = ask(rack, query);
            run.answer(answer)?;
            Ok(true)
        }
    }
}

/// Makes steps, with the rack's answers to what they ask, and answers clients, until `limit` are made or no more can
/// be.
///
/// An error is for memory alone.
fn run_with(run: &mut ScriptRun, rack: &mut Rack, limit: u64) -> Result<(), AllocError>
    requires few { run.old.machine.steps ≤ limit }
    requires calm { IsCalm run.old }
    requires none { run.old.answers ≡ [] }
    ensures over { OnOk result (Rounds limit false
        (map (λ d. meant d) rack.old.items) (map (λ d. meant d) rack.new.items) run.old run.new) }
    ensures left { OnErr result (IsLeftWith limit
        (map (λ d. meant d) rack.old.items) (map (λ d. meant d) rack.new.items) run.old) }
    ensures held { OnErr result (IsHeldWith limit
        (map (λ d. meant d) rack.old.items) (map (λ d. meant d) rack.new.items) run.old run.new) }
{
    while round_with(run, rack, limit)? {}
    Ok(())
}

/// A stretch of a run whose questions the devices of a rack answer, as `ScriptRun::go`: until `limit` steps are made in
/// all, or no more can be made.
///
/// An error is for memory alone, and comes where that of `ScriptRun::go` does: then the run can't go on, and the
/// devices are as the questions left them that were answered so far, and the one that is open, if one is.
pub fn go_with(run: &mut ScriptRun, rack: &mut Rack, limit: u64) -> Result<End, AllocError>
    requires few { run.old.machine.steps ≤ limit }
    requires calm { IsCalm run.old }
    requires none { run.old.answers ≡ [] }
    ensures gone { IfOk result (λ e. StretchesWith limit
        (map (λ d. meant d) rack.old.items) (map (λ d. meant d) rack.new.items) run.old run.new e) }
    ensures calm { OnOk result (IsCalm run.new) }
    ensures none { OnOk result (run.new.answers ≡ []) }
    ensures made { IfOk result (λ e. e ≡ LimitReached → run.new.machine.steps ≡ limit) }
    ensures left { OnErr result (IsLeftWith limit
        (map (λ d. meant d) rack.old.items) (map (λ d. meant d) rack.new.items) run.old) }
    ensures held { OnErr result (IsHeldWith limit
        (map (λ d. meant d) rack.old.items) (map (λ d. meant d) rack.new.items) run.old run.new) }
{
    run_with(run, rack, limit)?;
    Ok(end_of(&run.machine))
}

/// Runs an image for `/slot` on a new machine as `run_script` does, where the devices of a rack answer: the k-th answer
/// is the rack's to the k-th question, behind those before.
///
/// The run ends Done or LimitReached, never AnswersOut, and then the devices have been asked what the machine's `asked`
/// says. Refused are ImageTooLong over 256 KiB, then LineTooLong where a line has more than 255 bytes, then BadStart
/// where the header can't be read, which change no device, and NoMemory, which gives no machine: the devices are then
/// as the questions left them that were answered so far.
pub fn run_rack(
    alloc: Global,
    image: &[u8],
    lines: &[Vec<u8>],
    rack: &mut Rack,
    calls: &[(u64, ClientCall)],
    limit: u64,
) -> Result<(ScriptMachine, End), Refusal>
    ensures accepted { OnOk result (script_refusal image.now (map (λ l. l.items) lines.now) ≡ None) }
    ensures ok { IfOk result (λ r. RunsTo image.now (map (λ l. l.items) lines.now)
        (answers_of (map (λ d. meant d) rack.old.items) r.0.asked) (map due_of calls.now) limit r.0 r.1) }
    ensures told { IfOk result (λ r. map (λ d. meant d) rack.new.items
        ≡ told_all (map (λ d. meant d) rack.old.items) r.0.asked) }
    ensures never_out { IfOk result (λ r. r.1 ≡ AnswersOut → ⊥) }
    ensures err { IfErr result (λ e. Refuses (script_refusal image.now (map (λ l. l.items) lines.now)) e) }
    ensures unasked { is_some (script_refusal image.now (map (λ l. l.items) lines.now)) ≡ true
        → map (λ d. meant d) rack.new.items ≡ map (λ d. meant d) rack.old.items }
    ensures left { OnErr result (IsLeft image.now (map (λ l. l.items) lines.now) (map due_of calls.now) limit
        (map (λ d. meant d) rack.old.items) (map (λ d. meant d) rack.new.items)) }
{
    runs_agree();
    let mut run = begin_run(alloc, image, lines, &[], calls)?;
    let Ok(()) = run_with(&mut run, rack, limit) else {
        return Err(Refusal::NoMemory);
    };
    let end = end_of(&run.machine);
    Ok((run.machine, end))
}
