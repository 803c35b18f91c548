ghost use Rattle.std.specs.Prelude.{◌≡◌, IfOk, IfErr, OnOk, None, Some, map};
ghost use Rattle.of_compile.specs.Structured.{flat_of};
ghost use Rattle.of_eval_laws.specs.Structured.{no_definitions};
ghost use Rattle.of_machine.specs.States.{Refuses, flat_machine, idle, image_refusal, is_running, loaded, slot};
ghost use Rattle.of_machine.specs.Runs.{IsCalm, RunsTo, beginning, due_of, end_of, has_long, script_refusal};

use crate::answers::End;
use crate::laws::runs_agree;
use crate::machine::{LONGEST_IMAGE, LONGEST_LINE, Machine, check_image};
use crate::script_run::ScriptRun;
use of_asking::Answer;
use of_cell_code::CellCode;
use of_client::ClientCall;
use of_nodes::Phandle;
use of_refusal::Refusal;
use std::alloc::{AllocError, Global};

/// The machine on which scripts run: its definitions stand in bytes.
pub type ScriptMachine = Machine<CellCode>;

/// An idle machine for a script, with empty stacks and console, a fresh data space and no own words.
///
/// An error is for memory alone.
pub fn script_machine(alloc: Global) -> Result<ScriptMachine, AllocError>
    ensures { IfOk result (λ m. m ≡ flat_machine (idle no_definitions)) }
{
    let code = CellCode::new(alloc)?;
    Machine::new(alloc, code)
}

/// The number of the node `/slot`, the third that is made.
const SLOT: usize = 2;

/// Whether one of the lines is too long.
fn has_long(lines: &[Vec<u8>]) -> bool
    ensures { result ≡ has_long (map (λ l. l.items) lines.now) }
{
    let mut rest = lines;
    while let [line, more @ ..] = rest {
        if line.len() > LONGEST_LINE {
            return true;
        }
        rest = more;
    }
    false
}

/// Looks whether an image and lines can be run.
///
/// ImageTooLong over 256 KiB, then LineTooLong over 255 bytes, then BadStart where the header can't be read.
fn check_script(image: &[u8], lines: &[Vec<u8>]) -> Result<(), Refusal>
    ensures accepted { OnOk result (script_refusal image.now (map (λ l. l.items) lines.now) ≡ None) }
    ensures image { OnOk result (image_refusal image.now ≡ None) }
    ensures err { IfErr result (λ e. script_refusal image.now (map (λ l. l.items) lines.now) ≡ Some e) }
{
    if image.len() <= LONGEST_IMAGE && has_long(lines) {
        return Err(Refusal::LineTooLong);
    }
    let _ = check_image(image)?;
    Ok(())
}

/// A new machine on which an image is loaded for `/slot`.
///
/// NoMemory is the only refusal.
fn begun_machine(alloc: Global, image: &[u8]) -> Result<ScriptMachine, Refusal>
    requires accepted { image_refusal image.now ≡ None }
    ensures ok { IfOk result (λ m. m ≡ loaded (flat_machine (idle no_definitions)) image.now slot) }
    ensures err { IfErr result (λ e. e ≡ Refusal.NoMemory) }
{
    let Ok(mut machine) = script_machine(alloc) else {
        return Err(Refusal::NoMemory);
    };
    machine.begin(image, Phandle::of(SLOT))?;
    Ok(machine)
}

/// A new machine on which an image is loaded for `/slot`, as a run of it and of these lines begins: no client is
/// answered yet, and no line is handed in.
///
/// ImageTooLong over 256 KiB, then LineTooLong where a line has more than 255 bytes, then BadStart where the header
/// can't be read, and NoMemory.
pub fn loaded_machine(
    alloc: Global,
    image: &[u8],
    lines: &[Vec<u8>],
) -> Result<ScriptMachine, Refusal>
    ensures accepted { OnOk result (script_refusal image.now (map (λ l. l.items) lines.now) ≡ None) }
    ensures ok { IfOk result (λ m. m ≡ loaded (flat_machine (idle no_definitions)) image.now slot) }
    ensures err { IfErr result (λ e. Refuses (script_refusal image.now (map (λ l. l.items) lines.now)) e) }
{
    check_script(image, lines)?;
    begun_machine(alloc, image)
}

/// Begins a run that is made stretch by stretch: an image is loaded for `/slot` on a new machine, the clients due at 0
/// are answered, and the first line is handed in if nothing runs then.
///
/// ImageTooLong over 256 KiB, then LineTooLong over 255 bytes, then BadStart where the header can't be read, and
/// NoMemory.
pub fn begin_run<'a>(
    alloc: Global,
    image: &[u8],
    lines: &'a [Vec<u8>],
    answers: &'a [Answer],
    calls: &'a [(u64, ClientCall)],
) -> Result<ScriptRun<'a>, Refusal>
    ensures accepted { OnOk result (script_refusal image.now (map (λ l. l.items) lines.now) ≡ None) }
    ensures begun { IfOk result (λ f. f ≡ beginning (flat_of no_definitions) image.now (map (λ l. l.items) lines.now)
        answers.now (map due_of calls.now)) }
    ensures calm { IfOk result IsCalm }
    ensures none { IfOk result (λ f. f.machine.steps ≡ 0) }
    ensures answers { IfOk result (λ f. f.answers ≡ answers.now) }
    ensures err { IfErr result (λ e. Refuses (script_refusal image.now (map (λ l. l.items) lines.now)) e) }
{
    let machine = loaded_machine(alloc, image, lines)?;
    let mut run = ScriptRun {
        machine,
        lines,
        answers,
        calls,
    };
    let Ok(()) = run.serve() else {
        return Err(Refusal::NoMemory);
    };
    Ok(run)
}

/// How a run ended whose machine this is.
pub(crate) fn end_of(machine: &ScriptMachine) -> End
    ensures { result ≡ end_of machine.now.waiting (is_running machine.now) }
{
    if machine.question().is_some() {
        End::AnswersOut
    } else if machine.is_running() {
        End::LimitReached
    } else {
        End::Done
    }
}

/// Runs an image for `/slot` on a new machine, for at most `limit` steps, hands in the next console line as soon as
/// nothing runs, gives the k-th question the k-th answer, and answers each client of `calls` as soon as so many steps
/// are made and all clients before it are answered: those due at 0 once the image is loaded. What a run doesn't reach
/// isn't answered, nor is what stands behind it.
///
/// The machine that it gives back is the abstract machine after as many steps as were made. The end is Done where
/// nothing runs any more and no line is left, LimitReached where so many steps are made, and AnswersOut where a step
/// before asks and the next answer doesn't fit, or there is none: that question is open then. Refused are ImageTooLong
/// over 256 KiB, then LineTooLong where a line has more than 255 bytes, then BadStart where the header can't be read,
/// and NoMemory, which gives no machine.
pub fn run_script(
    alloc: Global,
    image: &[u8],
    lines: &[Vec<u8>],
    answers: &[Answer],
    calls: &[(u64, ClientCall)],
    limit: u64,
) -> Result<(ScriptMachine, End), Refusal>
    ensures accepted { OnOk result (script_refusal image.now (map (λ l. l.items) lines.now) ≡ None) }
    ensures ok { IfOk result (λ r. RunsTo image.now (map (λ l. l.items) lines.now) answers.now
        (map due_of calls.now) limit r.0 r.1) }
    ensures err { IfErr result (λ e. Refuses (script_refusal image.now (map (λ l. l.items) lines.now)) e) }
{
    let mut run = begin_run(alloc, image, lines, answers, calls)?;
    let Ok(end) = run.go(limit) else {
        return Err(Refusal::NoMemory);
    };
    runs_agree();
    Ok((run.machine, end))
}
