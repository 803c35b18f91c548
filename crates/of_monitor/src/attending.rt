ghost use Rattle.std.specs.Prelude.{◌≡◌, ◌<◌, ◌-◌, IfOk, OnErr, OnOk, None, map};
ghost use Rattle.of_state.specs.State.{flat_calls};
ghost use Rattle.of_monitor.specs.Turns.{IsHeld, turns};

use of_code::CodeStore;
use of_devices::{Rack, ask};
use of_machine::{Machine, Progress, calls_agree};
use std::alloc::AllocError;

/// Makes steps up to one that asks, and this with the answer, or as many as are left; answers how many more can be.
///
/// An error is for memory alone, where the next step may grow.
fn go_on<C: CodeStore>(
    machine: &mut Machine<C>,
    rack: &mut Rack,
    left: u64,
) -> Result<u64, AllocError>
    requires calm { machine.old.waiting ≡ None }
    requires some { 0 < left }
    ensures turns { IfOk result (λ rest. (machine.new, map (λ d. meant d) rack.new.items)
        ≡ turns flat_calls (left - rest) (machine.old, map (λ d. meant d) rack.old.items)) }
    ensures fewer { IfOk result (λ rest. rest < left) }
    ensures calm { OnOk result (machine.new.waiting ≡ None) }
    ensures held { OnErr result (IsHeld left (machine.old, map (λ d. meant d) rack.old.items)
        (machine.new, map (λ d. meant d) rack.new.items)) }
{
    calls_agree();
    let made = machine.steps();
    let ran = machine.run(left);
    let rest = left - (machine.steps() - made);
    ran?;
    if rest == 0 {
        return Ok(0);
    }
    match machine.step()? {
        Progress::Ended => Ok(0),
        Progress::Done => Ok(rest - 1),
        Progress::Asks(query) => {
            let answer = ask(rack, query);
            match machine.answer(answer) {
                Ok(()) => Ok(rest - 1),
                Err(_) => Err(AllocError),
            }
        }
    }
}

/// Makes at most `limit` steps, until nothing runs; what a step asks is answered by the first device of a rack that
/// takes the question (IEEE 1275-1994, 5.3.7).
///
/// An error is for memory alone, where the next step may grow: the steps before it are made. If it asks, its question
/// may be open then, and the devices told it.
pub fn attend<C: CodeStore>(
    machine: &mut Machine<C>,
    rack: &mut Rack,
    limit: u64,
) -> Result<(), AllocError>
    requires calm { machine.old.waiting ≡ None }
    ensures turns { OnOk result ((machine.new, map (λ d. meant d) rack.new.items)
        ≡ turns flat_calls limit (machine.old, map (λ d. meant d) rack.old.items)) }
    ensures calm { OnOk result (machine.new.waiting ≡ None) }
    ensures held { OnErr result (IsHeld limit (machine.old, map (λ d. meant d) rack.old.items)
        (machine.new, map (λ d. meant d) rack.new.items)) }
{
    let mut left = limit;
    while left > 0 {
        left = go_on(machine, rack, left)?;
    }
    Ok(())
}
