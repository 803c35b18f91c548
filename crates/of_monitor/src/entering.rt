ghost use Rattle.std.specs.Prelude.{◌≡◌, IfErr, None, OnErr, OnOk, is_some, map, true};
ghost use Rattle.of_machine.specs.States.{Refuses};
ghost use Rattle.of_state.specs.State.{flat_calls};
ghost use Rattle.of_monitor.specs.Sessions.{IsBroken, entered, entry_refusal};

use crate::attending::attend;
use of_code::CodeStore;
use of_devices::Rack;
use of_machine::Machine;
use of_refusal::Refusal;

/// Reads a console line and runs it for at most `limit` steps (Forth 2012, 3.4; IEEE 1275-1994, 7.3). Where something
/// runs that the line before has begun, an empty line lets it go on for as many.
///
/// Busy where something runs and the line isn't empty, then LineTooLong over 255 bytes, which change nothing; and
/// NoMemory, where the line is to be handed in and isn't, or, as by `attend`, where the next of its steps may grow.
pub fn enter<C: CodeStore>(
    machine: &mut Machine<C>,
    rack: &mut Rack,
    line: &[u8],
    limit: u64,
) -> Result<(), Refusal>
    requires calm { machine.old.waiting ≡ None }
    ensures accepted { OnOk result (entry_refusal machine.old line.now ≡ None) }
    ensures entered { OnOk result ((machine.new, map (λ d. meant d) rack.new.items)
        ≡ entered flat_calls limit line.now (machine.old, map (λ d. meant d) rack.old.items)) }
    ensures calm { OnOk result (machine.new.waiting ≡ None) }
    ensures refused { IfErr result (Refuses (entry_refusal machine.old line.now)) }
    ensures unchanged { is_some (entry_refusal machine.old line.now) ≡ true → (machine.new ≡ machine.old)
        × (map (λ d. meant d) rack.new.items ≡ map (λ d. meant d) rack.old.items) }
    ensures broken { OnErr result (IsBroken limit line.now (machine.old, map (λ d. meant d) rack.old.items)
        (machine.new, map (λ d. meant d) rack.new.items)) }
{
    if !(machine.is_running() && line.is_empty()) {
        machine.line(line)?;
    }
    match attend(machine, rack, limit) {
        Ok(()) => Ok(()),
        Err(_) => Err(Refusal::NoMemory),
    }
}
