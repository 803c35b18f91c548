//! What a debugger shows is what a run of as many steps comes to.
use crate::fault::{Fault, refused};
use crate::given::{Given, Run};
use crate::lent::lend;
use crate::views::compare_states;
use of_cell_code::CellCode;
use of_cells::Cell;
use of_code::CodeStore;
use of_debug::{DebugFault, Debugger};
use of_fcodes::FIRST_OWN;
use of_machine::{Machine, loaded_machine};
use of_random::Numbers;
use of_refusal::Refusal;
use std::alloc::Global;

/// How many steps are made at most.
const MOST: u64 = 300;

/// How many states are compared.
const STATES: u64 = 4;

/// Why a debugger makes no step, where it is more than that.
fn settle(answer: Result<(), DebugFault>) -> Result<(), Fault> {
    match answer {
        Err(DebugFault::NoMemory) => Err(Fault::NoMemory),
        _ => Ok(()),
    }
}

/// Gives a random command.
fn command<C: CodeStore>(
    numbers: &mut Numbers,
    debugger: &mut Debugger<'_, C>,
) -> Result<(), Fault> {
    let word = (numbers.word() & 3).wrapping_mul(4);
    let xt = Cell(FIRST_OWN.wrapping_add(word));
    let count = numbers.below(60);
    settle(match numbers.below(8) {
        0 | 1 => debugger.step_in(),
        2 => debugger.step_over(),
        3 => debugger.step_out(),
        4 | 5 => debugger.go(count as u64),
        6 => debugger.break_at(xt, count & 7),
        _ => debugger.clear(xt, count & 7),
    })
}

/// Looks whether a machine shows what a run does.
fn compare_run<C: CodeStore>(machine: &Machine<C>, run: &Run) -> Result<(), Fault> {
    match run {
        Ok((wanted, _)) => compare_states(machine, wanted),
        Err(refusal) => Err(refused(*refusal, None)),
    }
}

/// Looks whether a debugger shows the run of as many steps, with its question open where one is; answers how many
/// were made.
fn compare_shown<C: CodeStore>(
    alloc: Global,
    given: &Given,
    debugger: &Debugger<'_, C>,
) -> Result<u64, Fault> {
    let (made, machine) = debugger.shown();
    let limit = match machine.question() {
        Some(_) => made.saturating_add(1),
        None => made,
    };
    lend(given.run(alloc, limit), |run| compare_run(machine, run))?;
    Ok(made)
}

/// Gives commands, and compares what is shown behind two each.
fn follow<C: CodeStore>(
    alloc: Global,
    given: &Given,
    numbers: &mut Numbers,
    debugger: &mut Debugger<'_, C>,
) -> Result<Debugged, Fault> {
    let mut debugged = Debugged::default();
    for _ in 0..STATES {
        command(numbers, debugger)?;
        command(numbers, debugger)?;
        debugged.steps = compare_shown(alloc, given, debugger)?;
        debugged.states = debugged.states.saturating_add(1);
    }
    Ok(debugged)
}

/// How many states were compared, and how many steps were made.
#[derive(Clone, Copy, Default)]
pub struct Debugged {
    /// States.
    pub states: u64,
    /// Steps.
    pub steps: u64,
}

/// A debugger of the run of what is given.
fn debugger_of(alloc: Global, given: &Given) -> Result<Debugger<'_, CellCode>, Refusal> {
    let machine = loaded_machine(alloc, &given.image, &given.lines)?;
    Ok(Debugger::new(machine, &given.lines, &given.answers, &[], MOST))
}

/// Looks whether an image that a debugger refused is refused by a run.
fn compare_refusals(refusal: Refusal, run: &Run) -> Result<Debugged, Fault> {
    match run {
        Err(other) if *other == refusal && refusal != Refusal::NoMemory => Ok(Debugged::default()),
        Err(other) => Err(refused(refusal, Some(*other))),
        Ok(_) => Err(refused(refusal, None)),
    }
}

/// Looks whether a debugger shows the states of the run of what is given.
pub fn compare(alloc: Global, given: &Given, numbers: &mut Numbers) -> Result<Debugged, Fault> {
    lend(debugger_of(alloc, given), |debugger| match debugger {
        Ok(debugger) => follow(alloc, given, numbers, debugger),
        Err(refusal) => {
            lend(
                given.run(alloc, MOST),
                |run| compare_refusals(*refusal, run),
            )
        }
    })
}
