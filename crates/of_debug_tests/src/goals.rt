//! Runs to a goal: of a machine by itself, and past marks while definitions are made.
use crate::marks::LOOPS;
use crate::shared::lend;
use of_cells::Cell;
use of_code::CodeStore;
use of_debug::{Debugger, Mark};
use of_fcodes::FCode;
use of_machine::{Machine, loaded_machine, script_machine};
use of_steps::Goal;
use std::process::Abort;
use std::test::Fail;

/// Runs to a marked item of a definition, and out of the definition.
fn run_out<C: CodeStore>(rt: &impl Abort, machine: &mut Machine<C>) -> Result<(), Fail> {
    machine.run(17)?;
    let xt = machine.token(FCode(0x800)).unwrap_or(Cell(0));
    let marks = [Mark { xt, item: 7 }];
    assert_eq!(rt; machine.run_to(&marks, Goal::Marked, 99)?, true);
    assert_eq!(rt; machine.steps(), 24);
    assert_eq!(rt; machine.is_reached(&[], Goal::Marked), false);
    let out = Goal::Shallower(machine.depth());
    assert_eq!(rt; machine.run_to(&[], out, 99)?, true);
    assert_eq!(rt; machine.steps(), 44);
    Ok(())
}

#[test]
fn machines_run_to_goals(rt: HostRuntime) -> Result<(), Fail> {
    let machine = loaded_machine(rt.alloc(), &LOOPS, &[])?;
    lend(machine, |machine| run_out(&rt, machine))
}

/// Where a run stops.
#[derive(Clone, Copy, Default)]
struct Stops {
    /// How often it does so in a definition.
    all: u32,
    /// How often of these at an item of this number, with a cell on the stack.
    wanted: u32,
}

/// Goes on from mark to mark, up to the end of the run.
fn count_stops<C: CodeStore>(debugger: &mut Debugger<'_, C>, item: usize, cell: Cell) -> Stops {
    let mut stops = Stops::default();
    for _ in 0..99 {
        if debugger.go(9999).is_err() {
            return stops;
        }
        let machine = debugger.shown().1;
        if let Some(place) = machine.place() {
            let is_wanted = place.item == item && machine.stack().last() == Some(&cell);
            stops.all = stops.all.saturating_add(1);
            stops.wanted = stops.wanted.saturating_add(u32::from(is_wanted));
        }
    }
    stops
}

/// Steps until the word of the first line is there, and counts the stops at a mark in it.
fn stops_in_first<C: CodeStore>(debugger: &mut Debugger<'_, C>) -> Option<Stops> {
    for _ in 0..99 {
        if let Some(xt) = debugger.shown().1.word(b"first") {
            debugger.break_at(xt, 1).ok()?;
            return Some(count_stops(debugger, 1, Cell(7)));
        }
        debugger.step_in().ok()?;
    }
    None
}

/// A mark is met wherever its word is run: from a line, from words that are made while it stands, in a loop that
/// prints, and in a word that catches it.
#[test]
fn marks_are_met_while_words_are_made(rt: HostRuntime) -> Result<(), Fail> {
    let alloc = rt.alloc();
    let mut lines = Vec::new(alloc);
    for line in [
        ": first 7 drop ;",
        "first",
        ": second first first ; second",
        ": third 3 0 do first i . loop ; third",
        ": fourth ['] first catch drop ; : fifth fourth ; fifth first",
    ] {
        lines.push(line.as_bytes().to_vec(alloc)?)?;
    }
    let debugger = Debugger::new(script_machine(alloc)?, &lines, &[], &[], 99_999);
    let stops = lend(debugger, stops_in_first).unwrap_or_default();
    assert_eq!(rt; stops.all, 8);
    assert_eq!(rt; stops.wanted, 8);
    Ok(())
}
