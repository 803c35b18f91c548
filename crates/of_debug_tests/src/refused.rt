//! A script in which each growth is refused in turn: a refused call leaves whole steps, and goes on when it is made
//! again for the rest.
use crate::marks::LOOPS;
use crate::shared::lend;
use of_cells::Cell;
use of_code::CodeStore;
use of_debug::{DebugFault, Debugger};
use of_fcodes::FCode;
use of_machine::{Machine, loaded_machine, run_script};
use std::alloc::Global;
use std::process::Abort;
use std::test::Fail;

/// How far `go` goes at most, with a mark in the loop once it is there, and behind `|` how many steps are made then,
/// and the data stack.
const STOPS: &str = "\
17|17 5
100|24 4 ffffffff
100|33 3 ffffffff
100|42 2 0
100|46";

/// Marks the second `while` of `t`, if that is defined.
fn mark<C: CodeStore>(debugger: &mut Debugger<'_, C>) -> Result<(), DebugFault> {
    match debugger.shown().1.token(FCode(0x800)) {
        Some(t) => debugger.break_at(t, 7),
        None => Ok(()),
    }
}

/// The position of the token that comes next, if one does.
fn position<C: CodeStore>(machine: &Machine<C>) -> Option<usize> {
    match machine.next_token() {
        Some((position, _)) => Some(position),
        None => None,
    }
}

/// Whether two machines look alike.
fn are_alike<C: CodeStore, D: CodeStore>(one: &Machine<C>, other: &Machine<D>) -> bool {
    one.steps() == other.steps()
        && position(one) == position(other)
        && one.depth() == other.depth()
        && one.stack() == other.stack()
        && one.console() == other.console()
}

/// Whether a machine is where the run of the loops is behind as many steps.
fn is_whole<C: CodeStore>(alloc: Global, machine: &Machine<C>) -> Result<bool, Fail> {
    let (run, _) = run_script(alloc, &LOOPS, &[], &[], &[], machine.steps())?;
    Ok(lend(run, |run| are_alike(run, machine)))
}

/// Goes on for so many steps at most, again for the rest where memory is refused. False where it is refused otherwise,
/// and where a refusal takes steps back or leaves one half made.
fn goes_on<C: CodeStore>(
    alloc: Global,
    debugger: &mut Debugger<'_, C>,
    most: u64,
) -> Result<bool, Fail> {
    let mut made = debugger.shown().0;
    let last = made.saturating_add(most);
    for _ in 0..9 {
        match debugger.go(last.saturating_sub(made)) {
            Ok(()) => return Ok(true),
            Err(DebugFault::NoMemory) => {}
            Err(_) => return Ok(false),
        }
        if debugger.shown().0 < made || !is_whole(alloc, debugger.shown().1)? {
            return Ok(false);
        }
        made = debugger.shown().0;
    }
    Ok(false)
}

/// Whether a stack has these cells, the bottom first.
fn is_stack(cells: &[Cell], words: &str) -> bool {
    cells.len() == words.split_whitespace().count()
        && cells.iter().zip(words.split_whitespace()).all(|(cell, word)| u32::from_str_radix(
            word, 16,
        ).ok()
            == Some(cell.0))
}

/// Whether a debugger shows so many steps, and these cells.
fn is_at<C: CodeStore>(debugger: &Debugger<'_, C>, state: &str) -> bool {
    let (steps, cells) = state.split_once(' ').unwrap_or((state, ""));
    let (made, machine) = debugger.shown();
    u64::from_str_radix(steps, 10).ok() == Some(made) && is_stack(machine.stack(), cells)
}

/// Goes from stop to stop.
fn stop_in_turn<C: CodeStore>(
    rt: &impl Abort,
    alloc: Global,
    debugger: &mut Debugger<'_, C>,
) -> Result<(), Fail> {
    for stop in STOPS.lines() {
        let (most, state) = stop.split_once('|').unwrap_or(("", ""));
        mark(debugger)?;
        let went = goes_on(alloc, debugger, most.parse()?)?;
        assert!(rt; went && is_at(debugger, state), "{stop}");
    }
    assert_eq!(rt; debugger.shown().1.console(), b"2 ".as_slice());
    Ok(())
}

/// Each growth is refused in turn, if there is memory for a machine with its image.
#[test]
fn refused_memory(rt: HostRuntime) -> Result<(), Fail> {
    let alloc = rt.alloc();
    let Ok(machine) = loaded_machine(alloc, &LOOPS, &[]) else {
        return Ok(());
    };
    let debugger = Debugger::new(machine, &[], &[], &[], 99);
    lend(debugger, |debugger| stop_in_turn(&rt, alloc, debugger))
}
