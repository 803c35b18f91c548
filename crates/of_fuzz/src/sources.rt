//! The image of a source prints what the same text prints on the console.
//!
//! That isn't so of every text, and those of which it needn't be are left out: one that prints something else where the
//! data space begins elsewhere, since its strings lie elsewhere on the console; and one that fills a stack: on the
//! console one item more lies on the return stack, and a word that an image spells out in tokens, as `erase` is `0
//! fill`, takes more of the data stack there.
use crate::fault::{Fault, View, agree, refused};
use crate::lent::lend;
use crate::program::Program;
use crate::tally::{Ending, ending_of};
use of_cells::Cell;
use of_machine::{ScriptMachine, run_script};
use std::alloc::{AllocError, Global};

/// How many steps the image makes at most, and so the lines.
const STEPS: u64 = 3_000;

/// An image that does nothing.
const NOTHING: [u8; 9] = [0xf1, 0x08, 0, 0, 0, 0, 0, 9, 0];

/// A line behind which the data space begins elsewhere.
const MOVE: &str = "d# 76 allot";

/// What a throw for a full stack prints, caught or not: the data stack, and the return stack.
const FULL: [&[u8]; 2] = [b"-3", b"-5"];

/// What a run shows at its end.
#[derive(Drop)]
struct Shown {
    /// What it has printed.
    console: Vec<u8>,
    /// The data stack.
    stack: Vec<Cell>,
    /// How it stands.
    ending: Ending,
    /// Whether it goes on behind the last step that is allowed.
    goes_on: bool,
}

/// What a machine shows.
fn shown_on(alloc: Global, machine: &ScriptMachine) -> Result<Shown, Fault> {
    Ok(Shown {
        console: machine.console().to_vec(alloc)?,
        stack: machine.stack().to_vec(alloc)?,
        ending: ending_of(machine),
        goes_on: machine.is_running(),
    })
}

/// What the run of an image and of lines behind it shows.
fn left_by(alloc: Global, image: &[u8], lines: &[Vec<u8>]) -> Result<Shown, Fault> {
    let run = run_script(alloc, image, lines, &[], &[], STEPS);
    lend(run, |run| match run {
        Ok((machine, _)) => shown_on(alloc, machine),
        Err(refusal) => Err(refused(*refusal, None)),
    })
}

/// The lines of a program behind one that moves the data space.
fn moved(alloc: Global, program: &Program) -> Result<Vec<Vec<u8>>, AllocError> {
    let mut lines = Vec::new(alloc);
    lines.push(MOVE.as_bytes().to_vec(alloc)?)?;
    for line in &program.lines {
        lines.push(line.as_slice().to_vec(alloc)?)?;
    }
    Ok(lines)
}

/// Whether a text goes on with another one, or that one with it.
fn go_on(one: &[u8], other: &[u8]) -> bool {
    one.starts_with(other) || other.starts_with(one)
}

/// Looks whether two runs printed the same, and have the same on the stack where both are done.
fn compare_shown(one: &Shown, other: &Shown) -> Result<(), Fault> {
    if one.goes_on || other.goes_on {
        return agree(View::Console, go_on(&one.console, &other.console));
    }
    agree(
        View::Console,
        one.console.as_slice() == other.console.as_slice(),
    )?;
    agree(View::Stack, one.stack.as_slice() == other.stack.as_slice())
}

/// Whether a run filled a stack.
fn is_full(shown: &Shown) -> bool {
    shown
        .console
        .windows(2)
        .any(|part| FULL.iter().any(|throw| part == *throw))
}

/// Looks whether a source's image comes to what its lines come to; answers how the run of the image ended. A source
/// that is none has no image, and one that is left out isn't compared.
pub fn compare(alloc: Global, program: &Program) -> Result<Option<Ending>, Fault> {
    let Some(image) = &program.image else {
        return Ok(None);
    };
    let image = left_by(alloc, image, &[])?;
    let lines = left_by(alloc, &NOTHING, &program.lines)?;
    let elsewhere = left_by(alloc, &NOTHING, &moved(alloc, program)?)?;
    if is_full(&image) || is_full(&lines) || compare_shown(&lines, &elsewhere).is_err() {
        return Ok(None);
    }
    compare_shown(&image, &lines)?;
    Ok(Some(image.ending))
}
