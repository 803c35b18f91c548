//! Random images and sources, on which ways to do the same thing are compared: runs over both stores of code, listings
//! and what they read back as, images of sources and the same text on the console, a debugger and undisturbed runs, and
//! runs that are divided and runs in whole. Without arguments some rounds are made, always the same; `of_fuzz SEED
//! ROUNDS` makes others. The status is 1 where something differs, and each difference is said with the seed of its
//! round, with which `of_fuzz SEED 1` makes it again, and `of_fuzz SEED` prints its inputs. `of_fuzz quiet` makes calls
//! that take no memory between two lines of its output, for a script that refuses all memory meanwhile.
#![tactic(auto)]

mod debugged;
mod fault;
mod given;
mod halves;
mod lent;
mod lists;
mod program;
mod quiet;
mod round;
mod sources;
mod stores;
mod tally;
mod views;

use hex::encode;
use round::{inputs_of, round};
use std::env;
use std::process::ExitCode;
use tally::Tally;

/// The seed of the first round, where none is given.
const SEED: u64 = 1;

/// How many rounds are made, where none are asked for.
const ROUNDS: u64 = 1_000;

/// What the arguments ask for.
enum Request {
    /// So many rounds, the first one with this seed.
    Rounds(u64, u64),
    /// The inputs of the round of a seed.
    Inputs(u64),
    /// The calls that take no memory.
    Quiet,
}

/// What the arguments ask for, if it is anything.
fn asked(rt: &HostRuntime) -> Option<Request> {
    let words: Vec<String> = env::args(rt).ok()?.collect(rt.alloc()).ok()?;
    match words.as_slice() {
        [_] => Some(Request::Rounds(SEED, ROUNDS)),
        [_, word] if word.as_str() == "quiet" => Some(Request::Quiet),
        [_, seed] => Some(Request::Inputs(seed.parse::<u64>().ok()?)),
        [_, seed, rounds] => {
            Some(Request::Rounds(seed.parse::<u64>().ok()?, rounds.parse::<u64>().ok()?))
        }
        _ => None,
    }
}

/// Prints lines.
fn print_lines(rt: &HostRuntime, lines: &[Vec<u8>]) -> Option<()> {
    for line in lines {
        let text = std::str::from_utf8(line).ok()?;
        println!(rt; "{text}").ok()?;
    }
    Some(())
}

/// Prints the inputs of the round of a seed: the lines of its program, and the image and the lines behind it.
fn show(rt: &HostRuntime, seed: u64) -> Option<()> {
    let inputs = inputs_of(rt.alloc(), seed).ok()?;
    print_lines(rt, &inputs.program.lines)?;
    let image = encode(rt.alloc(), inputs.given.image.as_slice()).ok()?;
    println!(rt; "{image}").ok()?;
    print_lines(rt, &inputs.given.lines)
}

/// Makes the round of a seed, and prints what differs.
fn make(rt: &HostRuntime, seed: u64, tally: &mut Tally) -> Option<()> {
    let differences = round(rt.alloc(), seed, tally).ok()?;
    for difference in differences.found.iter() {
        println!(rt; "seed {seed}: {difference}").ok()?;
    }
    Some(())
}

/// Makes so many rounds, each with a seed one higher than the one before, and prints the tally; answers whether
/// something differs.
fn make_all(rt: &HostRuntime, seed: u64, rounds: u64) -> Option<bool> {
    let mut tally = Tally::default();
    for number in 0..rounds {
        make(rt, seed.wrapping_add(number), &mut tally)?;
    }
    println!(rt; "{tally}").ok()?;
    Some(tally.differing > 0)
}

/// Does what the arguments ask for; answers whether something differs. None where they ask for nothing, and where
/// memory or the output fails.
fn run(rt: &HostRuntime) -> Option<bool> {
    match asked(rt)? {
        Request::Rounds(seed, rounds) => make_all(rt, seed, rounds),
        Request::Inputs(seed) => {
            show(rt, seed)?;
            Some(false)
        }
        Request::Quiet => {
            quiet::make(rt)?;
            Some(false)
        }
    }
}

fn main(rt: HostRuntime) -> ExitCode {
    match run(&rt) {
        Some(false) => ExitCode::from(0),
        Some(true) => ExitCode::from(1),
        None => ExitCode::from(2),
    }
}
