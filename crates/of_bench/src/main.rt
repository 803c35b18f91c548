//! Calls of the data space, the dictionary, the return stack, the device tree and what is printed of it, as many as the
//! arguments say, so that scripts can time them or count their instructions. Without arguments it does nothing.
#![tactic(auto)]

mod dictionary;
mod nodes;
mod plain;
mod returns;
mod space;
mod texts;

use std::env;
use std::process::ExitCode;

/// Makes so many calls of a kind to a part of the board, and answers a number that depends on all of them. None where
/// there is no such part or kind, and where a call is refused.
fn calls(rt: &HostRuntime, part: &str, kind: &str, count: u32) -> Option<u32> {
    match part {
        "space" => space::calls(rt.alloc(), kind, count),
        "vector" => plain::calls(rt.alloc(), kind, count),
        "dictionary" => dictionary::calls(rt.alloc(), kind, count),
        "returns" => returns::calls(rt.alloc(), kind, count),
        "one-node" => nodes::calls(rt.alloc(), kind, false, count),
        "many-nodes" => nodes::calls(rt.alloc(), kind, true, count),
        "texts" => texts::calls(rt.alloc(), kind, count),
        _ => None,
    }
}

/// Makes the calls that the arguments ask for, and prints their number.
fn run(rt: &HostRuntime) -> Option<()> {
    let words: Vec<String> = env::args(rt).ok()?.collect(rt.alloc()).ok()?;
    let [_, part, kind, count] = words.as_slice() else {
        return Some(());
    };
    let answer = calls(rt, part, kind, count.parse::<u32>().ok()?)?;
    println!(rt; "{answer}").ok()
}

fn main(rt: HostRuntime) -> ExitCode {
    match run(&rt) {
        Some(()) => ExitCode::from(0),
        None => ExitCode::from(1),
    }
}
