//! Runs the examples: makes the image of each source, compares it with the image that stands beside it,
//! and prints what the image prints.
#![tactic(auto)]

use hex::encode;
use of_machine::run_script;
use of_source::parse;
use of_tok::tokenize;
use std::fs;
use std::process::ExitCode;

/// How many steps an example takes at most.
const LIMIT: u64 = 10_000;

/// The sources, each with its image beside it.
const SOURCES: [&str; 6] = [
    "card",
    "counter",
    "kinds",
    "timer",
    "two-arms",
    "two-whiles",
];

/// The image of a source, in hexadecimal digits and a newline, and what it prints.
fn outcome(rt: &HostRuntime, source: &str) -> Option<(String, Vec<u8>)> {
    let source = parse(rt.alloc(), source.as_bytes()).ok()?;
    let image = tokenize(rt.alloc(), &source).ok()?;
    let mut digits = encode(rt.alloc(), image.as_slice()).ok()?;
    digits.push('\n').ok()?;
    let (machine, _) = run_script(rt.alloc(), &image, &[], &[], &[], LIMIT).ok()?;
    let printed = machine.console().to_vec(rt.alloc()).ok()?;
    Some((digits, printed))
}

/// Prints a line of an example: its name, whether its image is the one beside it, and what that prints.
fn show(rt: &HostRuntime, name: &str) -> Option<()> {
    let source = fs::read_to_string(rt, format!(in rt.alloc(); "{name}.fs").ok()?).ok()?;
    let beside = fs::read_to_string(rt, format!(in rt.alloc(); "{name}.hex").ok()?).ok()?;
    let (image, printed) = outcome(rt, &source)?;
    let same = if image == beside {
        "its image"
    } else {
        "another image"
    };
    let printed = std::str::from_utf8(&printed).ok()?;
    println!(rt; "{name}: {same}: {printed}").ok()
}

/// Prints a line of each example.
fn show_all(rt: &HostRuntime) -> Option<()> {
    for name in SOURCES {
        show(rt, name)?;
    }
    Some(())
}

fn main(rt: HostRuntime) -> ExitCode {
    match show_all(&rt) {
        Some(()) => ExitCode::from(0),
        None => ExitCode::from(1),
    }
}
