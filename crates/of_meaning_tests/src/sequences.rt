//! All short sequences of control words that are sources.
use crate::compare::{Ends, check, image_of};
use std::alloc::Global;
use std::process::Abort;
use std::test::Fail;

/// The words that begin, go on with or end a structure.
const WORDS: [&str; 17] = [
    "if", "else", "then", "begin", "while", "repeat", "until", "again", "do", "?do", "loop",
    "+loop", "leave", "case", "of", "endof", "endcase",
];

/// How many sequences there are of each length that is tried.
const COUNTS: [(u32, usize); 4] = [(1, 17), (2, 289), (3, 4_913), (4, 83_521)];

/// How many of them are sources, as another program counts them, with a stack of what is open: `then`, `else` and
/// `repeat` close a branch that no open structure hides, `while` is an `if`, and `until`, `again` and `repeat` close a
/// `begin` beneath branches.
const SOURCES: u32 = 196;

/// Numbers that stand on the stack at first.
const STACKS: [&str; 4] = ["1 0 3 0 1 2 0 1", "0 1 0 3 1 0 1 0", "2 2 1 1 0 0", "1 0"];

/// The words of a number in base 17, and behind each one that prints how many stand before.
fn words_of(alloc: Global, number: usize, length: u32) -> Result<String, Fail> {
    let mut text = String::new(alloc);
    let mut rest = number;
    for place in 0..length {
        let word = WORDS[rest % 17];
        rest /= 17;
        write!(text, "{word} {place} . ")?;
    }
    Ok(text)
}

/// Sees that a sequence, if it is a source, comes to what its words come to, outside a definition with offsets of two
/// bytes and within one with offsets of one, on each stack; answers whether it is.
fn try_words<R: Abort>(rt: &R, alloc: Global, words: &str, ends: &mut Ends) -> Result<bool, Fail> {
    if image_of(alloc, "fcode-version2", words)?.is_none() {
        return Ok(false);
    }
    for numbers in STACKS {
        let outside = format!(in alloc; "{numbers} {words}")?;
        try_program(rt, alloc, "fcode-version2", outside.as_str(), ends)?;
        let within = format!(in alloc; ": w1 {words}; {numbers} w1")?;
        try_program(rt, alloc, "fcode-version1", within.as_str(), ends)?;
    }
    Ok(true)
}

/// Sees that a program comes to what its words come to.
fn try_program<R: Abort>(
    rt: &R,
    alloc: Global,
    header: &str,
    program: &str,
    ends: &mut Ends,
) -> Result<(), Fail> {
    match image_of(alloc, header, program)? {
        Some(image) => check(rt, alloc, &image, program, ends),
        None => Ok(()),
    }
}

/// All sequences of up to four words.
#[test]
fn sequences_are_walked(rt: HostRuntime) -> Result<(), Fail> {
    let mut sources = 0u32;
    let mut ends = Ends::default();
    for (length, count) in COUNTS {
        for number in 0..count {
            let words = words_of(rt.alloc(), number, length)?;
            if try_words(&rt, rt.alloc(), words.as_str(), &mut ends)? {
                sources = sources.saturating_add(1);
            }
        }
    }
    assert_eq!(rt; sources, SOURCES);
    assert_eq!(rt; ends.all(), Some(SOURCES * 8));
    Ok(())
}
