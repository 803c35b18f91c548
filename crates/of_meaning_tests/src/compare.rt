//! A program walked, and its image run.
use crate::walk::{Ending, Walk};
use of_machine::{End, ScriptMachine, run_script};
use of_source::parse;
use of_tok::tokenize;
use std::alloc::Global;
use std::process::Abort;
use std::test::Fail;

/// So many words are walked at most.
const WORDS: u32 = 400;

/// So many steps are made at most, which are enough for the words.
const STEPS: u64 = 1_700;

/// What stands before each program: the bytes of an image that adds 2 and 3, where they are loaded from.
const BEFORE: &str = "\
create b5 h# f1 c, 8 c, 0 c, 0 c, 0 c, 0 c, 0 c, 0 c, h# a7 c, h# a8 c, h# 1e c, 0 c,";

/// How many programs came to each end.
#[derive(Clone, Copy, Default)]
pub struct Ends {
    /// They were done.
    pub done: u32,
    /// They threw.
    pub thrown: u32,
    /// They were going on.
    pub going: u32,
}

impl Ends {
    /// How many programs there were, if each end was met.
    pub fn all(&self) -> Option<u32> {
        if self.done == 0 || self.thrown == 0 || self.going == 0 {
            return None;
        }
        self.done.checked_add(self.thrown)?.checked_add(self.going)
    }
}

/// The image of a program, if it is a source.
pub fn image_of(alloc: Global, header: &str, program: &str) -> Result<Option<Vec<u8>>, Fail> {
    let text = format!(in alloc; "{header} headerless {BEFORE} {program} fcode-end")?;
    match parse(alloc, text.as_bytes()) {
        Ok(source) => Ok(Some(tokenize(alloc, &source)?)),
        Err(_) => Ok(None),
    }
}

/// Sees that the image of a program comes to what its words come to.
pub fn check<R: Abort>(
    rt: &R,
    alloc: Global,
    image: &[u8],
    program: &str,
    ends: &mut Ends,
) -> Result<(), Fail> {
    let mut words: Vec<&str> = Vec::new(alloc);
    for word in program.split_whitespace() {
        words.push(word)?;
    }
    let mut walk = Walk::new();
    let ending = walk.run(&words, WORDS);
    let (machine, end) = run_script(alloc, image, &[], &[], &[], STEPS)?;
    let walked = std::str::from_utf8(&walk.printed).unwrap_or("");
    let printed = std::str::from_utf8(machine.console()).unwrap_or("");
    assert!(rt;
        agrees(alloc, &walk, ending, &machine, end)?,
        "{program}: {walked}: {printed}"
    );
    match ending {
        Ending::Done => ends.done = ends.done.saturating_add(1),
        Ending::Thrown(_) => ends.thrown = ends.thrown.saturating_add(1),
        Ending::Going => ends.going = ends.going.saturating_add(1),
    }
    Ok(())
}

/// Whether a run comes to what a walk came to.
fn agrees(
    alloc: Global,
    walk: &Walk,
    ending: Ending,
    machine: &ScriptMachine,
    end: End,
) -> Result<bool, Fail> {
    let (printed, walked) = (machine.console(), walk.printed.as_slice());
    match ending {
        Ending::Done => {
            let stack = machine.stack();
            let same = stack.len() == walk.stack.len()
                && stack
                    .iter()
                    .zip(walk.stack.iter())
                    .all(|(cell, number)| cell.0 == *number);
            Ok(end == End::Done && printed == walked && same)
        }
        Ending::Thrown(number) => {
            let fault = if number < 0x8000_0000 {
                format!(in alloc; "fault {number}: ")?
            } else {
                format!(in alloc; "fault -{}: ", number.wrapping_neg())?
            };
            let behind = printed.get(walked.len()..).unwrap_or(b"");
            Ok(
                end == End::Done
                    && printed.starts_with(walked)
                    && behind.starts_with(fault.as_bytes()),
            )
        }
        Ending::Going => Ok(printed.starts_with(walked) || walked.starts_with(printed)),
    }
}
