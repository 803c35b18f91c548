//! Random programs: definitions that call, catch, throw and load, and words outside them.
use crate::compare::{Ends, check, image_of};
use arrayvec::ArrayVec;
use std::alloc::Global;
use std::process::Abort;
use std::test::Fail;

/// So many programs are tried.
const PROGRAMS: u32 = 10_000;

/// Words that open nothing and close nothing.
const PLAIN: [&str; 16] = [
    "dup", "drop", "swap", "over", "+", "-", "1 +", "1 -", "0=", ".", "0", "1", "2", "3", "dup .",
    "over .",
];

/// Phrases that run something else.
const RUNNING: [&str; 4] = [
    "\" 1 2 + . \" evaluate",
    "\" dup . 1 - \" evaluate",
    "b5 1 byte-load",
    "0 throw",
];

/// What is open.
#[derive(Clone, Copy, Default, PartialEq)]
enum Open {
    #[default]
    If,
    Else,
    Begin,
    While,
    Do,
    Case,
    Of,
}

/// The program so far, and the latest of a sequence of numbers, each a linear function of the one before it.
#[derive(Drop)]
struct Maker {
    seed: u64,
    text: String,
    open: ArrayVec<Open, 6>,
}

impl Maker {
    fn new(alloc: Global, seed: u64) -> Maker {
        Maker {
            seed,
            text: String::new(alloc),
            open: ArrayVec::new(),
        }
    }

    /// A number below this one.
    fn pick(&mut self, bound: u64) -> u64 {
        self.seed = self
            .seed
            .wrapping_mul(6_364_136_223_846_793_005)
            .wrapping_add(1_442_695_040_888_963_407);
        (self.seed >> 33) % bound.max(1)
    }

    /// One of these words.
    fn one_of<'a>(&mut self, list: &'a [&'a str]) -> &'a str {
        let number = self.pick(list.len() as u64);
        list.get(number as usize).copied().unwrap_or("")
    }

    fn put(&mut self, word: &str) -> Result<(), Fail> {
        write!(self.text, "{word} ")?;
        Ok(())
    }

    /// Opens a structure, unless too many are open.
    fn begin(&mut self) -> Result<(), Fail> {
        let (open, words) = match self.pick(6) {
            0 | 1 => (Open::If, "if"),
            2 => (Open::Begin, "begin"),
            3 => (Open::Do, "3 0 do"),
            4 => (Open::Do, "?do"),
            _ => (Open::Case, "case"),
        };
        if self.open.try_push(open).is_ok() {
            self.put(words)?;
        }
        Ok(())
    }

    /// Puts another kind in the place of what is open.
    fn becomes(&mut self, open: Option<Open>) {
        self.open.pop();
        if let Some(open) = open {
            let _ = self.open.try_push(open);
        }
    }

    /// Goes on with what is open, or closes it.
    fn go_on(&mut self) -> Result<(), Fail> {
        let Some(open) = self.open.last().copied() else {
            return Ok(());
        };
        let (word, next) = match (open, self.pick(3)) {
            (Open::If, 0) => ("else", Some(Open::Else)),
            (Open::Begin, 0) => ("while", Some(Open::While)),
            (Open::Do, 0) => ("i", Some(Open::Do)),
            (Open::Do, 1) => ("dup if leave then", Some(Open::Do)),
            (Open::Case, 0 | 1) if !self.open.is_full() => ("2 of", Some(Open::Case)),
            (open, _) => return self.close(open),
        };
        self.becomes(next);
        if open == Open::Case {
            let _ = self.open.try_push(Open::Of);
        }
        self.put(word)
    }

    /// Closes what is open.
    fn close(&mut self, open: Open) -> Result<(), Fail> {
        self.becomes(None);
        let step = self.pick(4) == 0;
        self.put(match open {
            Open::If | Open::Else => "then",
            Open::Begin if step => "again",
            Open::Begin => "1 - dup 0= until",
            Open::While => "repeat",
            Open::Do if step => "2 +loop",
            Open::Do => "loop",
            Open::Case => "endcase",
            Open::Of => "endof",
        })
    }

    /// One of the words that are defined, called or caught.
    fn call(&mut self, defined: u64) -> Result<(), Fail> {
        if defined == 0 {
            return Ok(());
        }
        let name = self.pick(defined);
        if self.pick(2) == 0 {
            write!(self.text, "w{name} ")?;
        } else {
            write!(self.text, "['] w{name} catch . ")?;
        }
        Ok(())
    }

    /// Leaves a definition, or throws.
    fn leave(&mut self, in_word: bool) -> Result<(), Fail> {
        let loops = self.open.iter().filter(|open| **open == Open::Do).count();
        match (in_word, loops, self.pick(4)) {
            (true, 0, 0) => self.put("dup if exit then"),
            (true, 1, 0 | 1) => self.put("dup if unloop exit then"),
            (_, _, 2) => self.put("dup if 7 throw then"),
            _ => Ok(()),
        }
    }

    /// So many phrases, and what closes all that they open.
    fn phrases(&mut self, count: u64, defined: u64, in_word: bool) -> Result<(), Fail> {
        for _ in 0..count {
            match self.pick(16) {
                0..=7 => {
                    let word = self.one_of(&PLAIN);
                    self.put(word)?;
                }
                8 | 9 => self.begin()?,
                10 | 11 => self.go_on()?,
                12 => self.call(defined)?,
                13 => self.leave(in_word)?,
                _ => {
                    let words = self.one_of(&RUNNING);
                    self.put(words)?;
                }
            }
        }
        for _ in 0..6 {
            if let Some(open) = self.open.last().copied() {
                self.close(open)?;
            }
        }
        Ok(())
    }

    /// Two definitions, and words outside them.
    fn program(&mut self) -> Result<(), Fail> {
        for number in 0..2u64 {
            write!(self.text, ": w{number} ")?;
            self.phrases(12, number, true)?;
            self.put(";")?;
        }
        self.put("3 1 2 0 2 1")?;
        self.phrases(16, 2, false)
    }
}

/// Sees that a random program, if it is a source, comes to what its words come to, with offsets of one byte or of two;
/// answers whether it is.
fn try_seed<R: Abort>(rt: &R, alloc: Global, seed: u32, ends: &mut Ends) -> Result<bool, Fail> {
    let mut maker = Maker::new(alloc, seed as u64);
    maker.program()?;
    let header = if seed % 2 == 0 {
        "fcode-version1"
    } else {
        "fcode-version2"
    };
    match image_of(alloc, header, maker.text.as_str())? {
        Some(image) => {
            check(rt, alloc, &image, maker.text.as_str(), ends)?;
            Ok(true)
        }
        None => Ok(false),
    }
}

/// Each of them is a source.
#[test]
fn random_programs_are_walked(rt: HostRuntime) -> Result<(), Fail> {
    let mut ends = Ends::default();
    let mut sources = 0u32;
    for seed in 0..PROGRAMS {
        if try_seed(&rt, rt.alloc(), seed, &mut ends)? {
            sources = sources.saturating_add(1);
        }
    }
    assert_eq!(rt; sources, PROGRAMS);
    assert_eq!(rt; ends.all(), Some(PROGRAMS));
    Ok(())
}
