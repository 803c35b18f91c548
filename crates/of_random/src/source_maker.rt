//! Random sources, of words that mean the same in an image and on the console.
mod control;
mod words;

use crate::numbers::Numbers;
use arrayvec::ArrayVec;
use control::Open;
use std::alloc::{AllocError, Global};
use words::{BEFORE, DATA, PLAIN, RUNNING};

/// A line that has so many bytes is full.
const FULL: usize = 190;

/// How many structures are open at once.
const MOST_OPEN: usize = 5;

/// In which state words stand, which makes some of them others on the console.
#[derive(Clone, Copy)]
enum State {
    /// They are done as they are read.
    Interpreting,
    /// They are appended to a definition.
    Compiling,
}

impl State {
    /// The word that gives the execution token of the next name.
    fn tick(self) -> &'static str {
        match self {
            State::Interpreting => "'",
            State::Compiling => "[']",
        }
    }

    /// The word that gives the number of the next character.
    fn character(self) -> &'static str {
        match self {
            State::Interpreting => "char",
            State::Compiling => "[char]",
        }
    }
}

/// A source.
#[derive(Drop)]
pub struct SourceText {
    /// Its text.
    pub text: Vec<u8>,
    /// Its definitions and the words behind them, as console lines.
    pub lines: Vec<Vec<u8>>,
}

/// The source so far: its whole lines, the one that is written, and what is open.
#[derive(Drop)]
struct Maker {
    alloc: Global,
    numbers: Numbers,
    lines: Vec<Vec<u8>>,
    line: Vec<u8>,
    open: ArrayVec<Open, MOST_OPEN>,
}

impl Maker {
    /// Nothing yet.
    fn new(alloc: Global, numbers: Numbers) -> Maker {
        Maker {
            alloc,
            numbers,
            lines: Vec::new(alloc),
            line: Vec::new(alloc),
            open: ArrayVec::new(),
        }
    }

    /// Ends the line.
    fn end_line(&mut self) -> Result<(), AllocError> {
        let line = self.line.as_slice().to_vec(self.alloc)?;
        self.line.clear();
        self.lines.push(line)?;
        Ok(())
    }

    /// Appends words that stand on one line; those of a definition may begin another line.
    fn put(&mut self, words: &str) -> Result<(), AllocError> {
        self.line.extend_from_slice(words.as_bytes())?;
        self.line.push(b' ')?;
        Ok(())
    }

    /// Appends one of these.
    fn put_one_of(&mut self, list: &[&'static str]) -> Result<(), AllocError> {
        let words = self.numbers.one_of(list, "");
        self.put(words)
    }

    /// One of the definitions, called or caught.
    fn call(&mut self, defined: usize, state: State) -> Result<(), AllocError> {
        if defined == 0 {
            return Ok(());
        }
        let number = self.numbers.below(defined);
        let tick = state.tick();
        let words = if self.numbers.one_in(2) {
            format!(in self.alloc; "word-{number}")?
        } else {
            format!(in self.alloc; "{tick} word-{number} catch .")?
        };
        self.put(words.as_str())
    }

    /// A phrase that opens nothing.
    fn flat_phrase(&mut self, defined: usize, state: State) -> Result<(), AllocError> {
        match self.numbers.below(16) {
            0..=7 => self.put_one_of(&PLAIN),
            8..=10 => self.put_one_of(&DATA),
            11 | 12 => self.put_one_of(&RUNNING),
            13 => {
                self.put(state.character())?;
                self.put("x emit")
            }
            _ => self.call(defined, state),
        }
    }

    /// A phrase of a definition, behind which a full line ends.
    fn phrase(&mut self, defined: usize) -> Result<(), AllocError> {
        match self.numbers.below(16) {
            0..=9 => self.flat_phrase(defined, State::Compiling)?,
            10 | 11 => self.begin()?,
            12..=14 => self.go_on()?,
            _ => self.leave()?,
        }
        if self.line.len() > FULL {
            self.end_line()?;
        }
        Ok(())
    }

    /// A definition.
    fn define(&mut self, number: usize) -> Result<(), AllocError> {
        let name = format!(in self.alloc; ": word-{number}")?;
        self.put(name.as_str())?;
        for _ in 0..self.numbers.below(24) {
            self.phrase(number)?;
        }
        for _ in 0..MOST_OPEN {
            self.close()?;
        }
        self.put(";")?;
        self.end_line()
    }

    /// What is defined, and words behind it on a line of their own.
    fn fill(&mut self) -> Result<(), AllocError> {
        for words in BEFORE {
            self.put(words)?;
            self.end_line()?;
        }
        let defined = self.numbers.below(4);
        for number in 0..defined {
            self.define(number)?;
        }
        self.put("3 1 2 0 2 1 3 2")?;
        for _ in 0..24 {
            if self.line.len() < FULL {
                if self.numbers.one_in(2) {
                    self.put("2")?;
                }
                self.flat_phrase(defined, State::Interpreting)?;
            }
        }
        self.end_line()
    }
}

/// The beginnings of sources.
const HEADERS: [&str; 4] = [
    "fcode-version2 headerless",
    "fcode-version2 headers",
    "fcode-version2 external",
    "fcode-version1 headerless",
];

/// A random source.
pub fn random_source(alloc: Global, numbers: &mut Numbers) -> Result<SourceText, AllocError> {
    let header = numbers.one_of(&HEADERS, "");
    let seed = u64::from(numbers.word());
    let mut maker = Maker::new(alloc, Numbers::new(seed));
    maker.fill()?;
    let mut text = header.as_bytes().to_vec(alloc)?;
    for line in &maker.lines {
        text.push(b'\n')?;
        text.extend_from_slice(line)?;
    }
    text.extend_from_slice(b"\nfcode-end\n")?;
    Ok(SourceText {
        text,
        lines: maker.lines,
    })
}
