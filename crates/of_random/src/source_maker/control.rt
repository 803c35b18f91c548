//! Control structures of random sources.
use super::Maker;
use std::alloc::AllocError;

/// What is open.
#[derive(Clone, Copy, Default, PartialEq, Eq)]
pub(super) enum Open {
    /// `if`, before its `else`.
    #[default]
    If,
    /// `else`.
    Else,
    /// `begin`, before a `while`.
    Begin,
    /// `while`.
    While,
    /// `do` or `?do`.
    Do,
    /// `case`.
    Case,
    /// `of`.
    Of,
}

impl Maker {
    /// Opens a structure, unless too many are open.
    pub(super) fn begin(&mut self) -> Result<(), AllocError> {
        let (open, words) = match self.numbers.below(6) {
            0 | 1 => (Open::If, "if"),
            2 => (Open::Begin, "begin"),
            3 => (Open::Do, "3 0 do"),
            4 => (Open::Do, "3 and 0 ?do"),
            _ => (Open::Case, "2 case"),
        };
        match self.open.try_push(open) {
            Ok(()) => self.put(words),
            Err(_) => Ok(()),
        }
    }

    /// Puts another one in the place of the innermost structure.
    fn becomes(&mut self, open: Open) {
        let _ = self.open.pop();
        let _ = self.open.try_push(open);
    }

    /// Goes on with the innermost structure, or closes it.
    pub(super) fn go_on(&mut self) -> Result<(), AllocError> {
        let Some(open) = self.open.last().copied() else {
            return Ok(());
        };
        match (open, self.numbers.below(3)) {
            (Open::If, 0) => {
                self.becomes(Open::Else);
                self.put("else")
            }
            (Open::Begin, 0) => {
                self.becomes(Open::While);
                self.put("dup while")
            }
            (Open::Do, 0) => self.put("i ."),
            (Open::Do, 1) => self.put("dup if leave then"),
            (Open::Case, 0 | 1) if !self.open.is_full() => {
                let _ = self.open.try_push(Open::Of);
                self.put("2 of")
            }
            _ => self.close(),
        }
    }

    /// Closes the innermost structure.
    pub(super) fn close(&mut self) -> Result<(), AllocError> {
        let is_other = self.numbers.one_in(4);
        match self.open.pop() {
            Some(Open::If | Open::Else) => self.put("then"),
            Some(Open::Begin) if is_other => self.put("again"),
            Some(Open::Begin) => self.put("1 - dup 0= until"),
            Some(Open::While) => self.put("1 - repeat"),
            Some(Open::Do) if is_other => self.put("2 +loop"),
            Some(Open::Do) => self.put("loop"),
            Some(Open::Case) => self.put("endcase"),
            Some(Open::Of) => self.put("endof"),
            None => Ok(()),
        }
    }

    /// Leaves a definition, or throws, or calls it within itself.
    pub(super) fn leave(&mut self) -> Result<(), AllocError> {
        let loops = self.open.iter().filter(|open| **open == Open::Do).count();
        match (loops, self.numbers.below(6)) {
            (0, 0 | 1) => self.put("dup if exit then"),
            (1, 0 | 1) => self.put("dup if unloop exit then"),
            (_, 2) => self.put("dup if 7 throw then"),
            (_, 3) => self.put("dup 3 = if 1 - recurse then"),
            (_, 4) => self.put("\" nonsense\" evaluate"),
            _ => Ok(()),
        }
    }
}
