//! Definitions of images.
use super::Maker;
use std::alloc::AllocError;

/// The first number of the image's own words.
const FIRST: u16 = 0x800;

/// Names that own words are given.
const NAMES: [&str; 8] = [
    "word-1", "word-2", "open", "close", "put", "got", "selftest", "dup",
];

/// What makes a definition that is none of colon, behind its operand.
const KINDS: [u16; 7] = [0x0b8, 0x0ba, 0x0b9, 0x0bb, 0x0bc, 0x0bd, 0x0be];

/// The number of the own word of a place.
fn number_of(place: usize) -> u16 {
    FIRST.wrapping_add((place & 0xff) as u16)
}

impl Maker {
    /// The number of one of the own words, now and then of one that isn't made yet.
    pub(super) fn own_word(&mut self) -> u16 {
        let more = if self.numbers.one_in(24) { 1 } else { 0 };
        let count = self.made.saturating_add(more);
        number_of(self.numbers.below(count))
    }

    /// A token that gives the next definition its number, now and then one that is given already.
    fn put_number(&mut self) -> Result<(), AllocError> {
        let place = if self.numbers.one_in(20) {
            self.numbers.below(self.made)
        } else {
            self.made
        };
        let number = number_of(place);
        match self.numbers.below(4) {
            0 | 1 => self.tokens.put(0x0b5)?,
            2 => self.put_named(0x0b6)?,
            _ => self.put_named(0x0ca)?,
        }
        self.tokens.put(number)
    }

    /// `named-token` or `external-token` with a name.
    fn put_named(&mut self, code: u16) -> Result<(), AllocError> {
        let name = self.numbers.one_of(&NAMES, "");
        self.tokens.put(code)?;
        self.tokens.put_text(name.as_bytes())
    }

    /// A definition, where nothing is open.
    pub(super) fn define(&mut self) -> Result<(), AllocError> {
        match self.numbers.below(4) {
            0 => self.define_other()?,
            _ => self.define_colon()?,
        }
        self.made = self.made.saturating_add(1);
        Ok(())
    }

    /// A colon definition.
    fn define_colon(&mut self) -> Result<(), AllocError> {
        self.put_number()?;
        self.tokens.put(0x0b7)?;
        self.in_word = true;
        self.phrases(10)?;
        self.in_word = false;
        if self.numbers.one_in(40) {
            return Ok(());
        }
        self.tokens.put(0x0c2)
    }

    /// Another definition, mostly with its operand before it.
    fn define_other(&mut self) -> Result<(), AllocError> {
        if !self.numbers.one_in(10) {
            let number = self.numbers.cell();
            self.tokens.put_literal(number)?;
        }
        if self.numbers.one_in(5) {
            self.tokens.put(0x0c0)?;
        }
        self.put_number()?;
        let kind = self.numbers.one_of(&KINDS, 0x0b8);
        self.tokens.put(kind)
    }

    /// A call of an own word within `catch`, which prints what it throws.
    fn put_caught(&mut self) -> Result<(), AllocError> {
        let word = self.own_word();
        self.tokens.put_all(&[0x011, word, 0x217, 0x09d])
    }

    /// A call of an own word, if there is one, mostly within `catch`, or another use of it.
    pub(super) fn call(&mut self) -> Result<(), AllocError> {
        if self.made == 0 {
            return Ok(());
        }
        if !self.in_word && !self.numbers.one_in(8) {
            return self.put_caught();
        }
        let word = self.own_word();
        match self.numbers.below(8) {
            0..=2 => self.tokens.put(word),
            3 | 4 => self.put_caught(),
            5 => self.tokens.put_all(&[0x011, word, 0x01d]),
            6 => self.tokens.put_all(&[0x0a7, 0x0c3, word]),
            _ => {
                let code = self.numbers.one_of(&ON_WORDS, 0x086);
                self.tokens.put_all(&[0x011, word, code])
            }
        }
    }
}

/// What is done with an execution token.
const ON_WORDS: [u16; 5] = [0x086, 0x0de, 0x0dd, 0x085, 0x046];
