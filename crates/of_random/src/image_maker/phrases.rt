//! Phrases of images: some tokens that belong together, with operands before them.
use super::Maker;
use super::codes::{
    FETCHES, NESTED, ON_STRINGS, OTHERS, PUSHING, RANGES, READS, STORES, TAKING, TEXTS, THROWN,
    WRITES,
};
use std::alloc::AllocError;

impl Maker {
    /// So many phrases at most, and what closes all that they open.
    pub(super) fn phrases(&mut self, most: usize) -> Result<(), AllocError> {
        let count = self.numbers.below(most).saturating_add(1);
        for _ in 0..count {
            self.phrase()?;
        }
        self.close_all()
    }

    /// A phrase.
    fn phrase(&mut self) -> Result<(), AllocError> {
        match self.numbers.below(64) {
            0..=13 => self.push(),
            14..=20 => self.take(),
            21..=27 => self.operate(),
            28..=33 => self.begin(),
            34..=40 => self.go_on(),
            41..=47 => self.call(),
            _ if !self.in_word && !self.numbers.one_in(4) => self.push(),
            _ => self.rare_phrase(),
        }
    }

    /// A phrase of one of the rarer kinds.
    fn rare_phrase(&mut self) -> Result<(), AllocError> {
        match self.numbers.below(56) {
            0..=8 => self.work_on_memory(),
            9..=17 => self.work_on_string(),
            18..=21 => self.convert(),
            22..=28 => self.ask(),
            29..=32 => self.work_on_property(),
            33..=36 => self.work_on_node(),
            37..=42 => self.throw(),
            43..=47 => self.return_stack(),
            48..=51 => self.load(),
            52 | 53 => self.tokens.put_offset16(),
            54 => self.put_misfit(),
            _ => self.put_any(),
        }
    }

    /// Puts a number on the stack.
    fn push(&mut self) -> Result<(), AllocError> {
        if self.numbers.one_in(4) {
            let number = self.numbers.cell();
            return self.tokens.put_literal(number);
        }
        let code = self.numbers.one_of(&PUSHING, 0x0a5);
        self.tokens.put(code)
    }

    /// Takes numbers from the stack, mostly from under a new one.
    fn take(&mut self) -> Result<(), AllocError> {
        if !self.numbers.one_in(6) {
            self.push()?;
        }
        let code = self.numbers.one_of(&TAKING, 0x046);
        self.tokens.put(code)
    }

    /// Works on numbers, mostly with some before.
    fn operate(&mut self) -> Result<(), AllocError> {
        if !self.numbers.one_in(5) {
            self.push()?;
            self.push()?;
        }
        let (first, count) = self.numbers.one_of(&RANGES, (0x01e, 1));
        let offset = u16::try_from(self.numbers.below(count)).unwrap_or(0);
        let code = first.wrapping_add(offset);
        if (0x030..=0x033).contains(&code) {
            return Ok(());
        }
        self.tokens.put(code)
    }

    /// Reads or writes memory.
    fn work_on_memory(&mut self) -> Result<(), AllocError> {
        let address = self.numbers.address();
        let number = self.numbers.cell();
        match self.numbers.below(6) {
            0 | 1 => {
                self.tokens.put_literal(address)?;
                let code = self.numbers.one_of(&FETCHES, 0x06d);
                self.tokens.put(code)
            }
            2 | 3 => {
                self.tokens.put_literal(number)?;
                self.tokens.put_literal(address)?;
                let code = self.numbers.one_of(&STORES, 0x072);
                self.tokens.put(code)
            }
            4 => {
                self.tokens.put_literal(number)?;
                let code = self.numbers.one_of(&[0x0d0, 0x0d1, 0x0d2, 0x0d3], 0x0d3);
                self.tokens.put(code)
            }
            _ => self.copy(address),
        }
    }

    /// Copies, fills or compares bytes.
    fn copy(&mut self, address: u32) -> Result<(), AllocError> {
        let other = self.numbers.address();
        let length = self.numbers.word() & 0x1f;
        self.tokens.put_literal(address)?;
        if self.numbers.one_in(3) {
            self.tokens.put_literal(length)?;
            return self.tokens.put_all(&[0x0a9, 0x079]);
        }
        self.tokens.put_literal(other)?;
        self.tokens.put_literal(length)?;
        let code = self.numbers.one_of(&[0x078, 0x07a], 0x078);
        self.tokens.put(code)
    }

    /// Works on a string.
    fn work_on_string(&mut self) -> Result<(), AllocError> {
        let text = self.numbers.one_of(&TEXTS, b"");
        self.tokens.put_string(text)?;
        let code = self.numbers.one_of(&ON_STRINGS, 0x052);
        self.tokens.put(code)
    }

    /// Prints a number by its digits, or in another way.
    fn convert(&mut self) -> Result<(), AllocError> {
        let number = self.numbers.cell();
        self.tokens.put_literal(number)?;
        match self.numbers.below(5) {
            0 => self.tokens.put_all(&[0x096, 0x099, 0x09a, 0x097, 0x090]),
            1 => self
                .tokens
                .put_all(&[0x0a5, 0x096, 0x0c7, 0x0c8, 0x0c9, 0x090]),
            2 => self.tokens.put_all(&[0x0a8, 0x09e]),
            3 => self.tokens.put_all(&[0x0a8, 0x09c, 0x092]),
            _ => self.tokens.put_all(&[0x08f, 0x09f]),
        }
    }

    /// Asks for a key, the time or what a device has.
    fn ask(&mut self) -> Result<(), AllocError> {
        let address = self.numbers.address() | 0x8000_0000;
        let number = self.numbers.cell();
        match self.numbers.below(8) {
            0 => self.tokens.put(0x08e),
            1 => self.tokens.put(0x08d),
            2 => self.tokens.put(0x125),
            3 => self.tokens.put_all(&[0x0a8, 0x126]),
            4 | 5 => {
                self.tokens.put_literal(address)?;
                let code = self.numbers.one_of(&READS, 0x230);
                self.tokens.put_all(&[code, 0x09d])
            }
            _ => {
                self.tokens.put_literal(number)?;
                self.tokens.put_literal(address)?;
                let code = self.numbers.one_of(&WRITES, 0x231);
                self.tokens.put(code)
            }
        }
    }

    /// Sets or gets a property.
    fn work_on_property(&mut self) -> Result<(), AllocError> {
        let number = self.numbers.cell();
        let name = self.numbers.one_of(&TEXTS, b"");
        match self.numbers.below(3) {
            0 => {
                self.tokens.put_literal(number)?;
                self.tokens.put(0x111)?;
                self.tokens.put_string(name)?;
                self.tokens.put(0x110)
            }
            1 => {
                self.tokens.put_string(name)?;
                self.tokens.put(0x114)?;
                self.tokens.put_string(name)?;
                self.tokens.put_all(&[0x114, 0x112])?;
                self.tokens.put_string(b"name")?;
                self.tokens.put(0x110)
            }
            _ => {
                self.tokens.put_string(name)?;
                self.tokens.put_all(&[0x21a, 0x09d])
            }
        }
    }

    /// Works on a node or an instance.
    fn work_on_node(&mut self) -> Result<(), AllocError> {
        let name = self.numbers.one_of(&TEXTS, b"");
        match self.numbers.below(5) {
            0 => self.tokens.put(0x11f),
            1 => self.tokens.put(0x127),
            2 => {
                self.tokens.put(0x11f)?;
                self.tokens.put_string(name)?;
                self.tokens.put_all(&[0x201, 0x127])
            }
            3 => {
                self.tokens.put_string(name)?;
                self.tokens.put_all(&[0x203, 0x20e])
            }
            _ => {
                let code = self.numbers.one_of(&OTHERS, 0x203);
                self.tokens.put(code)
            }
        }
    }

    /// Throws, or catches what a word throws.
    fn throw(&mut self) -> Result<(), AllocError> {
        if self.numbers.one_in(2) {
            let word = self.own_word();
            return self.tokens.put_all(&[0x011, word, 0x217, 0x050]);
        }
        let number = self.numbers.one_of(&THROWN, 0);
        self.tokens.put_literal(number)?;
        self.tokens.put(0x218)
    }

    /// Uses the return stack, and mostly leaves it as it was.
    fn return_stack(&mut self) -> Result<(), AllocError> {
        match self.numbers.below(6) {
            0 | 1 => self.tokens.put_all(&[0x0a7, 0x030, 0x032, 0x09d, 0x031]),
            2 => self.tokens.put_all(&[0x0a6, 0x030, 0x0a8, 0x01e, 0x031]),
            3 if self.in_word => self.tokens.put(0x033),
            4 => self.tokens.put(0x089),
            _ => {
                let code = self.numbers.one_of(&[0x030, 0x031, 0x032, 0x01a], 0x032);
                self.tokens.put(code)
            }
        }
    }

    /// Loads a short image from a string.
    fn load(&mut self) -> Result<(), AllocError> {
        let mut image = NESTED;
        let place = self.numbers.below(NESTED.len()).saturating_add(8);
        let byte = self.numbers.byte();
        if let Some(old) = image.get_mut(place) {
            *old = byte;
        }
        self.tokens.put_string(&image)?;
        self.tokens.put_all(&[0x046, 0x0a6, 0x23e])
    }

    /// Any token.
    pub(super) fn put_any(&mut self) -> Result<(), AllocError> {
        let high = self.numbers.below(3);
        let low = usize::from(self.numbers.byte());
        let code = u16::try_from(high.saturating_mul(0x100).saturating_add(low)).unwrap_or(0);
        self.tokens.put(code)
    }
}
