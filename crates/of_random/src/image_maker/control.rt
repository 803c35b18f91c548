//! Control structures of images, with their offsets.
use super::Maker;
use std::alloc::AllocError;

/// What is open, by the places of the offsets that lead behind it, or the position to which it goes back.
#[derive(Clone, Copy, Default)]
pub(super) enum Open {
    /// `if` or `else`: the place of its offset.
    If(usize),
    /// `begin`: the position behind it.
    Begin(usize),
    /// `while`: the position behind `begin`, and the place of its own offset.
    While(usize, usize),
    /// `do`: the place of its offset, and the position behind it.
    Do(usize, usize),
    /// `case`.
    #[default]
    Case,
    /// `of`: the place of its offset.
    Of(usize),
}

impl Maker {
    /// Opens a structure, unless too many are open.
    pub(super) fn begin(&mut self) -> Result<(), AllocError> {
        if self.open.is_full() {
            return Ok(());
        }
        let open = match self.numbers.below(7) {
            0..=2 => Open::If(self.tokens.put_branch(0x014)?),
            3 => {
                self.tokens.put(0x0b1)?;
                Open::Begin(self.tokens.position())
            }
            4 => {
                self.tokens.put_all(&[0x0a8, 0x0a5])?;
                self.begin_loop(0x017)?
            }
            5 => {
                self.tokens.put_all(&[0x047, 0x0a5])?;
                self.begin_loop(0x018)?
            }
            _ => {
                self.tokens.put_all(&[0x0a7, 0x0c4])?;
                Open::Case
            }
        };
        let _ = self.open.try_push(open);
        Ok(())
    }

    /// `do` or `?do`.
    fn begin_loop(&mut self, code: u16) -> Result<Open, AllocError> {
        let place = self.tokens.put_branch(code)?;
        Ok(Open::Do(place, self.tokens.position()))
    }

    /// Puts another one in the place of the innermost structure.
    fn becomes(&mut self, open: Open) {
        let _ = self.open.pop();
        let _ = self.open.try_push(open);
    }

    /// Goes on with the innermost structure, or closes it.
    pub(super) fn go_on(&mut self) -> Result<(), AllocError> {
        let Some(open) = self.open.last().copied() else {
            return Ok(());
        };
        match (open, self.numbers.below(3)) {
            (Open::If(place), 0) => self.put_else(place),
            (Open::Begin(back), 0) => {
                let place = self.tokens.put_branch(0x014)?;
                self.becomes(Open::While(back, place));
                Ok(())
            }
            (Open::Do(_, _), 0) => self.tokens.put(0x019),
            (Open::Do(_, _), 1) => self.put_leave(),
            (Open::Case, 0 | 1) if !self.open.is_full() => {
                self.tokens.put(0x0a7)?;
                let place = self.tokens.put_branch(0x01c)?;
                let _ = self.open.try_push(Open::Of(place));
                Ok(())
            }
            _ => self.close(),
        }
    }

    /// `else`.
    fn put_else(&mut self, place: usize) -> Result<(), AllocError> {
        let other = self.tokens.put_branch(0x013)?;
        self.tokens.put(0x0b2)?;
        self.tokens.aim(place);
        self.becomes(Open::If(other));
        Ok(())
    }

    /// `dup if leave then`.
    fn put_leave(&mut self) -> Result<(), AllocError> {
        self.tokens.put(0x047)?;
        let place = self.tokens.put_branch(0x014)?;
        self.tokens.put_all(&[0x01b, 0x0b2])?;
        self.tokens.aim(place);
        Ok(())
    }

    /// Closes the innermost structure.
    pub(super) fn close(&mut self) -> Result<(), AllocError> {
        match self.open.pop() {
            Some(Open::If(place)) => self.put_then(place),
            Some(Open::Begin(back)) => self.put_until(back),
            Some(Open::While(back, place)) => {
                self.tokens.put_branch_to(0x013, back)?;
                self.put_then(place)
            }
            Some(Open::Do(place, back)) => self.put_loop(place, back),
            Some(Open::Case) => self.put_end_case(),
            Some(Open::Of(place)) => {
                let end = self.tokens.put_branch(0x0c6)?;
                let _ = self.ends.try_push(end);
                self.tokens.aim(place);
                Ok(())
            }
            None => Ok(()),
        }
    }

    /// `then`.
    fn put_then(&mut self, place: usize) -> Result<(), AllocError> {
        self.tokens.put(0x0b2)?;
        self.tokens.aim(place);
        Ok(())
    }

    /// `again` now and then, else `1 - dup 0= until`.
    fn put_until(&mut self, back: usize) -> Result<(), AllocError> {
        if self.numbers.one_in(5) {
            return self.tokens.put_branch_to(0x013, back);
        }
        self.tokens.put_all(&[0x0a6, 0x01f, 0x047, 0x034])?;
        self.tokens.put_branch_to(0x014, back)
    }

    /// `loop`, or `2 +loop`.
    fn put_loop(&mut self, place: usize, back: usize) -> Result<(), AllocError> {
        if self.numbers.one_in(3) {
            self.tokens.put(0x0a7)?;
            self.tokens.put_branch_to(0x016, back)?;
        } else {
            self.tokens.put_branch_to(0x015, back)?;
        }
        self.tokens.aim(place);
        Ok(())
    }

    /// `endcase`.
    fn put_end_case(&mut self) -> Result<(), AllocError> {
        self.tokens.put(0x0c5)?;
        for _ in 0..super::MOST_ENDS {
            if let Some(end) = self.ends.pop() {
                self.tokens.aim(end);
            }
        }
        Ok(())
    }

    /// Closes what is open, now and then not all of it.
    pub(super) fn close_all(&mut self) -> Result<(), AllocError> {
        if self.numbers.one_in(50) {
            self.open.clear();
        }
        for _ in 0..super::MOST_OPEN {
            self.close()?;
        }
        Ok(())
    }

    /// A control token where it needn't fit, with any offset.
    pub(super) fn put_misfit(&mut self) -> Result<(), AllocError> {
        let code = self.numbers.one_of(&BRANCHES, 0x013);
        let near = self.numbers.below(24);
        let target = self.tokens.position().wrapping_add(near).wrapping_sub(8);
        match self.numbers.below(3) {
            0 => {
                let code = self.numbers.one_of(&LONE, 0x0b2);
                self.tokens.put(code)
            }
            _ => self.tokens.put_branch_to(code, target),
        }
    }
}

/// Tokens with an offset.
const BRANCHES: [u16; 8] = [0x013, 0x014, 0x015, 0x016, 0x017, 0x018, 0x01c, 0x0c6];

/// Control tokens without one.
const LONE: [u16; 8] = [0x01b, 0x0b1, 0x0b2, 0x0c4, 0x0c5, 0x0c2, 0x0b7, 0x033];
