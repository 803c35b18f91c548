//! A plain interpreter of words: a stack, a return stack, and a place in the words.
use crate::words::{
    Words, begin_of, body_of, do_of, past_arm, past_branch, past_case, past_definition, past_loop,
};
use arrayvec::ArrayVec;

/// The numbers of throws, -3, -4, -5, -25 and -26 (Forth 2012, 9.3.5), as cells.
const STACK_OVERFLOW: u32 = 0xFFFF_FFFD;

const STACK_UNDERFLOW: u32 = 0xFFFF_FFFC;

const RETURN_OVERFLOW: u32 = 0xFFFF_FFFB;

const NO_RETURN: u32 = 0xFFFF_FFE7;

const NO_LOOP: u32 = 0xFFFF_FFE6;

/// What stands on the return stack.
#[derive(Clone, Copy)]
enum Frame {
    /// Where a word that was called goes back to; nowhere, where `catch` called it.
    Return(Option<usize>),
    /// What `do` put there.
    Loop { index: u32, limit: u32 },
    /// What `catch` put there: how many cells stay, and where control goes on.
    Handler { depth: usize, place: usize },
}

impl Default for Frame {
    fn default() -> Frame {
        Frame::Return(None)
    }
}

/// How a walk ends.
#[derive(Clone, Copy, PartialEq)]
pub enum Ending {
    /// Behind the last word.
    Done,
    /// By a throw that nothing caught.
    Thrown(u32),
    /// Not yet.
    Going,
}

/// What words come to.
#[derive(Drop)]
pub struct Walk {
    /// The data stack.
    pub stack: ArrayVec<u32, 250>,
    /// What was printed.
    pub printed: ArrayVec<u8, 4096>,
    frames: ArrayVec<Frame, 200>,
    place: usize,
}

impl Walk {
    /// Before the first word.
    pub fn new() -> Walk {
        Walk {
            stack: ArrayVec::new(),
            printed: ArrayVec::new(),
            frames: ArrayVec::new(),
            place: 0,
        }
    }

    /// Does at most so many words, and says how they end.
    pub fn run(&mut self, words: Words<'_>, most: u32) -> Ending {
        for _ in 0..most {
            let Some(word) = words.get(self.place).copied() else {
                return Ending::Done;
            };
            if let Err(number) = self.step(words, word) {
                if !self.caught(number) {
                    return Ending::Thrown(number);
                }
            }
        }
        Ending::Going
    }

    /// Goes on behind the latest `catch`: the cells that were there stay, or cells of 0 in their place.
    fn caught(&mut self, number: u32) -> bool {
        for _ in 0..self.frames.len() {
            if let Some(Frame::Handler { depth, place }) = self.frames.pop() {
                self.place = place;
                self.stack.truncate(depth);
                for _ in self.stack.len()..depth {
                    let _ = self.push(0);
                }
                return self.push(number).is_ok();
            }
        }
        false
    }

    /// Throws unless so many cells are there.
    fn need(&self, cells: usize) -> Result<(), u32> {
        if self.stack.len() < cells {
            return Err(STACK_UNDERFLOW);
        }
        Ok(())
    }

    fn push(&mut self, cell: u32) -> Result<(), u32> {
        match self.stack.try_push(cell) {
            Ok(()) => Ok(()),
            Err(_) => Err(STACK_OVERFLOW),
        }
    }

    fn pop(&mut self) -> Result<u32, u32> {
        self.stack.pop().ok_or(STACK_UNDERFLOW)
    }

    fn enter(&mut self, frame: Frame) -> Result<(), u32> {
        match self.frames.try_push(frame) {
            Ok(()) => Ok(()),
            Err(_) => Err(RETURN_OVERFLOW),
        }
    }

    /// The loop on top.
    fn top_loop(&self) -> Result<(u32, u32), u32> {
        match self.frames.last() {
            Some(Frame::Loop { index, limit }) => Ok((*index, *limit)),
            _ => Err(NO_LOOP),
        }
    }

    /// Does the word at the place.
    fn step(&mut self, words: Words<'_>, word: &str) -> Result<(), u32> {
        let here = self.place;
        self.place = here.saturating_add(1);
        if self.work(word)? || self.choose(words, word)? || self.turn(words, word, here)? {
            return Ok(());
        }
        self.call(words, word)
    }

    /// Words over the stack.
    fn work(&mut self, word: &str) -> Result<bool, u32> {
        match word {
            "dup" => self.need(1)?,
            "drop" | "." | "0=" => self.need(1)?,
            "swap" | "over" | "+" | "-" => self.need(2)?,
            _ => return self.number(word),
        }
        let top = self.pop()?;
        match word {
            "dup" => {
                self.push(top)?;
                self.push(top)?;
            }
            "." => self.print(top),
            "0=" => self.push(if top == 0 { u32::MAX } else { 0 })?,
            "swap" => {
                let under = self.pop()?;
                self.push(top)?;
                self.push(under)?;
            }
            "over" => {
                let under = self.pop()?;
                self.push(under)?;
                self.push(top)?;
                self.push(under)?;
            }
            "+" => {
                let under = self.pop()?;
                self.push(under.wrapping_add(top))?;
            }
            "-" => {
                let under = self.pop()?;
                self.push(under.wrapping_sub(top))?;
            }
            _ => {}
        }
        Ok(true)
    }

    /// One digit, a string's quotes and what evaluates it, and an image that leaves 5.
    fn number(&mut self, word: &str) -> Result<bool, u32> {
        match word {
            "\"" | "evaluate" | "b5" => Ok(true),
            "byte-load" => {
                self.pop()?;
                self.push(5)?;
                Ok(true)
            }
            _ => match word.parse::<u32>() {
                Ok(number) => {
                    self.push(number)?;
                    Ok(true)
                }
                Err(_) => Ok(false),
            },
        }
    }

    /// Prints a number in base 16, and a blank.
    fn print(&mut self, cell: u32) {
        let mut rest = cell;
        if cell >= 0x8000_0000 {
            self.put(b'-');
            rest = cell.wrapping_neg();
        }
        let mut started = false;
        for place in 0..8u32 {
            let digit = (rest >> (28 - 4 * place)) & 15;
            started = started || digit > 0 || place == 7;
            if started {
                self.put(b"0123456789abcdef"[digit as usize]);
            }
        }
        self.put(b' ');
    }

    fn put(&mut self, byte: u8) {
        let _ = self.printed.try_push(byte);
    }

    /// Words that choose between ways.
    fn choose(&mut self, words: Words<'_>, word: &str) -> Result<bool, u32> {
        let next = self.place;
        match word {
            "if" | "while" => {
                if self.pop()? == 0 {
                    self.place = past_branch(words, next);
                }
            }
            "else" => self.place = past_branch(words, next),
            "then" | "begin" | "case" => {}
            "of" => {
                self.need(2)?;
                let (wanted, found) = (self.pop()?, self.pop()?);
                if wanted != found {
                    self.push(found)?;
                    self.place = past_arm(words, next);
                }
            }
            "endof" => self.place = past_case(words, next),
            "endcase" => {
                self.pop()?;
            }
            "throw" => match self.pop()? {
                0 => {}
                number => return Err(number),
            },
            _ => return Ok(false),
        }
        Ok(true)
    }

    /// Words that turn back, and those of loops.
    fn turn(&mut self, words: Words<'_>, word: &str, here: usize) -> Result<bool, u32> {
        match word {
            "again" | "repeat" => self.place = begin_of(words, here),
            "until" => {
                if self.pop()? == 0 {
                    self.place = begin_of(words, here);
                }
            }
            "do" | "?do" => self.begin_loop(words, word == "?do")?,
            "loop" => self.turn_loop(words, here, 1)?,
            "+loop" => {
                self.top_loop()?;
                let step = self.pop()?;
                self.turn_loop(words, here, step)?;
            }
            "i" => {
                let (index, _) = self.top_loop()?;
                self.push(index)?;
            }
            "leave" => {
                self.top_loop()?;
                self.frames.pop();
                self.place = past_loop(words, self.place);
            }
            "unloop" => {
                self.top_loop()?;
                self.frames.pop();
            }
            _ => return Ok(false),
        }
        Ok(true)
    }

    fn begin_loop(&mut self, words: Words<'_>, may_skip: bool) -> Result<(), u32> {
        self.need(2)?;
        let (index, limit) = (self.pop()?, self.pop()?);
        if may_skip && index == limit {
            self.place = past_loop(words, self.place);
            return Ok(());
        }
        self.enter(Frame::Loop { index, limit })
    }

    /// A turn ends at the boundary between the limit minus one and the limit (Forth 2012, 6.1.0140): where the distance
    /// to the limit changes its sign on the way of the step.
    fn turn_loop(&mut self, words: Words<'_>, here: usize, step: u32) -> Result<(), u32> {
        let (index, limit) = self.top_loop()?;
        self.frames.pop();
        let far = index.wrapping_sub(limit);
        let then = far.wrapping_add(step);
        if (far ^ then) & (far ^ step) < 0x8000_0000 {
            self.enter(Frame::Loop {
                index: index.wrapping_add(step),
                limit,
            })?;
            self.place = do_of(words, here);
        }
        Ok(())
    }

    /// Words that define, call and return.
    fn call(&mut self, words: Words<'_>, word: &str) -> Result<(), u32> {
        match word {
            ":" => {
                self.place = past_definition(words, self.place);
                Ok(())
            }
            ";" | "exit" => self.give_back(),
            "[']" => {
                self.place = self.place.saturating_add(1);
                self.push(0)
            }
            "catch" => self.catch(words),
            _ => {
                self.enter(Frame::Return(Some(self.place)))?;
                self.place = body_of(words, word).unwrap_or(words.len());
                Ok(())
            }
        }
    }

    /// `['] NAME catch`, of which the name stands before.
    fn catch(&mut self, words: Words<'_>) -> Result<(), u32> {
        self.pop()?;
        let (depth, place) = (self.stack.len(), self.place);
        let name = words.get(place.saturating_sub(2)).copied().unwrap_or("");
        self.enter(Frame::Handler { depth, place })?;
        self.enter(Frame::Return(None))?;
        self.place = body_of(words, name).unwrap_or(words.len());
        Ok(())
    }

    /// The end of a word.
    fn give_back(&mut self) -> Result<(), u32> {
        match self.frames.last() {
            Some(Frame::Return(_)) => {}
            _ => return Err(NO_RETURN),
        }
        match self.frames.pop() {
            Some(Frame::Return(Some(place))) => self.place = place,
            _ => {
                if let Some(Frame::Handler { place, .. }) = self.frames.pop() {
                    self.place = place;
                }
                self.push(0)?;
            }
        }
        Ok(())
    }
}
