//! What can stand in a text.
ghost use Rattle.std.specs.Prelude.{◌≡◌};
ghost use Rattle.of_text.specs.Reading.{bytes_in};

use of_cells::Cell;
use of_compile::DefiningWord;
use of_fcodes::CompilingWord;
use of_stacks::Throw;

/// A part of a text: the bytes from a position on, up to another.
#[derive(Clone, Copy)]
pub struct Part {
    /// The position of its first byte.
    pub begin: usize,
    /// The position behind its last byte.
    pub end: usize,
}

/// What stands next in a text, with what it parses.
///
/// A name that has to find a word gives its execution token, or the fault: -16 where no name is left in the text, -13
/// where it finds none.
#[derive(Clone, Copy)]
pub enum TextWord {
    /// The text has ended.
    End,
    /// A word that is executed or appended: its execution token, and whether it is executed while words are compiled.
    Found { xt: Cell, immediate: bool },
    /// A number, also that behind `h#` and `d#`; or why there is none: -24 where `base` is no base, else -13.
    Number(Result<Cell, Throw>),
    /// A defining word, with the name behind it; that is empty where the text ends before it.
    Defining(DefiningWord, Part),
    /// `'` and the word that its name finds.
    Tick(Result<Cell, Throw>),
    /// `to` and the word that its name finds.
    To(Result<Cell, Throw>),
    /// `see` and the word that its name finds.
    See(Result<Cell, Throw>),
    /// `dev` and its path; that is empty where the text ends before it.
    Device(Part),
    /// `s"` and its string.
    Plain(Part),
    /// `"` and the position at which its string begins, in which groups of digits stand for bytes.
    Quoted(usize),
    /// `."` and its string.
    Printed(Part),
    /// `char` and its character: the first byte of the next word.
    Char(Result<Cell, Throw>),
    /// `[']` and the word that its name finds.
    BracketTick(Result<Cell, Throw>),
    /// `[char]` and its character.
    BracketChar(Result<Cell, Throw>),
    /// A comment, which is passed.
    Comment,
    /// Another word that serves while words are compiled, and only then.
    Compiling(CompilingWord),
}

/// A word of a text, and the position behind it and all that it parses.
#[derive(Clone, Copy)]
pub struct Found {
    /// The word.
    pub word: TextWord,
    /// The position.
    pub next: usize,
}

impl Part {
    /// The bytes of the part of a text, as far as the text has them.
    #[inline]
    pub fn of(self, text: &[u8]) -> &[u8]
        ensures { result.now ≡ bytes_in text.now self }
    {
        if self.begin >= text.len() {
            return &[];
        }
        let rest = &text[self.begin..];
        let count = self.end.saturating_sub(self.begin);
        if count >= rest.len() {
            return rest;
        }
        &rest[..count]
    }
}
