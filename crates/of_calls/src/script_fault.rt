ghost use Rattle.std.specs.Prelude.{◌≡◌};
ghost use Rattle.of_calls.specs.GivenUp.{line_of};

use thiserror::Error;

/// Why a script of a debugger was given up, with the line that it is in, from 1.
#[derive(Clone, Copy, Debug, PartialEq, Eq, Error)]
pub enum ScriptFault {
    /// No word has the name, or the FCode names none.
    #[error("no such word")]
    Unknown(usize),
    /// The word is no finished colon definition.
    #[error("no colon definition")]
    NoWord(usize),
    /// The definition has fewer items.
    #[error("no such item")]
    NoItem(usize),
    /// 16 items are marked already.
    #[error("too many marks")]
    TooMany(usize),
    /// A growth of memory was refused.
    #[error("no memory")]
    NoMemory,
}

impl ScriptFault {
    /// The line of the command that was given up; none where memory was refused.
    pub fn line(self) -> Option<usize>
        ensures { result ≡ line_of self }
    {
        match self {
            ScriptFault::Unknown(line) => Some(line),
            ScriptFault::NoWord(line) => Some(line),
            ScriptFault::NoItem(line) => Some(line),
            ScriptFault::TooMany(line) => Some(line),
            ScriptFault::NoMemory => None,
        }
    }
}
