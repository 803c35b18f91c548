//! What a comparison comes to that isn't carried out, or that finds a difference.
use of_refusal::Refusal;
use std::alloc::AllocError;
use std::fmt;

/// What differs.
#[derive(Clone, Copy, Default)]
pub enum View {
    /// What a call answers.
    #[default]
    Answer,
    /// How a run ends.
    End,
    /// How many steps were made.
    Steps,
    /// The depth of the return stack.
    Depth,
    /// Whether something runs.
    Running,
    /// What was asked, or which question is open.
    Asked,
    /// What clients were answered.
    Replies,
    /// The data stack.
    Stack,
    /// What was printed.
    Console,
    /// How many own words were made.
    Made,
    /// The bytes of the data space.
    Memory,
    /// What `see` or `words` prints.
    Words,
    /// The bytes of an image.
    Image,
}

impl View {
    /// What it is called.
    fn name(self) -> &'static str {
        match self {
            View::Answer => "answers of calls",
            View::End => "ends",
            View::Steps => "steps",
            View::Depth => "depths of the return stacks",
            View::Running => "whether something runs",
            View::Asked => "questions",
            View::Replies => "replies to clients",
            View::Stack => "data stacks",
            View::Console => "printed texts",
            View::Made => "numbers of own words",
            View::Memory => "bytes in memory",
            View::Words => "listed words",
            View::Image => "images",
        }
    }
}

impl fmt::Display for View {
    fn fmt<W: fmt::Write>(&self, f: &mut fmt::Formatter<W>) -> fmt::Result {
        write!(f, "{}", self.name())
    }
}

/// Why a comparison found no agreement.
#[derive(Clone, Copy)]
pub enum Fault {
    /// A growth of memory was refused.
    NoMemory,
    /// What should agree differs.
    Differs(View),
}

impl From<AllocError> for Fault {
    fn from(_error: AllocError) -> Fault {
        Fault::NoMemory
    }
}

/// What a refused run says: out of memory, or else that another one should be refused alike.
pub fn refused(refusal: Refusal, other: Option<Refusal>) -> Fault {
    if refusal == Refusal::NoMemory || other == Some(Refusal::NoMemory) {
        Fault::NoMemory
    } else {
        Fault::Differs(View::Answer)
    }
}

/// Nothing, where two views agree.
pub fn agree(view: View, is_same: bool) -> Result<(), Fault> {
    if is_same {
        Ok(())
    } else {
        Err(Fault::Differs(view))
    }
}
