ghost use Rattle.std.specs.Prelude.{◌≡◌};

/// How the program ends.
#[derive(Clone, Copy, Debug, PartialEq, Eq)]
pub enum Status {
    /// The run is done.
    Done,
    /// A fault of the input or of the output.
    Fault,
    /// The arguments say nothing that the program can do.
    Usage,
    /// The limit of steps was reached.
    LimitReached,
    /// The run asks what no answer is left for, or what the next one doesn't fit.
    AnswersOut,
    /// A growth of memory was refused.
    NoMemory,
}

impl Status {
    ghost use Rattle.of_arguments.specs.Statuses.{code_of};

    /// The number that the program gives back: 0 done, 1 fault, 2 usage, 3 limit reached, 4 answers
    /// out, 5 no memory.
    pub fn code(self) -> u8
        ensures { result ≡ code_of self }
    {
        match self {
            Status::Done => 0,
            Status::Fault => 1,
            Status::Usage => 2,
            Status::LimitReached => 3,
            Status::AnswersOut => 4,
            Status::NoMemory => 5,
        }
    }
}
