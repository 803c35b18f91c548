use of_asking::Query;

/// What a call of `step` came to.
#[derive(Clone, Copy)]
pub enum Progress {
    /// A step was made.
    Done,
    /// The step asks, and is made by `answer`.
    Asks(Query),
    /// None can be made: nothing runs, or the machine has made as many as it can count.
    Ended,
}

/// How a run ended.
#[derive(Clone, Copy, Debug, PartialEq, Eq)]
pub enum End {
    /// Nothing runs any more.
    Done,
    /// The limit of steps was reached before.
    LimitReached,
    /// A step asks, and there is no answer that fits.
    AnswersOut,
}
