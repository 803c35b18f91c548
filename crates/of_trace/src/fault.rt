use of_refusal::Refusal;

/// Why a run isn't traced to its end.
#[derive(Clone, Copy)]
pub enum TraceFault {
    /// The monitor refuses its image or its lines.
    Refused(Refusal),
    /// A line can't be written, with the system's number of the reason, if there is one.
    Unwritten(Option<i32>),
    /// A growth of memory was refused.
    NoMemory,
}
