use of_stream::StreamFault;
use thiserror::Error;

/// Why a call was refused. Of several reasons the first of this list is given, and nothing has
/// changed.
#[derive(Clone, Copy, Debug, PartialEq, Eq, Error)]
pub enum Refusal {
    /// An image or a line runs.
    #[error("busy")]
    Busy,
    /// No question is open.
    #[error("not asked")]
    NotAsked,
    /// The answer doesn't fit the question.
    #[error("wrong answer")]
    WrongAnswer,
    /// The image has more than 256 KiB.
    #[error("image too long")]
    ImageTooLong,
    /// The console line has more than 255 bytes.
    #[error("line too long")]
    LineTooLong,
    /// The image begins with no header that can be read.
    #[error(transparent)]
    BadStart(StreamFault),
    /// No node stands at the path, or its instance finds no room.
    #[error("no such node")]
    NoNode,
    /// A growth of memory was refused.
    #[error("no memory")]
    NoMemory,
}
