use thiserror::Error;

/// Why a call of the debugger was refused. Of several reasons the first of this list is given.
#[derive(Clone, Copy, Debug, PartialEq, Eq, Error)]
pub enum DebugFault {
    /// The execution token is that of no finished colon definition.
    #[error("no such word")]
    NoWord,
    /// The definition has fewer items.
    #[error("no such item")]
    NoItem,
    /// 16 items are marked already.
    #[error("too many marks")]
    TooMany,
    /// No step can be made.
    #[error("no step can be made")]
    Idle,
    /// A growth of memory was refused.
    #[error("no memory")]
    NoMemory,
}
