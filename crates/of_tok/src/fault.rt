use std::alloc::{AllocError, AllocFailed};
use thiserror::Error;

/// Why a source has no image.
#[derive(Clone, Copy, Debug, Error)]
pub enum TokFault {
    /// The offset of the word at this position of the text doesn't fit its size.
    #[error("position {0}: offset too long")]
    OffsetTooLong(usize),

    /// There are more than 2,048 definitions.
    #[error("more than 2048 definitions")]
    TooManyWords,

    /// The image has more than 262,144 bytes.
    #[error("image over 262144 bytes")]
    ImageTooLong,

    /// A growth was refused.
    #[error("out of memory")]
    NoMemory,
}

impl From<AllocError> for TokFault {
    ghost use Rattle.std.specs.Prelude.{◌≡◌};
    ghost use Rattle.of_tok.specs.declared.fault.TokFault.TheVariants.{NoMemory};

    ghost from_gives = { λ _ e. e ≡ NoMemory };

    fn from(_error: AllocError) -> TokFault {
        TokFault::NoMemory
    }
}

impl<T: Drop> From<AllocFailed<T>> for TokFault {
    ghost use Rattle.std.specs.Prelude.{◌≡◌};
    ghost use Rattle.of_tok.specs.declared.fault.TokFault.TheVariants.{NoMemory};

    ghost from_gives = { λ _ e. e ≡ NoMemory };

    fn from(_failed: AllocFailed<T>) -> TokFault {
        TokFault::NoMemory
    }
}
