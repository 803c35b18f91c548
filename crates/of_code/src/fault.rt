use std::alloc::{AllocError, AllocFailed};
use thiserror::Error;

/// Why code can't grow, in the order of the checks.
#[derive(Clone, Copy, Debug, PartialEq, Eq, Error)]
pub enum CodeFault {
    /// The item would pass the last code cell.
    #[error("the code is full")]
    Full,

    /// The growth of the store was refused.
    #[error("out of memory")]
    NoMemory,
}

impl<T: Drop> From<AllocFailed<T>> for CodeFault {
    ghost use Rattle.std.specs.Prelude.{◌≡◌};
    ghost use Rattle.of_code.specs.declared.fault.CodeFault.TheVariants.{NoMemory};

    ghost from_gives = { λ _ e. e ≡ NoMemory };

    fn from(_failed: AllocFailed<T>) -> CodeFault {
        CodeFault::NoMemory
    }
}

impl From<AllocError> for CodeFault {
    ghost use Rattle.std.specs.Prelude.{◌≡◌};
    ghost use Rattle.of_code.specs.declared.fault.CodeFault.TheVariants.{NoMemory};

    ghost from_gives = { λ _ e. e ≡ NoMemory };

    fn from(_error: AllocError) -> CodeFault {
        CodeFault::NoMemory
    }
}
