use std::alloc::{AllocError, AllocFailed};
use thiserror::Error;

/// Why a word can't be made, in the order of the checks. `NoMemory` may stand in place of any other.
#[derive(Clone, Copy, Debug, PartialEq, Eq, Error)]
pub enum DictFault {
    /// The name has no byte (-16).
    #[error("the name is empty")]
    EmptyName,

    /// The name has more than 31 bytes (-19).
    #[error("the name is too long")]
    LongName,

    /// As many words were made as ever can be (-8).
    #[error("the dictionary is full")]
    Full,

    /// The growth of the dictionary was refused.
    #[error("out of memory")]
    NoMemory,
}

impl<T: Drop> From<AllocFailed<T>> for DictFault {
    ghost use Rattle.std.specs.Prelude.{◌≡◌};
    ghost use Rattle.of_dict.specs.declared.fault.DictFault.TheVariants.{NoMemory};

    ghost from_gives = { λ _ e. e ≡ NoMemory };

    fn from(_failed: AllocFailed<T>) -> DictFault {
        DictFault::NoMemory
    }
}

impl From<AllocError> for DictFault {
    ghost use Rattle.std.specs.Prelude.{◌≡◌};
    ghost use Rattle.of_dict.specs.declared.fault.DictFault.TheVariants.{NoMemory};

    ghost from_gives = { λ _ e. e ≡ NoMemory };

    fn from(_error: AllocError) -> DictFault {
        DictFault::NoMemory
    }
}
