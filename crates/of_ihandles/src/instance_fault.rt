use std::alloc::{AllocError, AllocFailed};
use thiserror::Error;

/// Why a call on instances was refused, in the order of the checks; NoMemory may stand in place of any other.
#[derive(Clone, Copy, Debug, PartialEq, Eq, Error)]
pub enum InstanceFault {
    /// The ihandle is that of no live instance, or the slot none of its package.
    #[error("no such instance")]
    NoInstance,

    /// There were 65,536 openings, or a block finds no room in the instance region.
    #[error("no room for the instance")]
    Full,

    /// A growth was refused.
    #[error("out of memory")]
    NoMemory,
}

impl<T: Drop> From<AllocFailed<T>> for InstanceFault {
    ghost use Rattle.std.specs.Prelude.{◌≡◌};
    ghost use Rattle.of_ihandles.specs.declared.instance_fault.InstanceFault.TheVariants.{NoMemory};

    ghost from_gives = { λ _ e. e ≡ NoMemory };

    fn from(_failed: AllocFailed<T>) -> InstanceFault {
        InstanceFault::NoMemory
    }
}

impl From<AllocError> for InstanceFault {
    ghost use Rattle.std.specs.Prelude.{◌≡◌};
    ghost use Rattle.of_ihandles.specs.declared.instance_fault.InstanceFault.TheVariants.{NoMemory};

    ghost from_gives = { λ _ e. e ≡ NoMemory };

    fn from(_error: AllocError) -> InstanceFault {
        InstanceFault::NoMemory
    }
}
