use std::alloc::AllocFailed;
use thiserror::Error;

/// Why a call on memory was refused, in the order of the checks.
#[derive(Clone, Copy, Debug, PartialEq, Eq, Error)]
pub enum MemFault {
    /// A byte of the range lies outside the regions, or in the heap outside the live blocks.
    #[error("invalid memory address")]
    Address,

    /// The address is no multiple of the width.
    #[error("address alignment exception")]
    Alignment,

    /// Programs may only read the region.
    #[error("write to a read-only location")]
    ReadOnly,

    /// The region has no room left.
    #[error("no room in the region")]
    Full,

    /// No live block stands at the address with the rounded length.
    #[error("no such block")]
    BadBlock,

    /// The growth of a list of blocks was refused.
    #[error("out of memory")]
    NoMemory,
}

impl<T: Drop> From<AllocFailed<T>> for MemFault {
    ghost use Rattle.std.specs.Prelude.{◌≡◌};
    ghost use Rattle.of_memory.specs.declared.fault.MemFault.TheVariants.{NoMemory};

    ghost from_gives = { λ _ e. e ≡ NoMemory };

    fn from(_failed: AllocFailed<T>) -> MemFault {
        MemFault::NoMemory
    }
}
