use std::alloc::{AllocError, AllocFailed};
use thiserror::Error;

/// Why a call on the device tree was refused, in the order of the checks; NoMemory may stand in place
/// of any other.
#[derive(Clone, Copy, Debug, PartialEq, Eq, Error)]
pub enum NodeFault {
    /// No node has the phandle.
    #[error("no such node")]
    NoNode,

    /// The name isn't 1 to 31 bytes of 0x21 to 0x7E without `/`, `:` and `@`.
    #[error("invalid name argument")]
    BadName,

    /// The property region has no room left.
    #[error("no room for the property")]
    PropertyFull,

    /// There are 1,024 nodes.
    #[error("too many nodes")]
    TooManyNodes,

    /// A growth was refused.
    #[error("out of memory")]
    NoMemory,
}

impl<T: Drop> From<AllocFailed<T>> for NodeFault {
    ghost use Rattle.std.specs.Prelude.{◌≡◌};
    ghost use Rattle.of_nodes.specs.declared.fault.NodeFault.TheVariants.{NoMemory};

    ghost from_gives = { λ _ e. e ≡ NoMemory };

    fn from(_failed: AllocFailed<T>) -> NodeFault {
        NodeFault::NoMemory
    }
}

impl From<AllocError> for NodeFault {
    ghost use Rattle.std.specs.Prelude.{◌≡◌};
    ghost use Rattle.of_nodes.specs.declared.fault.NodeFault.TheVariants.{NoMemory};

    ghost from_gives = { λ _ e. e ≡ NoMemory };

    fn from(_error: AllocError) -> NodeFault {
        NodeFault::NoMemory
    }
}
