use of_memory::MemFault;
use thiserror::Error;

/// Why a call on property arrays was refused.
///
/// Of several Address counts first, then NotAdjacent, Short and last Full.
#[derive(Clone, Copy, Debug, PartialEq, Eq, Error)]
pub enum PropFault {
    /// The array is too short for what is decoded, or a string has no zero byte.
    #[error("property value too short")]
    Short,

    /// The second array doesn't begin where the first ends.
    #[error("arrays not adjacent")]
    NotAdjacent,

    /// The data region has no room left.
    #[error("no room in the region")]
    Full,

    /// A byte of the array, or of what is copied, can't be read.
    #[error("invalid memory address")]
    Address,
}

impl From<MemFault> for PropFault {
    ghost use Rattle.std.specs.Prelude.{◌≡◌};
    ghost use Rattle.of_props.specs.Encoding.{fault_of};

    ghost from_gives = { λ fault e. e ≡ fault_of fault };

    /// The fault of bytes that are put at `here`: they are refused for their address or for room.
    fn from(fault: MemFault) -> PropFault {
        match fault {
            MemFault::Address | MemFault::Alignment | MemFault::ReadOnly => PropFault::Address,
            MemFault::Full | MemFault::BadBlock | MemFault::NoMemory => PropFault::Full,
        }
    }
}
