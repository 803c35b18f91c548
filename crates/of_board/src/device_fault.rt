use of_ihandles::InstanceFault;
use of_nodes::NodeFault;
use std::alloc::AllocError;
use thiserror::Error;

/// Why a `new-device` wasn't opened.
#[derive(Clone, Copy, Debug, PartialEq, Eq, Error)]
pub enum DeviceFault {
    /// The tree refused its node.
    #[error("{0}")]
    Node(NodeFault),

    /// Its instance found no room.
    #[error("{0}")]
    Instance(InstanceFault),
}

impl DeviceFault {
    /// A growth was refused.
    pub(crate) const NO_MEMORY: DeviceFault = DeviceFault::Node(NodeFault::NoMemory);
}

impl From<NodeFault> for DeviceFault {
    ghost use Rattle.std.specs.Prelude.{◌≡◌};
    ghost use Rattle.of_board.specs.declared.device_fault.DeviceFault.TheVariants.{Node};

    ghost from_gives = { λ fault e. e ≡ Node fault };

    fn from(fault: NodeFault) -> DeviceFault {
        DeviceFault::Node(fault)
    }
}

impl From<AllocError> for DeviceFault {
    ghost use Rattle.std.specs.Prelude.{◌≡◌};
    ghost use Rattle.of_nodes.specs.declared.fault.NodeFault.TheVariants.{NoMemory};
    ghost use Rattle.of_board.specs.declared.device_fault.DeviceFault.TheVariants.{Node};

    ghost from_gives = { λ _ e. e ≡ Node NoMemory };

    fn from(_error: AllocError) -> DeviceFault {
        DeviceFault::Node(NodeFault::NoMemory)
    }
}
