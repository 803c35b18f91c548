ghost use Rattle.std.specs.Prelude.{◌≡◌};
ghost use Rattle.of_instances.specs.Faults.{array_throw, device_stop, instance_stop, instance_throw, node_throw};
ghost use Rattle.of_instances.specs.Faults.{of_array, of_instance, of_tree, stop_of};

use of_board::DeviceFault;
use of_ihandles::InstanceFault;
use of_nodes::NodeFault;
use of_props::PropFault;
use of_stacks::{Stop, Throw};

/// What a word throws for a fault of the tree: -263 where there is no node, -32 for a name, and -8 where
/// no room is left.
///
/// A refused growth of memory is no throw.
pub(crate) fn node_throw(fault: NodeFault) -> Throw
    ensures { result ≡ node_throw fault }
{
    match fault {
        NodeFault::NoNode => Throw::BAD_HANDLE,
        NodeFault::BadName => Throw::INVALID_NAME,
        NodeFault::PropertyFull => Throw::DICTIONARY_OVERFLOW,
        NodeFault::TooManyNodes => Throw::DICTIONARY_OVERFLOW,
        NodeFault::NoMemory => Throw::ABORT,
    }
}

/// Why a word stops for a fault of the tree.
pub(crate) fn stop_of(fault: NodeFault) -> Stop
    ensures { result ≡ stop_of fault }
{
    match fault {
        NodeFault::NoNode => Stop::Thrown(Throw::BAD_HANDLE),
        NodeFault::BadName => Stop::Thrown(Throw::INVALID_NAME),
        NodeFault::PropertyFull => Stop::Thrown(Throw::DICTIONARY_OVERFLOW),
        NodeFault::TooManyNodes => Stop::Thrown(Throw::DICTIONARY_OVERFLOW),
        NodeFault::NoMemory => Stop::NoMemory,
    }
}

/// What a word throws for a fault of an instance: -260 where there is none, and -8 where no room is left.
///
/// A refused growth of memory is no throw.
pub(crate) fn instance_throw(fault: InstanceFault) -> Throw
    ensures { result ≡ instance_throw fault }
{
    match fault {
        InstanceFault::NoInstance => Throw::NO_INSTANCE,
        InstanceFault::Full => Throw::DICTIONARY_OVERFLOW,
        InstanceFault::NoMemory => Throw::ABORT,
    }
}

/// Why a word stops for a fault of an instance.
pub(crate) fn instance_stop(fault: InstanceFault) -> Stop
    ensures { result ≡ instance_stop fault }
{
    match fault {
        InstanceFault::NoInstance => Stop::Thrown(Throw::NO_INSTANCE),
        InstanceFault::Full => Stop::Thrown(Throw::DICTIONARY_OVERFLOW),
        InstanceFault::NoMemory => Stop::NoMemory,
    }
}

/// Why `new-device` stops.
pub(crate) fn device_stop(fault: DeviceFault) -> Stop
    ensures { result ≡ device_stop fault }
{
    match fault {
        DeviceFault::Node(fault) => stop_of(fault),
        DeviceFault::Instance(fault) => instance_stop(fault),
    }
}

/// What a word throws for a fault of a property array: -9 for an address, -24 for arrays apart, -262 where
/// the array is too short, and -8 where no room is left.
pub(crate) fn array_throw(fault: PropFault) -> Throw
    ensures { result ≡ array_throw fault }
{
    match fault {
        PropFault::Address => Throw::INVALID_ADDRESS,
        PropFault::NotAdjacent => Throw::INVALID_ARGUMENT,
        PropFault::Short => Throw::SHORT_PROPERTY,
        PropFault::Full => Throw::DICTIONARY_OVERFLOW,
    }
}

/// The answer of a call on the tree, with its fault as a throw.
pub(crate) fn of_tree<T: Drop>(answer: Result<T, NodeFault>) -> Result<T, Throw>
    ensures { result ≡ of_tree answer }
{
    match answer {
        Ok(value) => Ok(value),
        Err(fault) => Err(node_throw(fault)),
    }
}

/// The answer of a call on instances, with its fault as a throw.
pub(crate) fn of_instance<T: Drop>(answer: Result<T, InstanceFault>) -> Result<T, Throw>
    ensures { result ≡ of_instance answer }
{
    match answer {
        Ok(value) => Ok(value),
        Err(fault) => Err(instance_throw(fault)),
    }
}

/// The answer of a call on property arrays, with its fault as a throw.
pub(crate) fn of_array<T: Drop>(answer: Result<T, PropFault>) -> Result<T, Throw>
    ensures { result ≡ of_array answer }
{
    match answer {
        Ok(value) => Ok(value),
        Err(fault) => Err(array_throw(fault)),
    }
}
