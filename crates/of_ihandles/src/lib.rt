//! Instances of packages, by their ihandles: blocks of their own for arguments and slots.
#![tactic(auto)]

mod blocks;
mod instance_fault;
mod instances;
mod laws;
mod rooms;
mod slots;

pub use blocks::{Block, Blocks};
pub use instance_fault::InstanceFault;
pub use instances::{Instance, Instances};
pub use laws::{
    blocks_are_owned, ihandles_are_new, instances_begin, instances_keep_the_space, slots_are_own,
};
pub use slots::{Slot, Template};
