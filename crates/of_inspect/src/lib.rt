//! The commands that look at images, and at the ROMs of PCI cards, without running them.
#![tactic(auto)]

mod looks;
mod roms;

pub use looks::check;
pub use roms::pci;
