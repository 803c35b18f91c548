//! The data space of the board: six regions of bytes, with their blocks and images.
#![tactic(auto)]

mod blocks;
mod fault;
mod gather;
mod images;
mod laws;
mod memory;
mod regions;
mod width;

pub use fault::MemFault;
pub use laws::{
    changes_stay_sound, faults_stay, images_change_by_images_alone, latest_is_pushed,
    parts_are_good, properties_change_by_puts_alone, ranges_are_placed, reads_give_the_bytes,
    scratch_is_open, spreads_give_the_bytes, writes_change_their_bytes, writes_join,
};
pub use memory::Memory;
pub use width::Width;
