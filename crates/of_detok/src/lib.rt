//! Listings of FCode images, a line for each token, that read back to the image.
#![tactic(auto)]

mod fault;
mod labels;
mod laws;
mod line;
mod lister;
mod notes;
mod reader;
mod taker;

pub use fault::DetokFault;
pub use laws::{bound_cuts_nothing, definitions_are_taken, listings_read_back};
pub use lister::{listing, partial_listing};
pub use notes::Extras;
pub use reader::read_listing;
pub use taker::definitions;
