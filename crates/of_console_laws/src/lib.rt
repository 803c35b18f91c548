//! What holds of what the console prints of a node.
#![tactic(auto)]

mod laws;

pub use laws::{listings_are_lines, names_stay};
