//! The lines of a source beside those of a listing.
#![tactic(auto)]

mod laws;
mod margin;

pub use laws::lines_have_margins;
pub use margin::beside_lines;
