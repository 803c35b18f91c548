//! What a source means.
#![tactic(auto)]

mod laws;

pub use laws::body_of_nest;
