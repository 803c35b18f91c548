//! What the lines of the usage text ask for, in plain words.
#![tactic(auto)]

mod laws;

pub use laws::lines_ask;
