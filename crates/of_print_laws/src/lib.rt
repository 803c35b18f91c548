//! What holds of what steps print.
#![tactic(auto)]

mod laws;

pub use laws::printed_stays;
