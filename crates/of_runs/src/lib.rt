//! Runs whose console bytes go out as they come.
#![tactic(auto)]

mod answers;
mod boards;
mod outside;
mod printing;

pub use outside::{Answerer, Outside};
pub use printing::print_run;
