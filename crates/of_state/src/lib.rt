//! The state of the evaluator: images that begin, throws, and the end of a step.
#![tactic(auto)]

mod eval;
mod load_fault;
mod loading;
mod throwing;
mod views;

pub use eval::Eval;
pub use load_fault::LoadFault;
pub use throwing::is_opened;
