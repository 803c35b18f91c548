//! Runs of which each step is written as a line of JSON: where it was made, and what it has changed.
#![tactic(auto)]

mod asks;
mod fault;
mod json;
mod places;
mod runs;
mod space;
mod tracer;
mod tree;

pub use fault::TraceFault;
pub use runs::{trace_answered, trace_on_board};
