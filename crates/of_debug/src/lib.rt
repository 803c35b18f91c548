//! A debugger of a machine: it goes on step by step, or up to an item that is marked, and shows the states of the
//! undisturbed run.
#![tactic(auto)]

mod debugger;
mod fault;
mod feeder;
mod laws;
mod marks;

pub use debugger::Debugger;
pub use fault::DebugFault;
pub use laws::{calls_stop_first, debugged_runs_agree, due_is_left, shown_states_are_the_runs};
pub use of_steps::Mark;
