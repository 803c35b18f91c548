//! Steps of the evaluator: what comes next is done, and what is due then; what programs run often is done at once.
#![tactic(auto)]

mod fast_tokens;
mod fast_words;
mod goal_runs;
mod goals;
mod items;
mod laws;
mod loops;
mod marks;
mod performing;
mod steps;
mod unmarked;

pub use goal_runs::run_to;
pub use goals::{Arrival, Goal, is_reached};
pub use laws::throws_run_on;
pub use marks::Mark;
pub use steps::{Bar, Pause, run, step, step_with};
