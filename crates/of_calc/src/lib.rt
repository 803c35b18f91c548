//! The words that take cells from the data stack and give cells back.
#![tactic(auto)]

mod arithmetic;
mod arranging;
mod comparing;
mod laws;
mod shapes;
mod splitting;

pub use arithmetic::calculate;
pub use arranging::arrange;
pub use comparing::compare;
pub use laws::calculations_throw_listed;
pub use splitting::split;
