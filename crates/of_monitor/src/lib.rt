//! A console on a machine: lines are read and run one after the other, and devices answer what the machine asks.
#![tactic(auto)]

mod attending;
mod entering;

pub use attending::attend;
pub use entering::enter;
