//! Where control is, the tokens that come next, and what words of control and of the return stack make of both stacks.
#![tactic(auto)]

mod control;
mod control_state;
mod returns;
mod texts;
mod token;

pub use control::{ControlWord, keeps_rest, run_control};
pub use control_state::Flow;
pub use returns::{enter, exit, run_stacks_word};
pub use texts::Texts;
pub use token::{Token, Typed, typed_of};
