//! The evaluator: what tokens, items and words make of the state of the machine.
#![tactic(auto)]

mod byte_loading;
mod calling;
mod defining_tokens;
mod evaluating;
mod executing;
mod laws;
mod methods;
mod naming;
mod reading;
mod tokens;

pub use defining_tokens::{compile, semicolon};
pub use executing::{execute, keep, push_string, run_kind, run_returns_word};
pub use laws::{acts_work_on_stacks, plans_unroll, words_are_executed};
pub use naming::define_named;
pub use reading::token_due;
