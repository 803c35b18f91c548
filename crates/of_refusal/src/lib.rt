//! Why a call of the machine is refused, for those who say it and don't call.
#![tactic(auto)]

mod refusal;

pub use refusal::Refusal;
