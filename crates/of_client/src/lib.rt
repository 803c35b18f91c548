//! Client services: what a client asks of the device tree between two steps, and what it is answered.
#![tactic(auto)]

mod calls;
mod laws;
mod services;

pub use calls::{ClientCall, ClientReply};
pub use laws::{names_are_met, values_are_got};
pub use services::reply_to;
