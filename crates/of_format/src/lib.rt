//! Numbers as text, the text that they read from, and pictured text.
#![tactic(auto)]

mod base_cell;
mod digits;
mod laws;
mod number_text;
mod pictured;
mod reading;

pub use base_cell::base;
pub use digits::{digit, digit_byte};
pub use laws::texts_read_back;
pub use number_text::{NumberText, double_text, signed_text, unsigned_text};
pub use pictured::Pictured;
pub use reading::read_number;
