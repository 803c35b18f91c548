//! What every reader of Forth text shares: the words and strings of a text, and what a word says as a number.
#![tactic(auto)]

mod laws;
mod numbers;
mod parts;
mod scan;

pub use laws::{parts_are_read, quoted_parts_are_read, strings_are_read, words_are_read};
pub use numbers::{Number, number_in};
pub use parts::StringBytes;
pub use scan::{Rest, Word};
