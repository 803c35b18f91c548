//! What stands next in a Forth text, with all that it parses: names are looked up in the search order of the board, and
//! what finds none is a number. Nothing is done yet.
#![tactic(auto)]

mod laws;
mod names;
mod numbers;
mod reading;
mod words;

pub use laws::stream_words_have_no_name;
pub use names::Names;
pub use reading::read;
pub use words::{Found, Part, TextWord};
