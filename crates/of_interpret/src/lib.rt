//! The text interpreter: what the words of a console line or an evaluated text make of the state of the machine.
#![tactic(auto)]

mod compiling;
mod laws;
mod nodes;
mod reading;
mod seeing;
mod strings;
mod words;

pub use laws::text_words_do;
pub use reading::text_due;
