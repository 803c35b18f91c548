//! What `see` prints of a word: a colon definition as a text that compiles again, and any other word by what it does.
#![tactic(auto)]

mod begins;
mod cases;
mod definition;
mod elements;
mod laws;
mod names;
mod open;
mod printing;
mod text;

pub use laws::{
    begins_are_counted, plain_items_are_listed, strings_read_back, thens_are_counted,
    words_read_back,
};
pub use text::see_text;
