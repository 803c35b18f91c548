//! The ordinary words: what each makes of the board, a group a module.
#![tactic(auto)]

mod console_numbers;
mod console_words;
mod heap;
mod inline_words;
mod laws;
mod printing;
mod tree_texts;
mod words;

pub use inline_words::{difference, exchange, is_less, sum};
pub use laws::{
    console_words_are_sequences, console_words_keep_the_space, console_words_throw_listed,
};
pub use words::{run_primitive, run_word};
