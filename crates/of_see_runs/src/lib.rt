//! What a machine comes to that reads what `see` prints.
#![tactic(auto)]

mod laws;

pub use laws::{printed_words_are_remade, see_reads_back};
