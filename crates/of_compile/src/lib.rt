//! The compiler of definitions: the words that images define, and what an open definition becomes as code.
#![tactic(auto)]

mod appending;
mod coding;
mod compiling;
mod defining;
mod definitions;
mod dictionary_words;
mod element;
mod laws;
mod slot_words;
mod tokens;
mod waiting;
mod words;

pub use coding::Coding;
pub use defining::DefiningWord;
pub use definitions::{abandon_definition, compile_call, end_definition};
pub use element::{Element, PlainItem};
pub use laws::{
    compiles_reading, definitions_come_and_go, places_are_numbered, runs_by_structure,
    structures_are_flat, words_get_their_names,
};
pub use tokens::{CompiledOperand, called, text_elements, token_element};
pub use words::{Pending, TokenMaker, Words};
