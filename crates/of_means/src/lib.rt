//! What a source means, and that its image does so.
#![tactic(auto)]

mod laws;

pub use laws::{source_is_followed, sources_behave, sources_print_alike, words_are_followed};
