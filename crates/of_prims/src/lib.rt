//! The words over the data stack, the data space and the pictured text.
#![tactic(auto)]

mod address_shapes;
mod address_words;
mod faults;
mod laws;
mod memory_words;
mod number_words;
mod prims;
mod text_words;

pub use address_words::run_address_word;
pub use faults::throw_of;
pub use laws::prims_throw_listed;
pub use memory_words::{fetch, fetch_byte, run_memory_word, store, store_byte};
pub use number_words::run_number_word;
pub use prims::prim;
pub use text_words::run_text_word;
