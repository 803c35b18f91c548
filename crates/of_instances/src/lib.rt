//! The words over the device tree: properties, packages, `new-device` and instances.
#![tactic(auto)]

mod calling;
mod cells;
mod encoding;
mod faults;
mod finding;
mod instance_words;
mod laws;
mod property_words;
mod reading;
mod setting;
mod tree_words;

pub use calling::{Callee, CallingWord, MethodCall, Operands, find_call, open_instance};
pub use laws::{instances_open, tree_words_throw_listed, words_keep_the_space};
pub use property_words::run_properties_word;
pub use tree_words::run_tree_word;
