//! What the console prints of the device tree: the properties of a node, and the whole tree.
#![tactic(auto)]

mod children;
mod laws;
mod links;
mod names;
mod properties;
mod tree;
mod values;

pub use children::ls_text;
pub use laws::{children_are_listed, names_are_listed, properties_are_listed, values_are_shown};
pub use names::words_text;
pub use properties::properties_text;
pub use tree::{devs_text, pwd_text, tree_text};
