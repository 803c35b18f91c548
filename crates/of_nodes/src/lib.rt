//! The device tree: nodes with properties and methods.
#![tactic(auto)]

mod asked;
mod components;
mod fault;
mod laws;
mod lookup;
mod methods;
mod names;
mod paths;
mod phandles;
mod properties;
mod texts;
mod tree;

pub use fault::NodeFault;
pub use laws::{
    after_runs, components_are_meant, first_paths_find, methods_are_found, paths_find,
    properties_are_found, properties_keep_the_space, stored_stays, tree_finds, tree_is_shown,
    ways_lead,
};
pub use methods::Methods;
pub use phandles::Phandle;
pub use properties::{Properties, Property, Span};
pub use texts::{before, behind};
pub use tree::{Node, Tree};
