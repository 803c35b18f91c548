//! What is wrong with an FCode image, found without running it.
#![tactic(auto)]

mod checker;
mod definition;
mod finding;
mod header;
mod laws;
mod made;
mod text;

pub use checker::findings;
pub use finding::Finding;
pub use laws::{
    bound_cuts_nothing, clean_images_are_listed, findings_are_ordered, plain_items_fit,
};
pub use text::finding_lines;
