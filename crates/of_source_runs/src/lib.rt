//! The runs of sources' images.
#![tactic(auto)]

mod laws;

pub use laws::tokenized_means;
