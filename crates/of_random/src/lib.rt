//! Random images and sources, as a seed determines them.
#![tactic(auto)]

mod image_maker;
mod numbers;
mod source_maker;

pub use image_maker::random_image;
pub use numbers::Numbers;
pub use source_maker::{SourceText, random_source};
