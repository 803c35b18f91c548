//! Tests of sources and their images, by their public calls.
#![tactic(auto)]

#[cfg(test)]
mod image;
