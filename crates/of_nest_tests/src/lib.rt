//! Nests of control words, from a console line and from an image.
#![tactic(auto)]

#[cfg(test)]
mod nests;
