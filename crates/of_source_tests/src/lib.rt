//! Tests of sources, by their public calls.
#![tactic(auto)]

#[cfg(test)]
mod source;
