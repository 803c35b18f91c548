//! Tests of traces, by their public calls.
#![tactic(auto)]

#[cfg(test)]
mod traces;
