//! Tests of the debugger, by its public calls.
#![tactic(auto)]

#[cfg(test)]
mod clients;
#[cfg(test)]
mod goals;
#[cfg(test)]
mod marks;
#[cfg(test)]
mod questions;
#[cfg(test)]
mod refused;
#[cfg(test)]
mod runs;
#[cfg(test)]
mod shared;
