//! Tests of the machine's public calls.
#![tactic(auto)]

#[cfg(test)]
mod asking;
#[cfg(test)]
mod callers;
#[cfg(test)]
mod calls;
#[cfg(test)]
mod clients;
#[cfg(test)]
mod instances;
#[cfg(test)]
mod lines;
#[cfg(test)]
mod methods;
#[cfg(test)]
mod opening;
#[cfg(test)]
mod places;
#[cfg(test)]
mod printing;
#[cfg(test)]
mod questions;
#[cfg(test)]
mod racks;
#[cfg(test)]
mod refused;
#[cfg(test)]
mod rows;
#[cfg(test)]
mod runs;
#[cfg(test)]
mod shared;
#[cfg(test)]
mod slots;
#[cfg(test)]
mod stretches;
#[cfg(test)]
mod tree;
