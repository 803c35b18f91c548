//! Tests of the crates of words and images, by their public calls, a file for each.
#![tactic(auto)]

#[cfg(test)]
mod calc;
#[cfg(test)]
mod detok;
#[cfg(test)]
mod format;
#[cfg(test)]
mod looks;
#[cfg(test)]
mod prims;
#[cfg(test)]
mod rom;
#[cfg(test)]
mod rows;
#[cfg(test)]
mod scan;
#[cfg(test)]
mod stream;
