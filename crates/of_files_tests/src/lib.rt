//! Tests of what is read of files and said of them, by public calls.
#![tactic(auto)]

#[cfg(test)]
mod reads;
#[cfg(test)]
mod roms;
#[cfg(test)]
mod sources;
