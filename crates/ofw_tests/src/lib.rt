//! Tests of the commands and of the command line, by their public calls.
#![tactic(auto)]

#[cfg(test)]
mod arguments;
#[cfg(test)]
mod boards;
#[cfg(test)]
mod clients;
#[cfg(test)]
mod commands;
#[cfg(test)]
mod consoles;
#[cfg(test)]
mod debugs;
#[cfg(test)]
mod devices;
#[cfg(test)]
mod doubles;
#[cfg(test)]
mod lines;
#[cfg(test)]
mod listings;
#[cfg(test)]
mod pages;
#[cfg(test)]
mod prompts;
#[cfg(test)]
mod shared;
#[cfg(test)]
mod strict;
#[cfg(test)]
mod tables;
#[cfg(test)]
mod trees;
