//! Tests of the public calls of the lowest crates, a file for each.
#![tactic(auto)]

#[cfg(test)]
mod cell_code;
#[cfg(test)]
mod cells;
#[cfg(test)]
mod code;
#[cfg(test)]
mod control;
#[cfg(test)]
mod dict;
#[cfg(test)]
mod fcodes;
#[cfg(test)]
mod memory;
#[cfg(test)]
mod returns;
#[cfg(test)]
mod rows;
#[cfg(test)]
mod stacks;
#[cfg(test)]
mod tokens;
