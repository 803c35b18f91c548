//! Tests of the device tree, of property values, of instances, of the board, of the words over it, of those that ask
//! the outside, of devices, and of what the console prints of the tree, by their public calls.
#![tactic(auto)]

#[cfg(test)]
mod active;
#[cfg(test)]
mod asking;
#[cfg(test)]
mod board;
#[cfg(test)]
mod calls;
#[cfg(test)]
mod console;
#[cfg(test)]
mod console_words;
#[cfg(test)]
mod faults;
#[cfg(test)]
mod histories;
#[cfg(test)]
mod instance_words;
#[cfg(test)]
mod instances;
#[cfg(test)]
mod names;
#[cfg(test)]
mod nodes;
#[cfg(test)]
mod ordinary;
#[cfg(test)]
mod properties;
#[cfg(test)]
mod rows;
#[cfg(test)]
mod running;
#[cfg(test)]
mod shown;
#[cfg(test)]
mod words;
