//! Tests of the machine on images that are cut off or changed, on calls in every order, and over both stores of code.
#![tactic(auto)]

#[cfg(test)]
mod changes;
#[cfg(test)]
mod cuts;
#[cfg(test)]
mod events;
#[cfg(test)]
mod limits;
#[cfg(test)]
mod orders;
#[cfg(test)]
mod shared;
#[cfg(test)]
mod stores;
#[cfg(test)]
mod tables;
