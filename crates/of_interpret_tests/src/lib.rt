//! Tests of the text interpreter, by lines of text and what they leave.
#![tactic(auto)]

#[cfg(test)]
mod lines;
#[cfg(test)]
mod reading;
#[cfg(test)]
mod standard;
