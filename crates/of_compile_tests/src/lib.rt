//! Tests of the public calls of the compiler of definitions, of the reader of texts and of `see`, a file for each part
//! of them.
#![tactic(auto)]

#[cfg(test)]
mod compiling;
#[cfg(test)]
mod defining;
#[cfg(test)]
mod naming;
#[cfg(test)]
mod see;
#[cfg(test)]
mod texts;
