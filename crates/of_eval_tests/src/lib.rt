//! Tests of the evaluator's public calls, by images and what they make.
#![tactic(auto)]

#[cfg(test)]
mod byte_loading;
#[cfg(test)]
mod console_words;
#[cfg(test)]
mod dictionary_words;
#[cfg(test)]
mod flow;
#[cfg(test)]
mod going;
#[cfg(test)]
mod images;
#[cfg(test)]
mod running;
#[cfg(test)]
mod tokens;
