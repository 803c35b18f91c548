//! Scripts of a debugger: an image runs under the commands of a script, and each state that is shown is a line.
#![tactic(auto)]

mod commands;
mod playing;
mod shown;

pub use playing::{Played, debug_image, play};
