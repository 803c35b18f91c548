//! The files of `ofw`: what is read of them and written to them, and what is said of their faults.
#![tactic(auto)]

mod calls;
mod console_lines;
mod devices;
mod excerpts;
mod fault;
mod input;
mod messages;
mod openers;
mod output;
mod part;
mod place;
mod reasons;
mod roms;
mod scripts;
mod source_lists;
mod sources;

pub use calls::read_calls;
pub use console_lines::lines;
pub use devices::{answers, board};
pub use fault::{Fault, given_up};
pub use input::{read_image, read_whole};
pub use messages::Messages;
pub use output::{report, write_whole};
pub use roms::{program, refused, rom};
pub use scripts::script;
pub use source_lists::{SourceList, list};
pub use sources::{image, keep, tok};
