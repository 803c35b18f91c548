//! Calls of a client, answers of the outside, devices that answer, console lines and commands of a debugger, written
//! as text: a line for each.
#![tactic(auto)]

mod answer;
mod call;
mod console_line;
mod fault;
mod line;
mod part;
mod script;
mod script_fault;
mod service;
mod text;

pub use fault::TextFault;
pub use script::{ScriptCommand, ScriptWord, parse_script};
pub use script_fault::ScriptFault;
pub use text::{parse, parse_answers, parse_board, parse_lines};
