//! The machine: it runs the tokens of an image, step by step, as the abstract machine does.
#![tactic(auto)]

mod answers;
mod laws;
mod machine;
mod racks;
mod run;
mod script_run;

pub use answers::{End, Progress};
pub use laws::{calls_agree, runs_agree, stretches_join};
pub use machine::{LONGEST_IMAGE, LONGEST_LINE, Machine};
pub use racks::{go_with, run_rack};
pub use run::{ScriptMachine, begin_run, loaded_machine, run_script, script_machine};
pub use script_run::ScriptRun;
