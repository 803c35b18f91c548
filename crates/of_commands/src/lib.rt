//! The commands of `ofw`, over any reader and any writers.
#![tactic(auto)]

mod clients;
mod consoles;
mod debugs;
mod definitions;
mod engine;
mod explain;
mod listings;
mod places;
mod prompts;
mod state;
mod strict;

pub use clients::{ClientRun, client};
pub use consoles::{ConsoleRun, console};
pub use debugs::{DebugRun, debug};
pub use engine::{Run, answer};
pub use prompts::{PromptRun, follow, prompt};
pub use strict::ends_by_throw;
