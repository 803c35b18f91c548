use crate::texts::Texts;
use of_nodes::Phandle;
use of_stacks::{Continuation, Reading, ReturnStack};

/// Where control is.
#[derive(Drop)]
pub struct Flow {
    /// The return stack.
    pub items: ReturnStack,
    /// What is being read.
    pub reading: Reading,
    /// Whether something runs.
    pub is_running: bool,
    /// Where control goes on, where something runs.
    pub next: Continuation,
    /// Whether words are compiled rather than executed; the cell `state` says so, too.
    pub is_compiling: bool,
    /// The package that was active where the latest definition was opened, if one was: its word becomes a method there.
    pub home: Option<Phandle>,
    /// The texts that are being read.
    pub texts: Texts,
    /// How many bytes of the scratch region interpreted strings have taken, one after another.
    pub strings: u32,
}
