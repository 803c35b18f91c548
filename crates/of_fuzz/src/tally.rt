//! What was compared, counted.
use of_code::CodeStore;
use of_machine::Machine;
use std::fmt;

/// How a run stands at its end.
#[derive(Clone, Copy)]
pub enum Ending {
    /// Nothing runs, and nothing was thrown that no `catch` took.
    Done,
    /// Nothing runs, and something was.
    Thrown,
    /// It goes on behind the last step that is allowed.
    Going,
    /// A question is open.
    Asking,
    /// The image was refused.
    Refused,
}

/// Whether a text has the report of a throw.
fn has_fault(text: &[u8]) -> bool {
    text.windows(6).any(|part| part == b"fault ".as_slice())
}

/// How the run of a machine stands.
pub fn ending_of<C: CodeStore>(machine: &Machine<C>) -> Ending {
    if machine.question().is_some() {
        Ending::Asking
    } else if machine.is_running() {
        Ending::Going
    } else if has_fault(machine.console()) {
        Ending::Thrown
    } else {
        Ending::Done
    }
}

/// How many runs came to each end.
#[derive(Clone, Copy, Default)]
pub struct Endings {
    done: u64,
    thrown: u64,
    going: u64,
    asking: u64,
    refused: u64,
}

impl Endings {
    /// Counts a run.
    pub fn count(&mut self, ending: Ending) {
        let counter = match ending {
            Ending::Done => &mut self.done,
            Ending::Thrown => &mut self.thrown,
            Ending::Going => &mut self.going,
            Ending::Asking => &mut self.asking,
            Ending::Refused => &mut self.refused,
        };
        *counter = counter.saturating_add(1);
    }
}

impl fmt::Display for Endings {
    fn fmt<W: fmt::Write>(&self, f: &mut fmt::Formatter<W>) -> fmt::Result {
        write!(
            f,
            "{} done, {} thrown, {} going on, {} asking, {} refused",
            self.done, self.thrown, self.going, self.asking, self.refused
        )
    }
}

/// How many rounds there were and how many of them found a difference, how many bytes their images have, how many of
/// these were listed, how the runs over both stores, the sources' runs and the divided runs ended, and how many states
/// of debuggers were compared.
#[derive(Clone, Copy, Default)]
pub struct Tally {
    /// Rounds.
    pub rounds: u64,
    /// Those that found a difference.
    pub differing: u64,
    /// Bytes of images.
    pub bytes: u64,
    /// Images that have a listing.
    pub listed: u64,
    /// Sources that were parsed.
    pub sources: u64,
    /// States of debuggers.
    pub states: u64,
    /// Steps that debuggers made.
    pub steps: u64,
    /// Runs over both stores of code.
    pub stores: Endings,
    /// Runs of sources.
    pub runs: Endings,
    /// Divided runs.
    pub halves: Endings,
}

/// Adds to a counter.
pub fn add(counter: &mut u64, more: u64) {
    *counter = counter.saturating_add(more);
}

impl fmt::Display for Tally {
    fn fmt<W: fmt::Write>(&self, f: &mut fmt::Formatter<W>) -> fmt::Result {
        writeln!(f, "images: {} bytes; {}", self.bytes, self.stores)?;
        writeln!(f, "lists: {} of {}", self.listed, self.rounds)?;
        writeln!(
            f,
            "sources: {} of {}; {}",
            self.sources, self.rounds, self.runs
        )?;
        writeln!(f, "debugger: {} states, {} steps", self.states, self.steps)?;
        writeln!(f, "halves: {}", self.halves)?;
        write!(f, "{} rounds, {} differ", self.rounds, self.differing)
    }
}
