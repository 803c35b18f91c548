//! Goals of runs: where one stops before its limit.
ghost use Rattle.std.specs.Prelude.{◌≡◌};
ghost use Rattle.of_steps.specs.Goals.{is_reached};

use crate::marks::{Mark, is_marked};
use crate::steps::Pause;
use of_code::CodeStore;
use of_state::Eval;

/// Where a run stops, behind one step at least.
#[derive(Clone, Copy)]
pub enum Goal {
    /// Behind each step.
    Step,
    /// Where the return stack has no more than so many items.
    NoDeeper(usize),
    /// Where it has fewer than so many.
    Shallower(usize),
    /// Where the item that comes next is marked.
    Marked,
}

/// Why a run to a goal makes no more steps.
#[derive(Clone, Copy)]
pub enum Arrival {
    /// The goal is reached.
    Reached,
    /// It isn't, and no more steps are made.
    Paused(Pause),
}

/// Whether a state is one at which a run to a goal stops.
pub fn is_reached<C: CodeStore>(marks: &[Mark], goal: Goal, eval: &Eval<C>) -> bool
    ensures { result ≡ is_reached marks.now goal eval.now }
{
    match goal {
        Goal::Step => true,
        Goal::NoDeeper(depth) => eval.depth() <= depth,
        Goal::Shallower(depth) => eval.depth() < depth,
        Goal::Marked => is_marked(marks, eval.place()),
    }
}
