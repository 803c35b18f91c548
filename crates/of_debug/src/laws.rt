// A law has no parameters and does nothing: its contract is the law.
ghost use Rattle.of_debug.specs.Debugging.{IsFaithful, RunsAgree};
ghost use Rattle.of_debug.specs.Stops.{DueIsLeft, StopFirst};

use of_machine::runs_agree;

/// Behind any list of calls, refused ones among them, a debugger stands on a state of the undisturbed run, and each
/// stepping call that answers Ok shows one, further on.
#[tactic(auto, using(crate::proofs::FaithfulLemmas::faithful))]
pub fn shown_states_are_the_runs()
    ensures { IsFaithful }
{}

/// The undisturbed run of a machine with no question open is the run that a script has, turn by turn; that of a machine
/// on which an image was loaded is the abstract machine's.
#[tactic(auto, using(crate::proofs::AgreeLemmas::runs_are))]
pub fn debugged_runs_agree()
    ensures { RunsAgree }
{
    runs_agree();
}

/// A stepping call stops behind the first step with which its goal is reached, and before that only where it has made
/// all steps that it may, or no more can be made.
#[tactic(auto, using(crate::proofs::StopLemmas::stop_first))]
pub fn calls_stop_first()
    ensures { StopFirst }
{}

/// Where a client or a line is due, handing in what is due changes what is left: so a refusal for it is one of memory.
#[tactic(auto, using(crate::proofs::FeedLemmas::due_is_left))]
pub fn due_is_left()
    ensures { DueIsLeft }
{}
