// A law has no parameters and does nothing: its contract is the law.
ghost use Rattle.of_machine.specs.Events.{CallsAgree};
ghost use Rattle.of_machine.specs.Runs.{RunsAgree};
ghost use Rattle.of_machine.specs.Stretches.{StretchesJoin};

use of_eval_laws::{states_stay_placed, steps_agree};

/// A run over the cells of definitions is, turn by turn, the abstract machine's run over their structure, laid out.
pub fn runs_agree()
    ensures { RunsAgree }
{
    states_stay_placed();
    steps_agree();
}

/// Each call of a machine is an event, and after any events a machine over cells is the abstract machine, whose
/// definitions are structured bodies, with these laid out; a run is as many events as steps were made.
pub fn calls_agree()
    ensures { CallsAgree }
{
    states_stay_placed();
    steps_agree();
}

/// A run that is made stretch by stretch is the run that is made in one go: stretches join, and from the beginning they
/// come to what a run of as many steps answers.
pub fn stretches_join()
    ensures { StretchesJoin }
{
    runs_agree();
}
