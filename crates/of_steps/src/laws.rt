// A law has no parameters and does nothing: its contract is the law.
ghost use Rattle.of_compile.specs.Coding.{Coding};
ghost use Rattle.of_compile.specs.Structured.{Definitions};
ghost use Rattle.of_steps.specs.Steps.{ThrowsRunOn};

/// What throws leaves what runs running, so that behind the `catch` that takes it something runs.
#[tactic(auto, using(crate::proofs::StillRunning::throws_run_on))]
pub fn throws_run_on()
    ensures cells { ThrowsRunOn Coding }
    ensures bodies { ThrowsRunOn Definitions }
{}
