//! Runs of a machine to a goal.
ghost use Rattle.std.specs.Prelude.{◌≡◌, ◌≤◌, ◌<◌, ◌+◌, ◌-◌, ◌⊎◌, false, true, IfOk, OnErr};
ghost use Rattle.of_machine.specs.States.{HasMoved, MayGrow, can_step, goes_on};
ghost use Rattle.of_state.specs.State.{flat_calls};
ghost use Rattle.of_steps.specs.Goals.{IsUnreached, is_reached};

use super::Machine;
use of_code::CodeStore;
use of_steps::{Arrival, Bar, Goal, Mark, Pause, is_reached, run_to};
use std::alloc::AllocError;

impl<C: CodeStore> Machine<C> {
    /// Whether a run to a goal stops at this machine. Where a goal speaks of marked items, `marks` has them.
    pub fn is_reached(&self, marks: &[Mark], goal: Goal) -> bool
        ensures { result ≡ is_reached marks.now goal self.now.eval }
    {
        is_reached(marks, goal, &self.eval)
    }

    /// Makes steps as `run` does, up to the first with which a goal is reached; answers whether it is.
    ///
    /// An error is for memory alone: the steps before stand, which are fewer than `limit` and haven't reached the goal,
    /// and the next one, which can be made, may grow.
    #[tactic(auto, using(crate::proofs::EventLemmas::stays_put, crate::proofs::GoalLemmas::none_unreached))]
    pub fn run_to(&mut self, marks: &[Mark], goal: Goal, limit: u64) -> Result<bool, AllocError>
        ensures few { self.new.steps ≤ self.old.steps + limit }
        ensures fewer { OnErr result (self.new.steps < self.old.steps + limit) }
        ensures next { OnErr result (can_step self.new ≡ true) }
        ensures steps { HasMoved self.old self.new }
        ensures before { IsUnreached marks.now goal (self.new.steps - self.old.steps - 1) self.old.eval }
        ensures more { IfOk result (λ is. is ≡ true → self.old.steps < self.new.steps) }
        ensures reached { IfOk result (λ is. is ≡ true → is_reached marks.now goal self.new.eval ≡ true) }
        ensures unreached { IfOk result (λ is. is ≡ false
            → IsUnreached marks.now goal (self.new.steps - self.old.steps) self.old.eval) }
        ensures paused { IfOk result (λ is. is ≡ false
            → (self.new.steps ≡ self.old.steps + limit) ⊎ (goes_on flat_calls self.new ≡ false)) }
        ensures unmade { OnErr result
            (IsUnreached marks.now goal (self.new.steps - self.old.steps) self.old.eval) }
        ensures grows { OnErr result (MayGrow self.new) }
    {
        if self.waiting.is_some() {
            return Ok(false);
        }
        let countable = u64::MAX - self.steps;
        let (made, arrival) = run_to(&mut self.eval, marks, goal, limit.min(countable));
        self.steps += made;
        match arrival {
            Arrival::Reached => Ok(true),
            Arrival::Paused(Pause::LimitReached | Pause::Idle | Pause::Barred(Bar::Asks(_))) => Ok(
                false,
            ),
            Arrival::Paused(Pause::Barred(Bar::NoMemory)) => Err(AllocError),
        }
    }
}
