ghost use Rattle.std.specs.Prelude.{◌≡◌, ◌⊎◌, ◌<◌, ◌≤◌, IfOk, OnOk, OnErr, None, is_some, true, false};
ghost use Rattle.of_machine.specs.declared.answers.End.TheVariants.{LimitReached};
ghost use Rattle.of_machine.specs.Runs.{Advances, AreLater, AreUpto, HasGone, IsCalm, IsOut, IsOver, IsTold};
ghost use Rattle.of_machine.specs.Runs.{clients_heard, fed, line_left, settled};
ghost use Rattle.of_machine.specs.Refused.{IsHeld, IsHeldAlone, IsUnserved, IsUntold, has_line, is_first_due};
ghost use Rattle.of_machine.specs.States.{MayGrow, answer_refusal, answered, is_running};
ghost use Rattle.of_machine.specs.Stretches.{Stretches};
ghost use Rattle.of_state.specs.State.{flat_calls};

use crate::answers::{End, Progress};
use crate::run::{ScriptMachine, end_of};
use of_asking::{Answer, Query};
use of_client::ClientCall;
use of_refusal::Refusal;
use std::alloc::AllocError;
use std::marker::Model;

/// What an advance of a run came to.
#[derive(Clone, Copy)]
pub(crate) enum Advance {
    /// Clients were answered or a line was handed in behind its last step, and more can be made.
    Further,
    /// So many steps are made as are allowed, or none can be made.
    Over,
    /// The next step asks.
    Asks(Query),
}

/// A run under way: its machine, and the console lines, answers and clients that are left.
#[derive(Drop)]
pub struct ScriptRun<'a> {
    pub(crate) machine: ScriptMachine,
    pub(crate) lines: &'a [Vec<u8>],
    pub(crate) answers: &'a [Answer],
    pub(crate) calls: &'a [(u64, ClientCall)],
}

// Clauses see a machine with what is left to be handed in to it, whose definitions are cells.
impl<'a> Model for ScriptRun<'a> {
    ghost use Rattle.std.specs.Prelude.{map};
    ghost use Rattle.of_compile.specs.Coding.{Coding};
    ghost use Rattle.of_machine.specs.Runs.{Feed, due_of};

    ghost Value = { Feed Coding };

    ghost view = { λ f. record {
      machine = f.machine;
      lines = map (λ l. l.items) f.lines.now;
      answers = f.answers.now;
      calls = map due_of f.calls.now;
    } };
}

impl<'a> ScriptRun<'a> {
    /// Hands in the next line, if nothing runs and one is left.
    ///
    /// An error is for memory alone; then nothing has changed, and a line is to be handed in.
    fn feed(&mut self) -> Result<(), AllocError>
        ensures fed { OnOk result (self.new ≡ fed self.old) }
        ensures err { OnErr result (self.new ≡ self.old) }
        ensures due { OnErr result (has_line (is_running self.new.machine) self.new.lines ≡ true) }
    {
        if self.machine.is_running() {
            return Ok(());
        }
        let Some((line, rest)) = self.lines.split_first() else {
            return Ok(());
        };
        if self.machine.line(line).is_err() {
            return Err(AllocError);
        }
        self.lines = rest;
        Ok(())
    }

    /// Answers the clients that are to be answered now, and hands in the next line, if nothing runs.
    ///
    /// An error is for memory alone; then what was done stays, and the rest is to be done, of which there is some.
    #[tactic(auto, using(crate::proofs::RunLemmas::still_later, crate::proofs::RefusedLemmas::client_left))]
    pub(crate) fn serve(&mut self) -> Result<(), AllocError>
        ensures served { OnOk result (self.new ≡ settled self.old) }
        ensures later { OnOk result (AreLater self.new.machine.steps self.new.calls) }
        ensures unserved { OnErr result (IsUnserved (settled self.old) self.new) }
    {
        self.hear()?;
        self.feed()
    }

    /// Answers the clients that are to be answered now.
    ///
    /// An error is for memory alone; then those that were answered are, and one is left.
    fn hear(&mut self) -> Result<(), AllocError>
        ensures heard { OnOk result (self.new ≡ clients_heard self.old) }
        ensures later { OnOk result (AreLater self.new.machine.steps self.new.calls) }
        ensures rest { OnErr result (clients_heard self.new ≡ clients_heard self.old) }
        ensures due { OnErr result (is_first_due self.new.calls self.new.machine.steps ≡ true) }
    {
        while let Some(((due, call), rest)) = self.calls.split_first() {
            if *due > self.machine.steps() {
                return Ok(());
            }
            if self.machine.client(call).is_err() {
                return Err(AllocError);
            }
            self.calls = rest;
        }
        Ok(())
    }

    /// Hands in the next line, where nothing runs; answers whether one was left.
    ///
    /// An error is for memory alone, as that of `serve`.
    fn go_on(&mut self) -> Result<Advance, AllocError>
        ensures served { OnOk result (self.new ≡ settled self.old) }
        ensures later { OnOk result (AreLater self.new.machine.steps self.new.calls) }
        ensures unserved { OnErr result (IsUnserved (settled self.old) self.new) }
        ensures further { IfOk result (λ a. a ≡ line_left self.old.lines) }
    {
        let is_last = self.lines.is_empty();
        self.serve()?;
        Ok(if is_last {
            Advance::Over
        } else {
            Advance::Further
        })
    }

    /// How many steps can be made before a client is to be answered, at most `limit`.
    fn until(&self, limit: u64) -> u64
        ensures few { result ≤ limit }
        ensures due { result < limit → AreLater self.now.machine.steps self.now.calls
            → self.now.machine.steps < result }
        ensures upto { AreUpto result self.now.calls }
    {
        match self.calls.first() {
            Some((due, _)) => limit.min(*due),
            None => limit,
        }
    }

    /// Makes the step that asks with the next answer; answers whether there is one that fits.
    ///
    /// An error is for memory alone: the step isn't made, which may grow, or not all behind it is handed in.
    fn tell(&mut self) -> Result<bool, AllocError>
        requires { is_some self.old.machine.waiting ≡ true }
        ensures told { IfOk result (λ fits. fits ≡ true → IsTold self.old self.new) }
        ensures out { IfOk result (λ fits. fits ≡ false → IsOut self.old self.new) }
        ensures untold { OnErr result (IsUntold self.old self.new) }
    {
        let Some((answer, rest)) = self.answers.split_first() else {
            return Ok(false);
        };
        match self.machine.answer(*answer) {
            Ok(()) => {
                self.answers = rest;
                self.serve()?;
                Ok(true)
            }
            Err(Refusal::NoMemory) => Err(AllocError),
            Err(_) => Ok(false),
        }
    }

    /// Makes the step that asks with an answer that fits.
    ///
    /// An error is for memory alone: the step isn't made, which may grow, or not all behind it is handed in.
    pub(crate) fn answer(&mut self, answer: Answer) -> Result<(), AllocError>
        requires { answer_refusal self.old.machine.waiting answer ≡ None }
        ensures told { OnOk result (self.new
            ≡ settled (record self.old { machine = answered flat_calls answer self.old.machine })) }
        ensures later { OnOk result (AreLater self.new.machine.steps self.new.calls) }
        ensures untold { OnErr result (((self.new ≡ self.old) × MayGrow self.old.machine)
            ⊎ IsUnserved (settled (record self.old { machine = answered flat_calls answer self.old.machine }))
            self.new) }
    {
        let Ok(()) = self.machine.answer(answer) else {
            return Err(AllocError);
        };
        self.serve()
    }

    /// Makes steps up to one that asks, or up to one behind which clients are answered or a line is handed in, at most
    /// until `limit` are made.
    ///
    /// An error is for memory alone; then no more was asked.
    pub(crate) fn advance(&mut self, limit: u64) -> Result<Advance, AllocError>
        requires few { self.old.machine.steps ≤ limit }
        requires calm { IsCalm self.old }
        ensures ok { IfOk result (λ a. Advances limit a self.old self.new) }
        ensures held { OnErr result (IsHeldAlone limit self.old self.new) }
    {
        let until = self.until(limit);
        self.machine.run(until - self.machine.steps())?;
        if self.machine.steps() == until {
            self.serve()?;
            return Ok(if until < limit {
                Advance::Further
            } else {
                Advance::Over
            });
        }
        if !self.machine.is_running() {
            let behind = self.go_on()?;
            return Ok(behind);
        }
        match self.machine.step()? {
            Progress::Asks(query) => return Ok(Advance::Asks(query)),
            Progress::Ended => return Ok(Advance::Over),
            // `run` has made all steps that don't ask
            Progress::Done => return Ok(Advance::Over),
        }
    }

    /// Makes steps up to one that asks, and this with its answer, or up to one behind which clients are answered or a
    /// line is handed in, at most until `limit` are made; answers whether more can be made.
    ///
    /// An error is for memory alone, as that of `go`.
    fn round(&mut self, limit: u64) -> Result<bool, AllocError>
        requires few { self.old.machine.steps ≤ limit }
        requires calm { IsCalm self.old }
        ensures gone { IfOk result (λ more. more ≡ true → HasGone self.old self.new) }
        ensures more { IfOk result (λ more. more ≡ true → self.old.machine.steps < self.new.machine.steps) }
        ensures few { IfOk result (λ more. more ≡ true → self.new.machine.steps ≤ limit) }
        ensures over { IfOk result (λ more. more ≡ false → IsOver limit self.old self.new) }
        ensures held { OnErr result (IsHeld limit self.old self.new) }
    {
        match self.advance(limit)? {
            Advance::Further => Ok(true),
            Advance::Over => Ok(false),
            Advance::Asks(_) => self.tell(),
        }
    }

    /// The machine as the run has left it so far.
    pub fn machine(&self) -> &ScriptMachine
        ensures { result.now ≡ self.now.machine }
    {
        &self.machine
    }

    /// The machine, where the run is given up or over.
    pub fn into_machine(self) -> ScriptMachine
        ensures { result ≡ self.entry.machine }
    {
        self.machine
    }

    /// A stretch of the run: makes steps, answers clients and hands in lines until `limit` steps are made in all, or no
    /// more can be made, and answers how the run stands then.
    ///
    /// At LimitReached the run can go on; otherwise it is over. At AnswersOut a step before the limit asks, and the
    /// next answer doesn't fit, or there is none: that question is open. An error is for memory alone: the run has come
    /// to where a client is to be answered or a line to be handed in, or to a step within the limit that may grow. Then
    /// it can't go on.
    pub fn go(&mut self, limit: u64) -> Result<End, AllocError>
        requires few { self.old.machine.steps ≤ limit }
        requires calm { IsCalm self.old }
        ensures gone { IfOk result (λ e. Stretches limit self.old self.new e) }
        ensures calm { IfOk result (λ e. e ≡ LimitReached → IsCalm self.new) }
        ensures made { IfOk result (λ e. e ≡ LimitReached → self.new.machine.steps ≡ limit) }
        ensures held { OnErr result (IsHeld limit self.old self.new) }
    {
        while self.round(limit)? {}
        Ok(end_of(&self.machine))
    }
}
