ghost use Rattle.std.specs.Prelude.{◌≡◌, ◌≤◌, ◌<◌, ◌-◌, ◌+◌, IfOk, OnErr, OnOk, Some, map, nat_le, true};
ghost use Rattle.of_machine.specs.Runs.{AreLater, AreUpto, clients_heard, fed, settled};
ghost use Rattle.of_machine.specs.States.{is_running};
ghost use Rattle.of_machine.specs.Refused.{HasDue, has_line, is_first_due};
ghost use Rattle.of_debug.specs.Stepping.{Breaks, HasStayed, HaveGone, IsRefused, IsTold, Turns, Untold};
ghost use Rattle.of_debug.specs.Turns.{handed_over};

use of_asking::{Answer, Query, is_fitting};
use of_client::ClientCall;
use of_code::CodeStore;
use of_machine::{Machine, Progress};
use of_steps::{Goal, Mark};
use std::alloc::AllocError;
use std::marker::Model;

/// A machine, and the console lines, answers and clients that are still to be handed in to it.
#[derive(Drop)]
pub(crate) struct Feeder<'a, C: CodeStore> {
    machine: Machine<C>,
    began: u64,
    lines: &'a [Vec<u8>],
    answers: &'a [Answer],
    calls: &'a [(u64, ClientCall)],
}

// Clauses see a feed, and how many steps its machine had made when it was handed over.
impl<'a, C: CodeStore> Model for Feeder<'a, C> {
    ghost use Rattle.std.specs.Prelude.{◌≤◌, map};
    ghost use Rattle.of_debug.specs.Turns.{Handed, due_from};

    ghost Value = { Handed };

    ghost view = { λ f. record {
      feed = record {
        machine = f.machine;
        lines = map (λ l. l.items) f.lines.now;
        answers = f.answers.now;
        calls = map (due_from f.began) f.calls.now;
      };
      began = f.began;
    } };

    ghost invariant = { λ f. f.began ≤ f.machine.steps };
}

impl<'a, C: CodeStore> Feeder<'a, C> {
    /// What is handed in to a machine as a run goes on. Clients count the steps from now on.
    pub(crate) fn new(
        machine: Machine<C>,
        lines: &'a [Vec<u8>],
        answers: &'a [Answer],
        calls: &'a [(u64, ClientCall)],
    ) -> Feeder<'a, C>
        ensures { result ≡ handed_over machine (map (λ l. l.items) lines.now) answers.now calls.now }
    {
        let began = machine.steps();
        Feeder {
            machine,
            began,
            lines,
            answers,
            calls,
        }
    }

    /// The machine.
    pub(crate) fn machine(&self) -> &Machine<C>
        ensures { result.now ≡ self.now.feed.machine }
    {
        &self.machine
    }

    /// Gives the machine back.
    pub(crate) fn into_machine(self) -> Machine<C>
        ensures { result ≡ self.entry.feed.machine }
    {
        self.machine
    }

    /// How many steps were made.
    pub(crate) fn made(&self) -> u64
        ensures { result ≡ self.now.feed.machine.steps - self.now.began }
    {
        self.machine.steps() - self.began
    }

    /// Whether a client is to be answered now.
    #[tactic(auto, using(crate::proofs::FeedLemmas::due_since))]
    fn is_due(&self, due: u64) -> bool
        ensures { result ≡ nat_le (self.now.began + due) self.now.feed.machine.steps }
    {
        due <= self.machine.steps() - self.began
    }

    /// Answers the clients that are to be answered now. Where memory is refused, those that were answered are, and one
    /// is left.
    fn hear(&mut self) -> Result<(), AllocError>
        ensures heard { OnOk result (self.new.feed ≡ clients_heard self.old.feed) }
        ensures later { OnErr result (clients_heard self.new.feed ≡ clients_heard self.old.feed) }
        ensures due { OnErr result (is_first_due self.new.feed.calls self.new.feed.machine.steps ≡ true) }
        ensures began { self.new.began ≡ self.old.began }
        ensures steps { self.new.feed.machine.steps ≡ self.old.feed.machine.steps }
    {
        while let Some(((due, call), rest)) = self.calls.split_first() {
            if !self.is_due(*due) {
                return Ok(());
            }
            if self.machine.client(call).is_err() {
                return Err(AllocError);
            }
            self.calls = rest;
        }
        Ok(())
    }

    /// Hands in the next line, if nothing runs and one is left.
    fn feed(&mut self) -> Result<(), AllocError>
        ensures fed { OnOk result (self.new.feed ≡ fed self.old.feed) }
        ensures err { OnErr result (self.new ≡ self.old) }
        ensures due { OnErr result (has_line (is_running self.new.feed.machine) self.new.feed.lines ≡ true) }
        ensures began { self.new.began ≡ self.old.began }
        ensures steps { self.new.feed.machine.steps ≡ self.old.feed.machine.steps }
    {
        if self.machine.is_running() {
            return Ok(());
        }
        let Some((line, rest)) = self.lines.split_first() else {
            return Ok(());
        };
        if self.machine.line(line).is_err() {
            return Err(AllocError);
        }
        self.lines = rest;
        Ok(())
    }

    /// Answers the clients that are to be answered now, and hands in the next line, if nothing runs.
    ///
    /// Where memory is refused, what was done stays, and the next call does the rest, of which there is some.
    #[tactic(auto, using(crate::proofs::FeedLemmas::settled_heard))]
    pub(crate) fn settle(&mut self) -> Result<(), AllocError>
        ensures settled { OnOk result (self.new.feed ≡ settled self.old.feed) }
        ensures later { OnErr result (settled self.new.feed ≡ settled self.old.feed) }
        ensures due { OnErr result (HasDue self.new.feed) }
        ensures began { self.new.began ≡ self.old.began }
        ensures steps { self.new.feed.machine.steps ≡ self.old.feed.machine.steps }
    {
        self.hear()?;
        self.feed()
    }

    /// Makes the step whose question is open with the next answer; answers whether there is one that fits.
    #[tactic(auto, using(crate::proofs::TellLemmas::none_left, crate::proofs::TellLemmas::misfits))]
    fn tell(&mut self, query: Query) -> Result<bool, AllocError>
        requires open { self.old.feed.machine.waiting ≡ Some query }
        ensures told { IfOk result (λ fits. IsTold fits self.old.feed self.new.feed) }
        ensures err { OnErr result (Untold self.old.feed self.new.feed) }
        ensures began { self.new.began ≡ self.old.began }
    {
        let Some((answer, rest)) = self.answers.split_first() else {
            return Ok(false);
        };
        if !is_fitting(query, *answer) {
            return Ok(false);
        }
        match self.machine.answer(*answer) {
            Ok(()) => {}
            Err(_) => return Err(AllocError),
        }
        self.answers = rest;
        self.settle()?;
        Ok(true)
    }

    /// Makes a turn of the run: a step, with its answer if it asks, and what is due behind it; answers whether one was
    /// made.
    ///
    /// Where memory is refused, no step was made, which may grow, or a whole one, behind which not all is handed in.
    pub(crate) fn turn(&mut self) -> Result<bool, AllocError>
        ensures turned { IfOk result (λ went. Turns went self.old.feed self.new.feed) }
        ensures broken { OnErr result (Breaks self.old.feed self.new.feed) }
        ensures began { self.new.began ≡ self.old.began }
    {
        match self.machine.step()? {
            Progress::Ended => Ok(false),
            Progress::Done => {
                self.settle()?;
                Ok(true)
            }
            Progress::Asks(query) => self.tell(query),
        }
    }

    /// How many steps are made before a client is to be answered, and `most` at most.
    fn quiet(&self, most: u64) -> u64
        requires later { AreLater self.now.feed.machine.steps self.now.feed.calls }
        ensures few { result ≤ most }
        ensures some { 1 ≤ most → 1 ≤ result }
        ensures upto { AreUpto (self.now.feed.machine.steps + result) self.now.feed.calls }
    {
        match self.calls.first() {
            Some((due, _)) => most.min(*due - self.made()),
            None => most,
        }
    }

    /// Makes one turn; answers how many were made.
    fn turn_once(&mut self) -> Result<u64, AllocError>
        ensures went { IfOk result (λ k. 0 < k → (k ≡ 1) × Turns true self.old.feed self.new.feed) }
        ensures stayed { IfOk result (λ k. k ≡ 0 → HasStayed self.old.feed self.new.feed) }
        ensures broken { OnErr result (Breaks self.old.feed self.new.feed) }
        ensures began { self.new.began ≡ self.old.began }
    {
        Ok(if self.turn()? { 1 } else { 0 })
    }

    /// Makes turns of the run, one at least where one can be made and `most` at most, up to the first with which the
    /// goal is reached, or the first behind which something is handed in or asked; answers how many.
    ///
    /// Where memory is refused, the steps before stand, and what comes next asks for it.
    pub(crate) fn go(&mut self, marks: &[Mark], goal: Goal, most: u64) -> Result<u64, AllocError>
        requires some { 1 ≤ most }
        requires settled { settled self.old.feed ≡ self.old.feed }
        ensures went { IfOk result (λ k. 0 < k → HaveGone marks.now goal most k self.old.feed self.new.feed) }
        ensures stayed { IfOk result (λ k. k ≡ 0 → HasStayed self.old.feed self.new.feed) }
        ensures refused { OnErr result (IsRefused marks.now goal most self.old.feed self.new.feed) }
        ensures began { self.new.began ≡ self.old.began }
    {
        if self.machine.question().is_some() {
            return self.turn_once();
        }
        let before = self.machine.steps();
        let quiet = self.quiet(most);
        let _ = self.machine.run_to(marks, goal, quiet)?;
        let made = self.machine.steps() - before;
        if made == 0 {
            return self.turn_once();
        }
        self.settle()?;
        Ok(made)
    }
}
