ghost use Rattle.std.specs.Prelude.{◌≡◌, ◌≤◌, ◌+◌, ◌^◌, IfErr, OnErr, OnOk, map, min};
ghost use Rattle.of_machine.specs.Runs.{settled};
ghost use Rattle.of_debug.specs.Debugging.{BreakAt, Clear, Go, Obeys, StepIn, StepOut, StepOver, begun, item_fault};
ghost use Rattle.of_debug.specs.Debugging.{left, made};
ghost use Rattle.of_debug.specs.Stepping.{Advances, Comes};
ghost use Rattle.of_machine.specs.Refused.{HasDue};
ghost use Rattle.of_debug.specs.Turns.{handed_over};
ghost use Rattle.of_state.specs.Views.{items_of_word};

use crate::fault::DebugFault;
use crate::feeder::Feeder;
use crate::marks::{MOST_MARKS, Marks, without};
use arrayvec::ArrayVec;
use of_asking::Answer;
use of_cells::Cell;
use of_client::ClientCall;
use of_code::CodeStore;
use of_machine::Machine;
use of_steps::{Goal, Mark};
use std::marker::Model;

/// A debugger of a machine. It makes the steps of the machine's undisturbed run and shows its states: console lines,
/// answers and clients are handed in as that run has them.
#[derive(Drop)]
pub struct Debugger<'a, C: CodeStore> {
    feeder: Feeder<'a, C>,
    limit: u64,
    marks: Marks,
}

// Clauses see the machine with what is still to be handed in, how far it may go, and its marks.
impl<'a, C: CodeStore> Model for Debugger<'a, C> {
    ghost use Rattle.std.specs.Prelude.{◌≤◌, ◌-◌};
    ghost use Rattle.of_debug.specs.Debugging.{Debugged};

    ghost Value = { Debugged };

    ghost view = { λ d. record {
      feed = d.feeder.feed;
      began = d.feeder.began;
      limit = d.limit;
      marks = d.marks.items;
    } };

    ghost invariant = { λ d. d.feeder.feed.machine.steps - d.feeder.began ≤ d.limit };
}

/// What a stepping call answers that stops behind so many steps.
fn stopped(made: u64) -> Result<(), DebugFault>
    ensures { Comes made result }
{
    if made > 0 {
        Ok(())
    } else {
        Err(DebugFault::Idle)
    }
}

/// Makes at most so many steps, up to the first behind which the goal is reached.
#[tactic(auto)]
fn advance<C: CodeStore>(
    feeder: &mut Feeder<'_, C>,
    marks: &[Mark],
    goal: Goal,
    most: u64,
) -> Result<(), DebugFault>
    requires settled { settled feeder.old.feed ≡ feeder.old.feed }
    ensures advances { Advances marks.now goal most feeder.old.feed feeder.new.feed result }
    ensures few { feeder.new.feed.machine.steps ≤ feeder.old.feed.machine.steps + most }
    ensures began { feeder.new.began ≡ feeder.old.began }
{
    let mut made = 0;
    while made < most {
        match feeder.go(marks, goal, most - made) {
            Ok(0) => return stopped(made),
            Ok(more) => made += more,
            Err(_) => return Err(DebugFault::NoMemory),
        }
        if feeder.machine().is_reached(marks, goal) {
            return Ok(());
        }
    }
    stopped(most)
}

impl<'a, C: CodeStore> Debugger<'a, C> {
    /// A debugger of a machine that makes at most `limit` steps. As in a run, the next console line is handed in as
    /// soon as nothing runs, the first with the first stepping call, the k-th question is given the k-th answer, and
    /// each client of `calls` is answered as soon as so many steps are made. Steps are counted from now on.
    pub fn new(
        machine: Machine<C>,
        lines: &'a [Vec<u8>],
        answers: &'a [Answer],
        calls: &'a [(u64, ClientCall)],
        limit: u64,
    ) -> Debugger<'a, C>
        ensures { result ≡ begun (handed_over machine (map (λ l. l.items) lines.now) answers.now calls.now).feed limit }
    {
        Debugger {
            feeder: Feeder::new(machine, lines, answers, calls),
            limit,
            marks: ArrayVec::new(),
        }
    }

    /// How many steps were made, and the machine.
    pub fn shown(&self) -> (u64, &Machine<C>)
        ensures made { result.0 ≡ made self.now }
        ensures machine { result.1.now ≡ self.now.feed.machine }
    {
        (self.feeder.made(), self.feeder.machine())
    }

    /// The items that are marked, those that were marked first first.
    pub fn marks(&self) -> &[Mark]
        ensures { result.now ≡ self.now.marks }
    {
        self.marks.as_slice()
    }

    /// Gives the machine back.
    pub fn into_machine(self) -> Machine<C>
        ensures { result ≡ self.entry.feed.machine }
    {
        self.feeder.into_machine()
    }

    /// Makes one step.
    ///
    /// Idle where none can be made: nothing runs and no line is left, the limit or the machine's last step is reached,
    /// or no answer fits the next question. NoMemory, behind the last whole step, and only where what comes next asks
    /// for memory: a step that may grow, a client or a line.
    #[tactic(auto, using(crate::proofs::StepLemmas::settle_refused, crate::proofs::FeedLemmas::settled_again))]
    pub fn step_in(&mut self) -> Result<(), DebugFault>
        ensures { Obeys StepIn result self.old self.new }
    {
        self.settle()?;
        self.advance_to(Goal::Step, u64::MAX)
    }

    /// Makes steps, one at least, until the return stack is no deeper than now, or none can be made. Marks don't stop
    /// it.
    ///
    /// The errors are those of `step_in`.
    #[tactic(auto, using(crate::proofs::StepLemmas::settle_refused, crate::proofs::FeedLemmas::settled_again))]
    pub fn step_over(&mut self) -> Result<(), DebugFault>
        ensures { Obeys StepOver result self.old self.new }
    {
        self.settle()?;
        let depth = self.feeder.machine().depth();
        self.advance_to(Goal::NoDeeper(depth), u64::MAX)
    }

    /// Makes steps, one at least, until the return stack is shallower than now, or none can be made. Marks don't stop
    /// it.
    ///
    /// The errors are those of `step_in`.
    #[tactic(auto, using(crate::proofs::StepLemmas::settle_refused, crate::proofs::FeedLemmas::settled_again))]
    pub fn step_out(&mut self) -> Result<(), DebugFault>
        ensures { Obeys StepOut result self.old self.new }
    {
        self.settle()?;
        let depth = self.feeder.machine().depth();
        self.advance_to(Goal::Shallower(depth), u64::MAX)
    }

    /// Makes steps, one at least and `limit` at most, until the item that comes next is marked, or none can be made.
    ///
    /// Idle for no step, which changes nothing; else the errors are those of `step_in`.
    #[tactic(auto, using(crate::proofs::StepLemmas::settle_refused, crate::proofs::FeedLemmas::settled_again))]
    pub fn go(&mut self, limit: u64) -> Result<(), DebugFault>
        ensures { Obeys (Go limit) result self.old self.new }
    {
        if limit == 0 {
            return Err(DebugFault::Idle);
        }
        self.settle()?;
        self.advance_to(Goal::Marked, limit)
    }

    /// Marks an item of a finished colon definition, from 0: `go` stops before it. One that is marked stays so.
    ///
    /// NoWord where the execution token is that of no finished colon definition, then NoItem where it has fewer items,
    /// then TooMany where 16 others are marked. A refusal changes nothing.
    pub fn break_at(&mut self, xt: Cell, item: usize) -> Result<(), DebugFault>
        ensures { Obeys (BreakAt xt item) result self.old self.new }
    {
        self.item_of(xt, item)?;
        let mark = Mark { xt, item };
        if mark.is_in(&self.marks) {
            return Ok(());
        }
        if self.marks.len() >= MOST_MARKS {
            return Err(DebugFault::TooMany);
        }
        self.marks.push(mark);
        Ok(())
    }

    /// Takes the mark of an item away, if it is marked.
    ///
    /// NoWord where the execution token is that of no finished colon definition, then NoItem where it has fewer items.
    /// A refusal changes nothing.
    pub fn clear(&mut self, xt: Cell, item: usize) -> Result<(), DebugFault>
        ensures { Obeys (Clear xt item) result self.old self.new }
    {
        self.item_of(xt, item)?;
        self.marks = without(Mark { xt, item }, &self.marks);
        Ok(())
    }

    /// Looks whether a finished colon definition has an item.
    fn item_of(&self, xt: Cell, item: usize) -> Result<(), DebugFault>
        ensures ok { OnOk result (item_fault (items_of_word self.now.feed.machine.eval xt) item ≡ None) }
        ensures err { IfErr result (λ e. item_fault (items_of_word self.now.feed.machine.eval xt) item ≡ Some e) }
    {
        match self.feeder.machine().items(xt) {
            Some(count) if item < count => Ok(()),
            Some(_) => Err(DebugFault::NoItem),
            None => Err(DebugFault::NoWord),
        }
    }

    /// Hands in what is due before a stepping call.
    ///
    /// NoMemory is the only error; then the next call does the rest.
    fn settle(&mut self) -> Result<(), DebugFault>
        ensures settled { OnOk result (self.new ≡ record self.old { feed = settled self.old.feed }) }
        ensures err { IfErr result (λ e. e ≡ DebugFault.NoMemory) }
        ensures later { OnErr result (settled self.new.feed ≡ settled self.old.feed) }
        ensures due { OnErr result (HasDue self.new.feed) }
        ensures steps { self.new.feed.machine.steps ≡ self.old.feed.machine.steps }
        ensures kept { (self.new.began ≡ self.old.began) × (self.new.limit ≡ self.old.limit)
            × (self.new.marks ≡ self.old.marks) }
    {
        match self.feeder.settle() {
            Ok(()) => Ok(()),
            Err(_) => Err(DebugFault::NoMemory),
        }
    }

    /// Makes at most so many steps, as far as the limit goes, up to the goal.
    fn advance_to(&mut self, goal: Goal, most: u64) -> Result<(), DebugFault>
        requires settled { settled self.old.feed ≡ self.old.feed }
        ensures advances { Advances self.old.marks goal (min most (left self.old)) self.old.feed self.new.feed result }
        ensures kept { (self.new.began ≡ self.old.began) × (self.new.limit ≡ self.old.limit)
            × (self.new.marks ≡ self.old.marks) }
    {
        let left = self.limit - self.feeder.made();
        advance(&mut self.feeder, &self.marks, goal, most.min(left))
    }
}
