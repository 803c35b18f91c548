ghost use Rattle.std.specs.Prelude.{◌≡◌, length, ◌≤◌, ◌<◌, ◌+◌, ◌⊎◌, [], false, true, is_ok, IfOk, IfErr, OnOk, OnErr};
ghost use Rattle.std.specs.Prelude.{None, Some};
ghost use Rattle.of_eval_laws.specs.Structured.{no_definitions};
ghost use Rattle.of_machine.specs.States.{MayGrow, RefusesBefore, Steps, answer_refusal, answered, can_step};
ghost use Rattle.of_machine.specs.States.{first_refusal};
ghost use Rattle.of_machine.specs.States.{fit_refusal, flat_machine, goes_on, idle, image_refusal, instance_refusal};
ghost use Rattle.of_machine.specs.States.{loaded, or_next};
ghost use Rattle.of_client.specs.Services.{service_of};
ghost use Rattle.of_state.specs.State.{flat_calls};
ghost use Rattle.of_steps.specs.Steps.{due_grows};
ghost use Rattle.of_machine.specs.Events.{Answers, Client, Line, Load, Step, done_by};
ghost use Rattle.of_state.specs.Loading.{instance_on};
ghost use Rattle.of_machine.specs.States.{HasMoved, Refuses, line_refusal, lined, load_refusal, loaded_for, node_at};
ghost use Rattle.of_machine.specs.States.{served};
ghost use Rattle.of_memory.specs.Growth.{image_fits};

use crate::answers::Progress;
use of_asking::{Answer, Query, is_fitting};
use of_client::{ClientCall, ClientReply, reply_to};
use of_code::CodeStore;
use of_nodes::Phandle;
use of_refusal::Refusal;
use of_state::{Eval, LoadFault};
use of_steps::{Bar, Pause, run, step, step_with};
use of_stream::{Stream, open};
use std::alloc::{AllocError, Global};
use std::marker::Model;

mod goals;
mod listings;
mod views;

/// How many bytes an image has at most: the size of the region that running images stand in.
pub const LONGEST_IMAGE: usize = 0x4_0000;

/// How many bytes a console line has at most.
pub const LONGEST_LINE: usize = 255;

/// A boot monitor on its board, over a store of code.
///
/// What it works on stands in a block of its own, so a machine that is handed on takes little of the stack.
///
/// A call that answers NoMemory has changed nothing, and may be made again.
#[derive(Drop)]
pub struct Machine<C: CodeStore> {
    alloc: Global,
    eval: Box<Eval<C>>,
    steps: u64,
    replies: Vec<ClientReply>,
    asked: Vec<Query>,
    waiting: Option<Query>,
}

// Clauses see a state of the machine whose definitions are cells.
impl<C: CodeStore> Model for Machine<C> {
    ghost use Rattle.of_compile.specs.Coding.{Coding};
    ghost use Rattle.std.specs.Prelude.{◌≡◌, ◌<◌, ◌-◌, ◌^◌, is_some, map, true};
    ghost use Rattle.of_machine.specs.States.{MachineState, reply_shown};

    ghost Value = { MachineState Coding };

    ghost view = { λ m. record {
      eval = m.eval.value;
      steps = m.steps;
      replies = map reply_shown m.replies.items;
      asked = m.asked.items;
      waiting = m.waiting;
    } };

    // a step that waits for its answer can be counted
    ghost invariant = { λ m. is_some m.waiting ≡ true → m.steps < 2 ^ 64 - 1 };
}

/// The image, with its header read.
///
/// ImageTooLong over 256 KiB, then BadStart where its header can't be read.
pub fn check_image<'a>(image: &'a [u8]) -> Result<Stream<'a>, Refusal>
    ensures ok { IfOk result (λ stream. stream.image.now ≡ image.now) }
    ensures accepted { OnOk result (image_refusal image.now ≡ None) }
    ensures err { IfErr result (λ e. image_refusal image.now ≡ Some e) }
{
    if image.len() > LONGEST_IMAGE {
        return Err(Refusal::ImageTooLong);
    }
    match open(image) {
        Ok(stream) => Ok(stream),
        Err(fault) => Err(Refusal::BadStart(fault)),
    }
}

impl<C: CodeStore + Drop> Machine<C> {
    /// An idle machine with empty stacks and console, a fresh data space and no own words, over a store of code that
    /// holds nothing yet.
    ///
    /// An error is for memory alone.
    pub fn new(alloc: Global, code: C) -> Result<Machine<C>, AllocError>
        requires empty { C.code code ≡ record { cells = []; opened = record { cell = 0 }; starts = [] } }
        ensures { IfOk result (λ m. m ≡ flat_machine (idle no_definitions)) }
    {
        let eval = Eval::new(alloc, code)?;
        Ok(Machine {
            alloc,
            eval: Box::new(alloc, eval)?,
            steps: 0,
            replies: Vec::new(alloc),
            asked: Vec::new(alloc),
            waiting: None,
        })
    }
}

impl<C: CodeStore> Machine<C> {
    /// Makes one step, if one can be made: a token of the running image, a word of the line that is read, or an item of
    /// the definition that runs, and what is due then (IEEE 1275-1994, 5.2; Forth 2012, 3.4). A step that asks isn't
    /// made: its question is open then, and is given again by each call, until `answer` makes the step.
    ///
    /// An error is for memory alone, and then nothing has changed. It comes only where the token, word or item prints,
    /// takes a block of the heap, sets a property, makes a node, sets arguments, opens an instance, defines a word, is
    /// appended to the open definition, or asks: the other steps ask for no memory, also where they throw.
    pub fn step(&mut self) -> Result<Progress, AllocError>
        ensures ok { IfOk result (λ p. Steps p self.old self.new) }
        ensures event { OnOk result (self.new ≡ done_by flat_calls Step self.old) }
        ensures grows { OnErr result (MayGrow self.old) }
        ensures err { OnErr result (self.new ≡ self.old) }
    {
        if !self.eval.is_running() || self.steps == u64::MAX {
            return Ok(Progress::Ended);
        }
        if let Some(query) = self.waiting {
            return Ok(Progress::Asks(query));
        }
        match step(&mut self.eval) {
            Ok(()) => {
                self.steps += 1;
                Ok(Progress::Done)
            }
            Err(Bar::NoMemory) => Err(AllocError),
            Err(Bar::Asks(query)) => {
                self.asked.push(query)?;
                self.waiting = Some(query);
                Ok(Progress::Asks(query))
            }
        }
    }

    /// Makes the step whose question is open, with its answer (IEEE 1275-1994, 5.3.7.3).
    ///
    /// NotAsked where none is open, then WrongAnswer where the answer doesn't fit it; NoMemory only where the step
    /// opens an instance, by whose `open` the question is asked. A refusal changes nothing.
    pub fn answer(&mut self, answer: Answer) -> Result<(), Refusal>
        ensures accepted { OnOk result (answer_refusal self.old.waiting answer ≡ None) }
        ensures ok { OnOk result (self.new ≡ answered flat_calls answer self.old) }
        ensures event { OnOk result (self.new ≡ done_by flat_calls (Answers answer) self.old) }
        ensures err { IfErr result (λ e. (answer_refusal self.old.waiting answer ≡ Some e)
            ⊎ ((answer_refusal self.old.waiting answer ≡ None) × (e ≡ Refusal.NoMemory)
            × (due_grows flat_calls self.old.eval.flow.next self.old.eval ≡ true))) }
        ensures unchanged { OnErr result (self.new ≡ self.old) }
    {
        let Some(query) = self.waiting else {
            return Err(Refusal::NotAsked);
        };
        if !is_fitting(query, answer) {
            return Err(Refusal::WrongAnswer);
        }
        if step_with(&mut self.eval, answer).is_err() {
            return Err(Refusal::NoMemory);
        }
        self.steps += 1;
        self.waiting = None;
        Ok(())
    }

    /// Makes steps while one is made, at most `limit`, as `step` does; none while a question is open, and it stops
    /// before a step that asks.
    ///
    /// An error is for memory alone: the steps before stand, which are fewer than `limit`, and the next one, which can
    /// be made, may grow.
    #[tactic(auto, using(crate::proofs::EventLemmas::stays_put))]
    pub fn run(&mut self, limit: u64) -> Result<(), AllocError>
        ensures few { self.new.steps ≤ self.old.steps + limit }
        ensures fewer { OnErr result (self.new.steps < self.old.steps + limit) }
        ensures next { OnErr result (can_step self.new ≡ true) }
        ensures steps { HasMoved self.old self.new }
        ensures ok { OnOk result ((self.new.steps ≡ self.old.steps + limit) ⊎ (goes_on flat_calls self.new ≡ false)) }
        ensures grows { OnErr result (MayGrow self.new) }
    {
        if self.waiting.is_some() {
            return Ok(());
        }
        let countable = u64::MAX - self.steps;
        let (made, pause) = run(&mut self.eval, limit.min(countable));
        self.steps += made;
        match pause {
            Pause::LimitReached | Pause::Idle | Pause::Barred(Bar::Asks(_)) => Ok(()),
            Pause::Barred(Bar::NoMemory) => Err(AllocError),
        }
    }

    /// Answers a client's question about the device tree, between two steps (IEEE 1275-1994, 6.3.2): the reply is the
    /// last of `replies`, and nothing else changes.
    ///
    /// NoMemory is the only refusal, and changes nothing.
    pub fn client(&mut self, call: &ClientCall) -> Result<(), Refusal>
        ensures ok { OnOk result (self.new ≡ served self.old (service_of call.now)) }
        ensures event { OnOk result (self.new ≡ done_by flat_calls (Client (service_of call.now)) self.old) }
        ensures err { IfErr result (λ e. e ≡ Refusal.NoMemory) }
        ensures unchanged { OnErr result (self.new ≡ self.old) }
    {
        let eval = &self.eval;
        let Ok(reply) = reply_to(
            self.alloc,
            eval.memory(),
            eval.tree(),
            eval.instances(),
            call,
        ) else {
            return Err(Refusal::NoMemory);
        };
        match self.replies.push(reply) {
            Ok(()) => Ok(()),
            Err(_) => Err(Refusal::NoMemory),
        }
    }

    /// Makes an idle machine ready to run an image for the package at a path: an instance of the package is opened
    /// below the current one, and the image is copied into the image region of the data space.
    ///
    /// Busy where something runs; then ImageTooLong over 256 KiB, BadStart where its header can't be read, NoNode where
    /// there is none at the path, ImageTooLong where the image region has no room left, and NoNode where the instance
    /// finds no room; and NoMemory where none is found for the text of a throw or the instance, which may stand in
    /// place of the last of these. A refusal changes nothing.
    pub fn load(&mut self, image: &[u8], path: &str) -> Result<(), Refusal>
        ensures accepted { OnOk result (load_refusal self.old image.now path.now ≡ None) }
        ensures ok { OnOk result (self.new ≡ loaded_for self.old image.now (node_at self.old path.now)) }
        ensures event { OnOk result (self.new ≡ done_by flat_calls (Load image.now path.now) self.old) }
        ensures err { IfErr result (λ e. RefusesBefore (first_refusal self.old image.now path.now)
            (load_refusal self.old image.now path.now) e) }
        ensures unchanged { OnErr result (self.new ≡ self.old) }
    {
        if self.eval.is_running() {
            return Err(Refusal::Busy);
        }
        let _ = check_image(image)?;
        let found = self.eval.tree().find(self.eval.memory(), path.as_bytes());
        let Some(node) = found else {
            return Err(Refusal::NoNode);
        };
        self.begin(image, node)
    }

    /// Hands a console line in to an idle machine, whose next steps read it word by word (Forth 2012, 3.4; IEEE
    /// 1275-1994, 7.3). Words are compiled on, where an earlier line left a definition open.
    ///
    /// Busy where something runs, then LineTooLong over 255 bytes; and NoMemory. A refusal changes nothing.
    pub fn line(&mut self, text: &[u8]) -> Result<(), Refusal>
        ensures accepted { OnOk result (line_refusal self.old text.now ≡ None) }
        ensures ok { OnOk result (self.new ≡ lined self.old text.now) }
        ensures event { OnOk result (self.new ≡ done_by flat_calls (Line text.now) self.old) }
        ensures err { IfErr result (λ e. Refuses (line_refusal self.old text.now) e) }
        ensures unchanged { OnErr result (self.new ≡ self.old) }
    {
        if self.is_running() {
            return Err(Refusal::Busy);
        }
        if text.len() > LONGEST_LINE {
            return Err(Refusal::LineTooLong);
        }
        match self.eval.begin_line(text) {
            Ok(()) => Ok(()),
            Err(AllocError) => Err(Refusal::NoMemory),
        }
    }

    /// Makes a machine on which nothing runs ready to run an image for a node.
    ///
    /// ImageTooLong where the image region has no room left, then NoNode where the instance of the node finds none;
    /// NoMemory may stand in place of the latter. A refusal changes nothing.
    pub(crate) fn begin(&mut self, image: &[u8], node: Phandle) -> Result<(), Refusal>
        requires idle { self.old.eval.flow.is_running ≡ false }
        ensures room { OnOk result (image_fits self.old.eval.board.memory (length image.now) ≡ true) }
        ensures instance { OnOk result (is_ok (instance_on node self.old.eval.board) ≡ true) }
        ensures ok { OnOk result (self.new ≡ loaded self.old image.now node) }
        ensures err { IfErr result (λ e. RefusesBefore (fit_refusal self.old image.now)
            (or_next (fit_refusal self.old image.now) (instance_refusal self.old (Some node))) e) }
        ensures unchanged { OnErr result (self.new ≡ self.old) }
    {
        match self.eval.begin_image(image, node) {
            Ok(()) => Ok(()),
            Err(LoadFault::ImageTooLong) => Err(Refusal::ImageTooLong),
            Err(LoadFault::NoInstance) => Err(Refusal::NoNode),
            Err(LoadFault::NoMemory) => Err(Refusal::NoMemory),
        }
    }
}
