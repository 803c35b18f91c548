//! The end of a step: what is worked off beneath a finished word, and what a throw cuts.
ghost use Rattle.std.specs.Prelude.{◌≡◌, [], true, false, is_some, reverse};
ghost use Rattle.of_stacks.specs.Returns.{has_due_top};
ghost use Rattle.of_stacks.specs.Unwinding.{latest_source};
ghost use Rattle.of_state.specs.State.{Leaves, flat_calls, given_up, open_xt, with_compiling};
ghost use Rattle.of_state.specs.Settling.{caller_self, caught, cut_one, due_left, ended, given_back, given_up_since};
ghost use Rattle.of_state.specs.Settling.{going_back, is_line, is_opened, is_same, load_left, open_answered};
ghost use Rattle.of_state.specs.Settling.{package_of, reading_on, released_in, settled, source_ended};
ghost use Rattle.of_state.specs.Settling.{still_thrown, texts_left};
ghost use Rattle.of_state.specs.Settling.{thrown_at, uncaught, worked_one};

use crate::eval::Eval;
use of_cells::Cell;
use of_code::CodeStore;
use of_compile::abandon_definition;
use of_flow::{Flow, Texts};
use of_memory::Memory;
use of_nodes::Phandle;
use of_stacks::{Continuation, DataStack, Due, ExceptionFrame, Input, Reading, ReturnItem, Throw};

/// Nothing is read.
pub(crate) const NOTHING_READ: Reading = Reading {
    input: Input::Nothing,
    opened: None,
};

/// Whether the execution token is that of the open definition.
pub fn is_opened(opened: Option<Cell>, xt: Cell) -> bool
    ensures { result ≡ is_opened opened xt.0 }
{
    match opened {
        Some(found) => found.0 == xt.0,
        None => false,
    }
}

/// Whether two execution tokens, or none, are the same.
fn is_same(a: Option<Cell>, b: Option<Cell>) -> bool
    ensures { result ≡ is_same a b }
{
    match b {
        Some(b) => is_opened(a, b),
        None => a.is_none(),
    }
}

/// The current instance that a caller brings back.
fn caller_self(due: Due) -> Cell
    ensures { result ≡ caller_self due }
{
    match due {
        Due::Method { my_self } => my_self,
        Due::Open { my_self, .. } => my_self,
        Due::Close { my_self, .. } => my_self,
        Due::Load { my_self, .. } => my_self,
    }
}

/// The package of a cell, if there is one.
fn package_of(active: Option<Cell>) -> Option<Phandle>
    ensures { result ≡ package_of active }
{
    match active {
        Some(cell) => Some(Phandle(cell)),
        None => None,
    }
}

/// Gives back the bytes of an image that ends.
fn give_back(ended: Input, memory: &mut Memory)
    ensures { memory.new ≡ given_back ended memory.old }
{
    if let Input::Image { .. } = ended {
        memory.image_pop();
    }
}

/// Reads a text no more that ends.
fn leave_text(ended: Input, texts: &mut Texts)
    ensures { texts.new ≡ texts_left ended texts.old }
{
    if let Input::Text { .. } = ended {
        texts.pop();
    }
}

/// What the latest source keeps, if something is read.
#[tactic(auto, using(crate::proofs::Reversed::reverse_snoc), unfolding(of_stacks::specs::Unwinding::latest_source))]
fn latest_source(items: &[ReturnItem]) -> Option<Reading>
    ensures { result ≡ latest_source (reverse items.now) }
{
    let [beneath @ .., item] = items else {
        return None;
    };
    match item {
        ReturnItem::Source(reading) => Some(*reading),
        ReturnItem::Return(_) => latest_source(beneath),
        ReturnItem::Loop(_) => latest_source(beneath),
        ReturnItem::User(_) => latest_source(beneath),
        ReturnItem::Handler(_) => latest_source(beneath),
        ReturnItem::Caller(_) => latest_source(beneath),
    }
}

/// Whether a console line is read: a text that began where nothing was read.
fn is_line(flow: &Flow) -> bool
    ensures { result ≡ is_line flow.now.reading.input flow.now.items }
{
    let Input::Text { .. } = flow.reading.input else {
        return false;
    };
    match latest_source(flow.items.items()) {
        Some(before) => match before.input {
            Input::Nothing => true,
            Input::Text { .. } | Input::Image { .. } => false,
        },
        None => false,
    }
}

/// Goes on at the return on top, where the end of an image left one; else nothing runs.
fn go_back(flow: &mut Flow)
    ensures { flow.new ≡ going_back flow.old.items flow.old }
{
    match flow.items.take_return() {
        Ok(to) => flow.next = to,
        Err(_) => {
            flow.is_running = false;
            flow.next = Continuation::Source;
        }
    }
}

impl<C: CodeStore> Eval<C> {
    /// Words are compiled from now on, or executed.
    pub fn set_compiling(&mut self, compiling: bool)
        ensures { self.new ≡ with_compiling compiling self.old }
    {
        self.flow.is_compiling = compiling;
        self.board.memory.set_state(compiling);
    }

    /// Gives up the open definition, if there is one.
    fn give_up(&mut self)
        ensures state { self.new ≡ given_up flat_calls self.old }
        ensures console { self.new.board.console ≡ self.old.board.console }
        ensures running { self.new.flow.is_running ≡ self.old.flow.is_running }
        ensures items { self.new.flow.items ≡ self.old.flow.items }
    {
        if self.words.defining().is_none() {
            return;
        }
        abandon_definition(&mut self.words, &mut self.coding);
        self.flow.is_compiling = false;
        self.board.memory.set_state(false);
    }

    /// Gives up the open definition, unless it was open then.
    fn give_up_since(&mut self, then: Option<Cell>)
        ensures state { self.new ≡ given_up_since flat_calls then self.old }
        ensures running { self.new.flow.is_running ≡ self.old.flow.is_running }
    {
        if !is_same(self.words.open_xt(), then) {
            self.give_up();
        }
    }

    /// What is being read has ended: another reading goes on.
    fn read_on(&mut self, reading: Reading)
        ensures state { self.new ≡ reading_on reading self.old }
        ensures running { self.new.flow.is_running ≡ self.old.flow.is_running }
    {
        give_back(self.flow.reading.input, &mut self.board.memory);
        leave_text(self.flow.reading.input, &mut self.flow.texts);
        self.flow.reading = reading;
    }

    /// The run of a loaded image has ended: words work where they did before.
    fn leave_load(&mut self, due: Due)
        ensures state { self.new ≡ load_left due self.old }
        ensures running { self.new.flow.is_running ≡ self.old.flow.is_running }
    {
        if let Due::Load {
            active,
            instance,
            new_devices,
            ..
        } = due
        {
            self.board
                .leave_image(new_devices, package_of(active), instance);
        }
    }

    /// What is due at a caller is done, but for the current instance: the run of a loaded image has ended, the instance
    /// that was closed is released, or `open` has answered.
    fn leave_due(&mut self, due: Due)
        ensures state { self.new ≡ due_left due self.old }
        ensures running { self.new.flow.is_running ≡ self.old.flow.is_running }
    {
        match due {
            Due::Load { .. } => self.leave_load(due),
            Due::Close { instance, .. } => self.release(instance),
            Due::Open { instance, .. } => self.answer_open(instance),
            Due::Method { .. } => {}
        }
    }

    /// Releases an instance, if it is live.
    fn release(&mut self, instance: Cell)
        ensures { self.new ≡ released_in instance self.old }
    {
        self.board
            .instances
            .release(&mut self.board.memory, instance);
    }

    /// Leaves what `open-package` leaves: the new instance, or 0 where `open` answered so, and the instance is released
    /// then. Nothing is done where there is no answer.
    fn answer_open(&mut self, instance: Cell)
        ensures state { self.new ≡ open_answered instance self.old.board.stack self.old }
        ensures running { self.new.flow.is_running ≡ self.old.flow.is_running }
    {
        let Ok(answer) = self.board.stack.peek() else {
            return;
        };
        if answer.0 == 0 {
            self.release(instance);
        } else {
            self.board.stack.replace_top(instance);
        }
    }

    /// A handler takes a throw: control goes on behind its `catch` (Forth 2012, 9.6.1.2275).
    fn catch(&mut self, frame: ExceptionFrame, thrown: Throw)
        ensures state { self.new ≡ caught flat_calls frame thrown self.old }
        ensures running { self.new.flow.is_running ≡ self.old.flow.is_running }
    {
        self.board.stack.cut_to(frame.depth);
        self.board.stack.push(Cell(thrown.0.cast_unsigned()));
        self.board.active.my_self = frame.my_self;
        self.flow.next = frame.resume;
        self.give_up_since(frame.opened);
    }

    /// No handler takes a throw: all that runs has ended, and the console gets its text.
    #[cold]
    fn throw_uncaught(&mut self, thrown: Throw)
        requires running { self.old.flow.is_running ≡ true }
        ensures state { self.new ≡ uncaught flat_calls thrown self.old }
        ensures ended { self.new.flow.is_running ≡ false }
        ensures empty { self.new.flow.items ≡ [] }
    {
        self.board.stack = DataStack::new();
        self.board.console.print_fault(thrown);
        self.board.finish_all();
        self.flow.items.clear();
        self.flow.reading = NOTHING_READ;
        self.flow.is_running = false;
        self.flow.next = Continuation::Source;
        self.flow.texts.clear();
        self.board.active.my_self = Cell::ZERO;
        self.give_up();
    }

    /// Does what a throw does at an item that it cuts, and answers whether it goes on.
    fn unwind_item(&mut self, item: ReturnItem, thrown: Throw) -> Option<Throw>
        ensures state { self.new ≡ cut_one flat_calls item thrown self.old }
        ensures left { result ≡ still_thrown item thrown }
        ensures running { self.new.flow.is_running ≡ self.old.flow.is_running }
    {
        match item {
            ReturnItem::Handler(frame) => {
                self.catch(frame, thrown);
                None
            }
            ReturnItem::Source(reading) => {
                self.read_on(reading);
                Some(thrown)
            }
            ReturnItem::Return(_) | ReturnItem::Loop(_) | ReturnItem::User(_) => Some(thrown),
            ReturnItem::Caller(due) => {
                self.leave_load(due);
                Some(thrown)
            }
        }
    }

    /// What is thrown at an item beneath a finished word: -4 where `open` has left nothing.
    fn late_throw(&self, item: ReturnItem) -> Option<Throw>
        ensures thrown { result ≡ thrown_at item self.now }
        ensures running { is_some result ≡ true → self.now.flow.is_running ≡ true }
    {
        match item {
            ReturnItem::Caller(Due::Open { .. }) => {
                if self.flow.is_running && self.board.stack.depth() < 1 {
                    Some(Throw::STACK_UNDERFLOW)
                } else {
                    None
                }
            }
            ReturnItem::Caller(_)
            | ReturnItem::Handler(_)
            | ReturnItem::Return(_)
            | ReturnItem::Loop(_)
            | ReturnItem::User(_)
            | ReturnItem::Source(_) => None,
        }
    }

    /// Does what is due at an item beneath a finished word.
    fn pop_due(&mut self, item: ReturnItem)
        ensures state { self.new ≡ worked_one flat_calls item self.old }
        ensures running { self.new.flow.is_running ≡ self.old.flow.is_running }
    {
        match item {
            ReturnItem::Handler(frame) => {
                if self.board.stack.try_push(Cell::ZERO).is_err() {
                    self.catch(frame, Throw::STACK_OVERFLOW);
                }
            }
            ReturnItem::Caller(due) => {
                self.board.active.my_self = caller_self(due);
                self.leave_due(due);
            }
            ReturnItem::Return(_)
            | ReturnItem::Loop(_)
            | ReturnItem::User(_)
            | ReturnItem::Source(_) => {}
        }
    }

    /// Whether something is due beneath a finished word.
    #[inline]
    pub fn has_due(&self) -> bool
        ensures { result ≡ has_due_top self.now.flow.items }
    {
        match self.flow.items.peek() {
            Some(item) => item.is_due(),
            None => false,
        }
    }

    /// Ends a step: works off what is due beneath a finished word, or cuts the return stack where something was thrown.
    #[tactic(auto, using(crate::proofs::Settled::stays), unfolding(crate::specs::Settling::settled))]
    pub fn finish_step(&mut self, thrown: Option<Throw>)
        requires running { is_some thrown ≡ true → self.old.flow.is_running ≡ true }
        ensures state { self.new ≡ settled flat_calls self.old.flow.items thrown self.old }
        ensures rests { has_due_top self.new.flow.items ≡ false }
    {
        match thrown {
            Some(fault) => {
                let Some(item) = self.flow.items.pop() else {
                    self.throw_uncaught(fault);
                    return;
                };
                let left = self.unwind_item(item, fault);
                self.finish_step(left);
            }
            None => {
                let Some(item) = self.flow.items.peek() else {
                    return;
                };
                if !item.is_due() {
                    return;
                }
                let thrown = self.late_throw(item);
                let _ = self.flow.items.pop();
                self.pop_due(item);
                self.finish_step(thrown);
            }
        }
    }

    /// What is being read has ended: what stood above its source is dropped (IEEE 1275-1994, `end0`).
    fn end_source(&mut self)
        ensures { self.new ≡ source_ended self.old }
    {
        let reading = self.flow.items.end_source().unwrap_or(NOTHING_READ);
        self.read_on(reading);
        go_back(&mut self.flow);
    }

    /// The end of an image, as `end0` and `end1` ( -- ) make it, and of a text.
    ///
    /// -29 where a definition is open that was opened since it began; that is given up then. But a console line leaves
    /// it open for the next one.
    pub fn end_reading(&mut self) -> Result<(), Throw>
        ensures { Leaves (ended flat_calls self.old) self.new result }
    {
        let opened = self.words.open_xt();
        if opened.is_some() && !is_same(opened, self.flow.reading.opened) && !is_line(&self.flow) {
            self.give_up();
            return Err(Throw::COMPILER_NESTING);
        }
        self.end_source();
        Ok(())
    }
}
