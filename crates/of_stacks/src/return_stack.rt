ghost use Rattle.std.specs.Prelude.{◌+◌, IfErr, OnOk, OnErr, reverse, ◌≡◌, ◌<◌, ◌≤◌, List, [], ◌∷◌, length, drop};
ghost use Rattle.std.specs.Prelude.{slice_get, Ok, Err, Some, None, IfOk, if◌then◌else◌, vec_capacity};
ghost use Rattle.of_stacks.specs.declared.return_item.ReturnItem.{ReturnItem};
ghost use Rattle.of_stacks.specs.Throws.{return_stack_overflow};
ghost use Rattle.of_cells.specs.Outcomes.{Becomes};
ghost use Rattle.of_stacks.specs.Returns.{fitting, top_item, user_on_top, return_on_top, user_pushed};
ghost use Rattle.of_stacks.specs.Loops.{open_loops, loop_on_top, index_of, goes_on, turned};
ghost use Rattle.of_stacks.specs.Unwinding.{latest_handler, beneath_handler, latest_source, beneath_source, unwound};

use crate::data_stack::DataStack;
use crate::loops::{index_inside, passes_limit};
use crate::return_item::{Continuation, ExceptionFrame, LoopParameters, Reading, ReturnItem};
use crate::throws::Throw;
use of_cells::Cell;
use std::alloc::{AllocError, Global};
use std::marker::Model;

/// How many items the return stack holds at most.
const MOST_ITEMS: usize = 256;

/// The return stack: at most 256 items (Forth 2012, 3.2.3.3). A refused call changes nothing, and only `new` takes
/// memory.
#[derive(Drop)]
pub struct ReturnStack {
    items: Vec<ReturnItem>,
}

// Clauses see the items, the top first.
impl Model for ReturnStack {
    ghost use Rattle.std.specs.Prelude.{List, length, reverse, ◌≤◌, vec_capacity};
    ghost use Rattle.of_stacks.specs.declared.return_item.ReturnItem.{ReturnItem};

    ghost Value = { List ReturnItem };

    ghost view = { λ s. reverse s.items.items };

    ghost invariant = { λ s. (length s.items.items ≤ 256) × (256 ≤ vec_capacity s.items) };
}

/// Adds a signed step to the index of a loop on top, if that doesn't pass its limit, and answers whether the loop goes
/// on.
#[inline(always)]
fn turn(top: &mut ReturnItem, step: Cell) -> Result<bool, Throw>
    ensures answer { (r : List ReturnItem) → result ≡ goes_on step (top.old ∷ r) }
    ensures ok { IfOk result (λ on. (r : List ReturnItem) →
        turned step (top.old ∷ r) ≡ (if on then top.new ∷ r else r)) }
    ensures err { OnErr result ((r : List ReturnItem) → turned step (top.old ∷ r) ≡ top.new ∷ r) }
{
    let ReturnItem::Loop(current) = top else {
        return Err(Throw::LOOP_UNAVAILABLE);
    };
    if passes_limit(current.index, current.limit, step) {
        return Ok(false);
    }
    current.index = current.index.add(step);
    Ok(true)
}

impl ReturnStack {
    /// An empty stack, with room for all the items that it may ever hold.
    ///
    /// An error is for memory alone.
    pub fn new(alloc: Global) -> Result<ReturnStack, AllocError>
        ensures { IfOk result (λ s. s ≡ []) }
    {
        Ok(ReturnStack {
            items: Vec::with_capacity(alloc, MOST_ITEMS)?,
        })
    }

    /// Drops all items.
    pub fn clear(&mut self)
        ensures { self.new ≡ [] }
    {
        self.items.clear();
    }

    /// How many items there are.
    #[inline]
    pub fn depth(&self) -> usize
        ensures value { result ≡ length self.now }
        ensures fits { result ≤ 256 }
    {
        self.items.len()
    }

    /// The items, the bottom first.
    #[inline]
    pub fn items(&self) -> &[ReturnItem]
        ensures value { reverse result.now ≡ self.now }
        ensures fits { length result.now ≤ 256 }
    {
        &self.items
    }

    /// Whether there is room for `count` more items, or -5 where there isn't.
    #[inline]
    pub fn room_for(&self, count: usize) -> Result<(), Throw>
        requires { count ≤ 256 }
        ensures ok { OnOk result (length self.now + count ≤ 256) }
        ensures err { IfErr result (λ t. (256 < length self.now + count) × (t ≡ return_stack_overflow)) }
    {
        if self.items.len() + count <= 256 {
            Ok(())
        } else {
            Err(Throw::RETURN_STACK_OVERFLOW)
        }
    }

    /// Pushes an item, for which there must be room.
    #[inline]
    pub fn push(&mut self, item: ReturnItem)
        requires { length self.old < 256 }
        ensures { self.new ≡ item ∷ self.old }
    {
        self.items.push_reserved(item);
    }

    /// Pushes an item, or throws -5 where 256 items are there already.
    #[inline]
    pub fn try_push(&mut self, item: ReturnItem) -> Result<(), Throw>
        ensures { Becomes (fitting (item ∷ self.old)) self.old self.new result }
    {
        self.room_for(1)?;
        self.push(item);
        Ok(())
    }

    /// Takes the top item, if there is one.
    #[inline]
    pub fn pop(&mut self) -> Option<ReturnItem>
        ensures item { result ≡ top_item self.old }
        ensures rest { self.new ≡ drop 1 self.old }
        ensures room { length self.new < 256 }
    {
        self.items.pop()
    }

    /// The top item, if there is one.
    #[inline]
    pub fn peek(&self) -> Option<ReturnItem>
        ensures { result ≡ top_item self.now }
    {
        match self.items.last() {
            Some(item) => Some(*item),
            None => None,
        }
    }

    /// Pushes a cell of the program, as `>r` does (Forth 2012, 6.1.0580).
    ///
    /// Throws -25 where a handler or a caller is the top item, then -5 where 256 items are there.
    #[inline]
    pub fn push_user(&mut self, x: Cell) -> Result<(), Throw>
        ensures { Becomes (user_pushed x self.old) self.old self.new result }
    {
        match self.peek() {
            Some(item) if item.is_due() => Err(Throw::RETURN_STACK_IMBALANCE),
            _ => self.try_push(ReturnItem::User(x)),
        }
    }

    /// The program's cell on top, as `r@` and `r>` read it (Forth 2012, 6.1.2070, 6.1.2060).
    ///
    /// Throws -6 where no item is there, and -25 where the top item is no cell.
    #[inline]
    pub fn user(&self) -> Result<Cell, Throw>
        ensures { result ≡ user_on_top self.now }
    {
        match self.peek() {
            Some(ReturnItem::User(x)) => Ok(x),
            Some(ReturnItem::Return(_)) => Err(Throw::RETURN_STACK_IMBALANCE),
            Some(ReturnItem::Loop(_)) => Err(Throw::RETURN_STACK_IMBALANCE),
            Some(ReturnItem::Handler(_)) => Err(Throw::RETURN_STACK_IMBALANCE),
            Some(ReturnItem::Source(_)) => Err(Throw::RETURN_STACK_IMBALANCE),
            Some(ReturnItem::Caller(_)) => Err(Throw::RETURN_STACK_IMBALANCE),
            None => Err(Throw::RETURN_STACK_UNDERFLOW),
        }
    }

    /// Takes the return on top, as `exit` does (Forth 2012, 6.1.1380), or throws -25 where the top
    /// item is none.
    #[inline]
    pub fn take_return(&mut self) -> Result<Continuation, Throw>
        ensures place { result ≡ return_on_top self.old }
        ensures rest { OnOk result (self.new ≡ drop 1 self.old) }
        ensures unchanged { OnErr result (self.new ≡ self.old) }
    {
        match self.peek() {
            Some(ReturnItem::Return(to)) => {
                let _ = self.pop();
                Ok(to)
            }
            Some(ReturnItem::Loop(_)) => Err(Throw::RETURN_STACK_IMBALANCE),
            Some(ReturnItem::User(_)) => Err(Throw::RETURN_STACK_IMBALANCE),
            Some(ReturnItem::Handler(_)) => Err(Throw::RETURN_STACK_IMBALANCE),
            Some(ReturnItem::Source(_)) => Err(Throw::RETURN_STACK_IMBALANCE),
            Some(ReturnItem::Caller(_)) => Err(Throw::RETURN_STACK_IMBALANCE),
            None => Err(Throw::RETURN_STACK_IMBALANCE),
        }
    }

    /// The index of the loop of the running word in which so many other ones stand: `i` reads it
    /// with 0, `j` with 1 (Forth 2012, 6.1.1680, 6.1.1730).
    ///
    /// The word's loops are those above the latest return, source or caller. Throws -26 where they
    /// are too few.
    #[tactic(auto, unfolding(crate::specs::Loops::open_loops))]
    #[inline]
    pub fn index(&self, inner: usize) -> Result<Cell, Throw>
        ensures { result ≡ index_of (slice_get (open_loops self.now) inner) }
    {
        match self.peek() {
            Some(ReturnItem::Loop(found)) if inner == 0 => Ok(found.index),
            _ => index_inside(self.items(), inner),
        }
    }

    /// The loop on top, or -26 where the top item is none. Nothing is changed.
    #[inline]
    pub fn top_loop(&self) -> Result<LoopParameters, Throw>
        ensures { result ≡ loop_on_top self.now }
    {
        match self.peek() {
            Some(ReturnItem::Loop(found)) => Ok(found),
            Some(ReturnItem::Return(_)) => Err(Throw::LOOP_UNAVAILABLE),
            Some(ReturnItem::User(_)) => Err(Throw::LOOP_UNAVAILABLE),
            Some(ReturnItem::Handler(_)) => Err(Throw::LOOP_UNAVAILABLE),
            Some(ReturnItem::Source(_)) => Err(Throw::LOOP_UNAVAILABLE),
            Some(ReturnItem::Caller(_)) => Err(Throw::LOOP_UNAVAILABLE),
            None => Err(Throw::LOOP_UNAVAILABLE),
        }
    }

    /// Takes the loop on top, as `unloop` and `leave` do (Forth 2012, 6.1.2380, 6.1.1760), or throws
    /// -26 where the top item is none.
    #[inline]
    pub fn take_loop(&mut self) -> Result<LoopParameters, Throw>
        ensures taken { result ≡ loop_on_top self.old }
        ensures rest { OnOk result (self.new ≡ drop 1 self.old) }
        ensures unchanged { OnErr result (self.new ≡ self.old) }
    {
        let found = self.top_loop()?;
        let _ = self.pop();
        Ok(found)
    }

    /// Whether the loop on top would go on after a signed step, as `loop` and `+loop` take one (Forth
    /// 2012, 6.1.1800, 6.1.0140), or -26 where the top item is no loop. Nothing is changed.
    #[inline]
    pub fn loop_goes_on(&self, step: Cell) -> Result<bool, Throw>
        ensures { result ≡ goes_on step self.now }
    {
        let current = self.top_loop()?;
        Ok(!passes_limit(current.index, current.limit, step))
    }

    /// Adds a signed step to the index of the loop on top, as `loop` and `+loop` do (Forth 2012,
    /// 6.1.1800, 6.1.0140), and answers whether the loop goes on.
    ///
    /// Where the step passes the limit, the loop has ended and is taken away. Throws -26 where the
    /// top item is no loop.
    #[inline]
    pub fn turn_loop(&mut self, step: Cell) -> Result<bool, Throw>
        ensures answer { result ≡ goes_on step self.old }
        ensures items { self.new ≡ turned step self.old }
    {
        let depth = self.items.len();
        if depth == 0 {
            return Err(Throw::LOOP_UNAVAILABLE);
        }
        match turn(&mut self.items[depth - 1], step) {
            Ok(true) => Ok(true),
            Ok(false) => {
                let _ = self.pop();
                Ok(false)
            }
            Err(fault) => Err(fault),
        }
    }

    /// Takes the latest source with all items above it, as the end of an image or text does (IEEE
    /// 1275-1994, `end0`), and answers what is read on with. Where there is none, the stack becomes
    /// empty.
    #[tactic(auto, unfolding(crate::specs::Unwinding::latest_source, crate::specs::Unwinding::beneath_source))]
    pub fn end_source(&mut self) -> Option<Reading>
        ensures reading { result ≡ latest_source self.old }
        ensures items { self.new ≡ beneath_source self.old }
    {
        match self.pop() {
            Some(ReturnItem::Source(reading)) => Some(reading),
            Some(ReturnItem::Return(_)) => self.end_source(),
            Some(ReturnItem::Loop(_)) => self.end_source(),
            Some(ReturnItem::User(_)) => self.end_source(),
            Some(ReturnItem::Handler(_)) => self.end_source(),
            Some(ReturnItem::Caller(_)) => self.end_source(),
            None => None,
        }
    }

    /// Does to both stacks what a throw does (Forth 2012, 9.6.1.2275), and answers what the latest
    /// `catch` kept.
    ///
    /// The return stack is cut at the latest handler, which goes too, the data stack to the depth
    /// that this kept, or filled up to it with cells of 0, and the throw's number is pushed. Where
    /// there is no handler both stacks become empty.
    pub fn unwind(&mut self, thrown: Throw, cells: &mut DataStack) -> Option<ExceptionFrame>
        ensures handler { result ≡ latest_handler self.old }
        ensures items { self.new ≡ beneath_handler self.old }
        ensures cells { cells.new ≡ unwound thrown (latest_handler self.old) cells.old }
    {
        let found = self.cut();
        match found {
            Some(frame) => {
                cells.cut_to(frame.depth);
                cells.push(Cell(thrown.0.cast_unsigned()));
            }
            None => *cells = DataStack::new(),
        }
        found
    }

    /// Cuts the stack at the latest handler.
    #[tactic(auto, unfolding(crate::specs::Unwinding::latest_handler, crate::specs::Unwinding::beneath_handler))]
    fn cut(&mut self) -> Option<ExceptionFrame>
        ensures handler { result ≡ latest_handler self.old }
        ensures items { self.new ≡ beneath_handler self.old }
    {
        match self.pop() {
            Some(ReturnItem::Handler(frame)) => Some(frame),
            Some(ReturnItem::Return(_)) => self.cut(),
            Some(ReturnItem::Loop(_)) => self.cut(),
            Some(ReturnItem::User(_)) => self.cut(),
            Some(ReturnItem::Source(_)) => self.cut(),
            Some(ReturnItem::Caller(_)) => self.cut(),
            None => None,
        }
    }
}
