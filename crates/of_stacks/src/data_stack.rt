ghost use Rattle.std.specs.Prelude.{◌+◌, ◌++◌, replicate, IfOk, IfErr, OnOk, reverse, ◌≡◌, ◌<◌, ◌≤◌, List, [], ◌∷◌};
ghost use Rattle.std.specs.Prelude.{length, drop, Ok, Err, Some, None};
ghost use Rattle.std.specs.List.{slice_get, remove};
ghost use Rattle.of_stacks.specs.Throws.{stack_underflow, stack_overflow};
ghost use Rattle.of_cells.specs.Outcomes.{Becomes};
ghost use Rattle.of_stacks.specs.Stacks.{within};
ghost use Rattle.of_stacks.specs.Unwinding.{nought, to_depth};

use crate::throws::Throw;
use arrayvec::ArrayVec;
use of_cells::Cell;
use std::marker::Model;

/// How many cells the data stack holds at most.
pub const CAPACITY: usize = 256;

/// The data stack: at most 256 cells (Forth 2012, 3.2.3.1). A refused call changes nothing.
#[derive(Drop)]
pub struct DataStack {
    cells: ArrayVec<Cell, 256>,
}

// Clauses see the cells, the top first.
impl Model for DataStack {
    ghost use Rattle.std.specs.Prelude.{List, length, reverse, ◌≤◌};
    ghost use Rattle.of_cells.specs.declared.cells.Cell.{Cell};

    ghost Value = { List Cell };

    ghost view = { λ s. reverse s.cells.items };

    ghost invariant = { λ s. length s.cells.items ≤ 256 };
}

impl DataStack {
    /// An empty stack.
    pub fn new() -> Self
        ensures { result ≡ [] }
    {
        DataStack {
            cells: ArrayVec::new(),
        }
    }

    /// How many cells there are.
    #[inline]
    pub fn depth(&self) -> usize
        ensures value { result ≡ length self.now }
        ensures fits { result ≤ 256 }
    {
        self.cells().len()
    }

    /// The cells, the bottom first.
    #[inline]
    pub fn cells(&self) -> &[Cell]
        ensures value { reverse result.now ≡ self.now }
        ensures fits { length result.now ≤ 256 }
    {
        self.cells.as_slice()
    }

    /// Pushes a cell, for which there must be room.
    #[inline]
    pub fn push(&mut self, x: Cell)
        requires { length self.old < 256 }
        ensures { self.new ≡ x ∷ self.old }
    {
        self.cells.push(x);
    }

    /// Pushes a cell, or throws -3 where 256 cells are there already.
    #[inline]
    pub fn try_push(&mut self, x: Cell) -> Result<(), Throw>
        ensures { Becomes (within (x ∷ self.old)) self.old self.new result }
    {
        self.room_for(1)?;
        self.push(x);
        Ok(())
    }

    /// Takes the top cell, or throws -4 where there is none.
    #[inline]
    pub fn pop(&mut self) -> Result<Cell, Throw>
        ensures ok { IfOk result (λ x. self.old ≡ x ∷ self.new) }
        ensures err { IfErr result (λ t. (self.old ≡ []) × (t ≡ stack_underflow)) }
        ensures rest { self.new ≡ drop 1 self.old }
        ensures room { length self.new < 256 }
    {
        match self.cells.pop() {
            Some(x) => Ok(x),
            None => Err(Throw::STACK_UNDERFLOW),
        }
    }

    /// The top cell, or -4 where there is none.
    #[inline]
    pub fn peek(&self) -> Result<Cell, Throw>
        ensures ok { IfOk result (λ x. self.now ≡ x ∷ drop 1 self.now) }
        ensures err { IfErr result (λ t. (self.now ≡ []) × (t ≡ stack_underflow)) }
    {
        match self.cells.last() {
            Some(x) => Ok(*x),
            None => Err(Throw::STACK_UNDERFLOW),
        }
    }

    /// The two top cells, the top one last, or -4 where there are fewer.
    #[inline]
    pub fn top_two(&self) -> Result<(Cell, Cell), Throw>
        ensures ok { IfOk result (λ p. self.now ≡ p.1 ∷ p.0 ∷ drop 2 self.now) }
        ensures err { IfErr result (λ t. (length self.now < 2) × (t ≡ stack_underflow)) }
    {
        let depth = self.cells.len();
        if depth < 2 {
            return Err(Throw::STACK_UNDERFLOW);
        }
        Ok((self.cells[depth - 2], self.cells[depth - 1]))
    }

    /// The three top cells, the top one last, or -4 where there are fewer.
    #[inline]
    pub fn top_three(&self) -> Result<(Cell, Cell, Cell), Throw>
        ensures ok { IfOk result (λ p. self.now ≡ p.2 ∷ p.1 ∷ p.0 ∷ drop 3 self.now) }
        ensures err { IfErr result (λ t. (length self.now < 3) × (t ≡ stack_underflow)) }
    {
        let depth = self.cells.len();
        if depth < 3 {
            return Err(Throw::STACK_UNDERFLOW);
        }
        Ok((
            self.cells[depth - 3],
            self.cells[depth - 2],
            self.cells[depth - 1],
        ))
    }

    /// The four top cells, the top one last, or -4 where there are fewer.
    #[tactic(auto, using(crate::proofs::Reversed::reverse_four))]
    #[inline]
    pub fn top_four(&self) -> Result<(Cell, Cell, Cell, Cell), Throw>
        ensures ok { IfOk result (λ p. self.now ≡ p.3 ∷ p.2 ∷ p.1 ∷ p.0 ∷ drop 4 self.now) }
        ensures err { IfErr result (λ t. (length self.now < 4) × (t ≡ stack_underflow)) }
    {
        let depth = self.cells.len();
        if depth < 4 {
            return Err(Throw::STACK_UNDERFLOW);
        }
        Ok((
            self.cells[depth - 4],
            self.cells[depth - 3],
            self.cells[depth - 2],
            self.cells[depth - 1],
        ))
    }

    /// Whether there is room for `count` more cells, or -3 where there isn't.
    #[inline]
    pub fn room_for(&self, count: usize) -> Result<(), Throw>
        requires { count ≤ 256 }
        ensures ok { OnOk result (length self.now + count ≤ 256) }
        ensures err { IfErr result (λ t. (256 < length self.now + count) × (t ≡ stack_overflow)) }
    {
        if self.cells.len() + count <= 256 {
            Ok(())
        } else {
            Err(Throw::STACK_OVERFLOW)
        }
    }

    /// Drops the top `count` cells, which must be there.
    #[inline]
    pub fn drop_top(&mut self, count: usize)
        requires { count ≤ length self.old }
        ensures cells { self.new ≡ drop count self.old }
        ensures depth { length self.new + count ≡ length self.old }
        ensures room { length self.old ≤ 256 }
    {
        for _dropped in 0..count {
            let _ = self.cells.pop();
        }
    }

    /// Puts a cell in the place of the top one, which must be there.
    #[inline(always)]
    pub fn replace_top(&mut self, x: Cell)
        requires { 1 ≤ length self.old }
        ensures { self.new ≡ x ∷ drop 1 self.old }
    {
        let last = self.cells.len() - 1;
        self.cells[last] = x;
    }

    /// Puts a cell in the place of the two top ones, which must be there.
    #[inline(always)]
    pub fn replace_two(&mut self, x: Cell)
        requires { 2 ≤ length self.old }
        ensures cells { self.new ≡ x ∷ drop 2 self.old }
        ensures room { length self.new < 256 }
    {
        let last = self.cells.len() - 1;
        self.cells[last - 1] = x;
        let _ = self.cells.pop();
    }

    /// The cell under `count` others, or -4 where there is none.
    #[inline]
    pub fn under(&self, count: usize) -> Result<Cell, Throw>
        ensures ok { IfOk result (λ x. slice_get self.now count ≡ Some x) }
        ensures there { OnOk result (count < length self.now) }
        ensures err { IfErr result (λ t. (slice_get self.now count ≡ None) × (t ≡ stack_underflow)) }
    {
        let depth = self.cells.len();
        if count >= depth {
            return Err(Throw::STACK_UNDERFLOW);
        }
        Ok(self.cells[depth - 1 - count])
    }

    /// Takes out the cell under `count` others, which must be there.
    pub fn take_out(&mut self, count: usize) -> Cell
        requires { count < length self.old }
        ensures cell { slice_get self.old count ≡ Some result }
        ensures rest { self.new ≡ remove self.old count }
        ensures room { length self.new < 256 }
    {
        let depth = self.cells.len();
        self.cells.remove(depth - 1 - count)
    }

    /// Drops what lies above a depth, or fills the stack up to it with cells of 0.
    pub fn cut_to(&mut self, depth: u8)
        ensures cells { self.new ≡ to_depth depth self.old }
        ensures room { length self.new < 256 }
    {
        let depth = usize::from(depth);
        let now = self.depth();
        if now < depth {
            self.fill(depth - now);
        } else {
            self.drop_top(now - depth);
        }
    }

    /// Pushes `count` cells of 0, for which there must be room.
    fn fill(&mut self, count: usize)
        requires { length self.old + count ≤ 256 }
        ensures { self.new ≡ replicate count nought ++ self.old }
    {
        if count > 0 {
            self.push(Cell::ZERO);
            self.fill(count - 1);
        }
    }
}
