ghost use Rattle.std.specs.Prelude.{◌≡◌, ◌∷◌, [], ◌&&◌, nat_eq, IfOk, OnOk, Some, None, if◌then◌else◌, length, drop};
ghost use Rattle.std.specs.Prelude.{reverse};
ghost use Rattle.of_source.specs.Nesting.{is_same, loops_in, last_or, earliest_of, frames};

use std::alloc::{AllocError, Global};
use std::marker::Model;

/// A part of a source that has an inside.
#[derive(Clone, Copy)]
pub enum Part {
    /// `:` to `;`.
    Definition,
    /// `begin` to `until`, `again` or `repeat`.
    Begin,
    /// `do` or `?do` to `loop` or `+loop`.
    Do,
    /// `case` to `endcase`.
    Case,
    /// `of` to `endof`.
    Of,
}

/// An open part: its position, and how many branches were open before it.
#[derive(Clone, Copy)]
pub struct Frame {
    /// Which part.
    pub part: Part,
    /// The position of its first word.
    pub at: usize,
    /// How many branches were open before it.
    pub beneath: usize,
}

/// An open part with what it stands in, so that no question looks at the parts around it.
#[derive(Clone, Copy)]
pub struct Level {
    /// The part.
    pub frame: Frame,
    /// Whether it, or a part around it, is a definition.
    pub defines: bool,
    /// Whether a loop is open in the same definition, or outside all.
    pub loops: bool,
    /// Whether it and all parts around it are definitions.
    pub straight: bool,
}

/// The open parts.
#[derive(Drop)]
struct Parts {
    levels: Vec<Level>,
}

// Clauses see the latest first, without what the others say of it.
impl Model for Parts {
    ghost use Rattle.std.specs.Prelude.{List, reverse};
    ghost use Rattle.of_source.specs.declared.nesting.Frame.{Frame as Open};
    ghost use Rattle.of_source.specs.Nesting.{frames, AreSurrounded};

    ghost Value = { List Open };

    ghost view = { λ p. frames (reverse p.levels.items) };

    ghost invariant = { λ p. AreSurrounded (reverse p.levels.items) };
}

/// What stands open: the positions of branches, and parts.
#[derive(Drop)]
pub struct Nesting {
    branches: Vec<usize>,
    parts: Parts,
}

// Clauses see both latest first.
impl Model for Nesting {
    ghost use Rattle.std.specs.Prelude.{reverse};
    ghost use Rattle.of_source.specs.Nesting.{Nesting as Open};

    ghost Value = { Open };

    ghost view = { λ n. record { branches = reverse n.branches.items; parts = n.parts } };
}

/// Whether two parts are of one kind.
#[inline]
fn is_same(part: Part, other: Part) -> bool
    ensures { result ≡ is_same part other }
{
    match part {
        Part::Definition => matches!(other, Part::Definition),
        Part::Begin => matches!(other, Part::Begin),
        Part::Do => matches!(other, Part::Do),
        Part::Case => matches!(other, Part::Case),
        Part::Of => matches!(other, Part::Of),
    }
}

/// Whether a loop is open in a part of this kind, with what holds around it.
fn loops_in(part: Part, around: bool) -> bool
    ensures { result ≡ loops_in part around }
{
    match part {
        Part::Do => true,
        Part::Definition => false,
        Part::Begin | Part::Case | Part::Of => around,
    }
}

impl Parts {
    ghost use Rattle.of_source.specs.Nesting.{in_loop, in_definition, all_definitions, floor, is_in, earliest_of};

    /// No part is open.
    fn new(alloc: Global) -> Self
        ensures { result ≡ [] }
    {
        Parts {
            levels: Vec::new(alloc),
        }
    }

    /// How many are open.
    fn count(&self) -> usize
        ensures { result ≡ length self.now }
    {
        self.levels.len()
    }

    /// Whether one of them is a definition.
    fn in_definition(&self) -> bool
        ensures { result ≡ in_definition self.now }
    {
        match self.levels.last() {
            Some(level) => level.defines,
            None => false,
        }
    }

    /// Whether a loop is open in the same definition, or outside all.
    fn in_loop(&self) -> bool
        ensures { result ≡ in_loop self.now }
    {
        match self.levels.last() {
            Some(level) => level.loops,
            None => false,
        }
    }

    /// Whether all of them are definitions.
    fn all_definitions(&self) -> bool
        ensures { result ≡ all_definitions self.now }
    {
        match self.levels.last() {
            Some(level) => level.straight,
            None => true,
        }
    }

    /// How many branches the innermost part may not close.
    fn floor(&self) -> usize
        ensures { result ≡ floor self.now }
    {
        match self.levels.last() {
            Some(level) => level.frame.beneath,
            None => 0,
        }
    }

    /// Whether the innermost part is of this kind.
    fn is_in(&self, part: Part) -> bool
        ensures { result ≡ is_in part self.now }
    {
        match self.levels.last() {
            Some(level) => is_same(level.frame.part, part),
            None => false,
        }
    }

    /// A part opens.
    fn open(&mut self, frame: Frame) -> Result<(), AllocError>
        ensures { OnOk result (self.new ≡ frame ∷ self.old) }
    {
        let definition = is_same(frame.part, Part::Definition);
        let level = Level {
            frame,
            defines: definition || self.in_definition(),
            loops: loops_in(frame.part, self.in_loop()),
            straight: definition && self.all_definitions(),
        };
        self.levels.push(level)?;
        Ok(())
    }

    /// The innermost part closes.
    fn close(&mut self)
        ensures { self.new ≡ drop 1 self.old }
    {
        let _ = self.levels.pop();
    }

    /// The position of the first part, if it opened before each open branch; else this one.
    fn earliest(&self, at: usize) -> usize
        ensures { result ≡ earliest_of at self.now }
    {
        earliest(&self.levels, at)
    }
}

impl Nesting {
    ghost use Rattle.of_source.specs.Nesting.{nothing_open, with_branch, with_part, without_branch, then_with_branch};
    ghost use Rattle.of_source.specs.Nesting.{without_begin};
    ghost use Rattle.of_source.specs.Nesting.{without_part, is_even, on_case, is_straight, is_closed};
    ghost use Rattle.of_source.specs.Nesting.{first_open, in_definition, in_loop};

    /// Nothing is open.
    pub fn new(alloc: Global) -> Self
        ensures { result ≡ nothing_open }
    {
        Nesting {
            branches: Vec::new(alloc),
            parts: Parts::new(alloc),
        }
    }

    /// A branch opens at this position.
    pub fn open_branch(&mut self, at: usize) -> Result<(), AllocError>
        ensures { OnOk result (self.new ≡ with_branch at self.old) }
    {
        self.branches.push(at)?;
        Ok(())
    }

    /// A part opens at this position.
    pub fn open_part(&mut self, part: Part, at: usize) -> Result<(), AllocError>
        ensures { OnOk result (self.new ≡ with_part part at self.old) }
    {
        let beneath = self.branches.len();
        self.parts.open(Frame { part, at, beneath })?;
        Ok(())
    }

    /// Whether the innermost part left no branch open.
    fn is_even(&self) -> bool
        ensures { result ≡ is_even self.now }
    {
        self.parts.floor() == self.branches.len()
    }

    /// The latest branch closes, if it opened in the innermost part.
    pub fn close_branch(&mut self) -> bool
        ensures { without_branch self.old ≡ (if result then Some self.new else None) }
    {
        if self.parts.floor() >= self.branches.len() {
            return false;
        }
        let _ = self.branches.pop();
        true
    }

    /// The latest branch closes, if it opened in the innermost part, and then another opens at this position.
    pub fn exchange_branch(&mut self, at: usize) -> Result<bool, AllocError>
        ensures { IfOk result (λ closed. then_with_branch at (without_branch self.old)
            ≡ (if closed then Some self.new else None)) }
    {
        if !self.close_branch() {
            return Ok(false);
        }
        self.open_branch(at)?;
        Ok(true)
    }

    /// The innermost part closes, if it is one with `begin`; branches that it opened stay open.
    pub fn close_begin(&mut self) -> bool
        ensures { without_begin self.old ≡ (if result then Some self.new else None) }
    {
        if !self.parts.is_in(Part::Begin) {
            return false;
        }
        self.parts.close();
        true
    }

    /// The innermost part closes, if it is of this kind and left no branch open.
    pub fn close_part(&mut self, part: Part) -> bool
        ensures { without_part part self.old ≡ (if result then Some self.new else None) }
    {
        if !self.parts.is_in(part) || !self.is_even() {
            return false;
        }
        self.parts.close();
        true
    }

    /// Whether the innermost part is a case that left no branch open.
    pub fn on_case(&self) -> bool
        ensures { result ≡ on_case self.now }
    {
        self.parts.is_in(Part::Case) && self.is_even()
    }

    /// Whether a definition is open.
    pub fn in_definition(&self) -> bool
        ensures { result ≡ in_definition self.now.parts }
    {
        self.parts.in_definition()
    }

    /// Whether no control structure is open.
    pub fn is_straight(&self) -> bool
        ensures { result ≡ is_straight self.now }
    {
        self.branches.len() == 0 && self.parts.all_definitions()
    }

    /// Whether nothing is open.
    pub fn is_closed(&self) -> bool
        ensures { result ≡ is_closed self.now }
    {
        self.branches.len() == 0 && self.parts.count() == 0
    }

    /// Whether a loop is open in the same definition, or outside all.
    pub fn in_loop(&self) -> bool
        ensures { result ≡ in_loop self.now.parts }
    {
        self.parts.in_loop()
    }

    /// The position of the first opener that is still open, or this one.
    pub fn first_open(&self, at: usize) -> usize
        ensures { result ≡ first_open at self.now }
    {
        self.parts.earliest(first_branch(&self.branches, at))
    }
}

/// The position of the first part, the latest last, if it opened before each open branch; else this one.
fn earliest(levels: &[Level], at: usize) -> usize
    ensures { result ≡ earliest_of at (frames (reverse levels.now)) }
{
    if levels.len() == 0 {
        return at;
    }
    let first = levels[0].frame;
    if first.beneath == 0 { first.at } else { at }
}

/// The position of the first branch, the latest last, or this one.
#[tactic(auto, using(crate::proofs::Ends::last_or_reverse))]
fn first_branch(branches: &[usize], at: usize) -> usize
    ensures { result ≡ last_or at (reverse branches.now) }
{
    if branches.is_empty() {
        return at;
    }
    branches[0]
}
