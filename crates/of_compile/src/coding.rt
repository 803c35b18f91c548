//! A store of code, and what is open in its open definition.
ghost use Rattle.std.specs.Prelude.{◌≡◌, ◌≤◌, ◌+◌, is_some, true, OnErr, OnOk, [], Some};
ghost use Rattle.of_compile.specs.Elements.{CanBeStored, element_of, own_item};
ghost use Rattle.of_compile.specs.Coding.{abandoning, coding_of, compiling, finishing};

use crate::Element;
use crate::compiling::{abandon, compile, semicolon};
use of_cells::Cell;
use of_code::{CodeStore, MOST_CALLS};
use of_control::Control;
use of_stacks::Throw;
use std::alloc::AllocError;
use std::marker::Model;

/// Code, and the control structures that are open in its open definition: 32 at most.
///
/// Each call that appends or finishes needs memory for one call of the store, which `reserve` makes.
#[derive(Drop)]
pub struct Coding<C: CodeStore> {
    code: C,
    control: Control<32>,
}

// Clauses see code and openers, and for how many calls there is memory.
impl<C: CodeStore> Model for Coding<C> {
    ghost use Rattle.of_compile.specs.Coding.{IsWithin, Spared, coding_of};

    ghost Value = { Spared };

    ghost view = { λ c. record { coding = coding_of (C.code c.code) c.control; spare = C.spare c.code } };

    ghost invariant = { λ c. IsWithin (coding_of (C.code c.code) c.control) };
}

impl<C: CodeStore> Coding<C> {
    /// Nothing is open. What the store has of an open definition belongs to it.
    pub fn new(code: C) -> Coding<C>
        ensures coding { result.coding ≡ coding_of (C.code code) (Some []) }
        ensures spare { result.spare ≡ C.spare code }
    {
        Coding {
            code,
            control: Control::new(),
        }
    }

    /// The store, for what reads code.
    #[inline(always)]
    pub fn code(&self) -> &C
        ensures { C.code result.now ≡ self.now.coding.code }
    {
        &self.code
    }

    /// Makes room for this many calls that append or finish, at most 256. A refused growth changes nothing else.
    pub fn reserve(&mut self, calls: usize) -> Result<(), AllocError>
        requires { calls ≤ MOST_CALLS }
        ensures coding { self.new.coding ≡ self.old.coding }
        ensures kept { self.old.spare ≤ self.new.spare }
        ensures ready { OnOk result (calls ≤ self.new.spare) }
    {
        self.code.reserve(calls)
    }

    /// Makes room for the item of an element, if it has one. A refused growth changes nothing else.
    pub fn reserve_for(&mut self, element: Element) -> Result<(), AllocError>
        ensures coding { self.new.coding ≡ self.old.coding }
        ensures ready { OnOk result (is_some (own_item (element_of element)) ≡ true → 1 ≤ self.new.spare) }
        ensures refused { OnErr result (is_some (own_item (element_of element)) ≡ true) }
    {
        if element.own_item().is_none() {
            return Ok(());
        }
        self.code.reserve(1)
    }

    /// Compiles an element, whose operation is a written word and whose call another one. Only one that has an item
    /// needs memory.
    ///
    /// Throws -8 exactly where the element's item would pass the last code cell, and then nothing is changed.
    pub fn compile(&mut self, element: Element) -> Result<(), Throw>
        requires storable { CanBeStored (own_item (element_of element)) }
        requires memory { is_some (own_item (element_of element)) ≡ true → 1 ≤ self.old.spare }
        ensures outcome { compiling (element_of element) self.old.coding
            ≡ record { coding = self.new.coding; ended = result } }
        ensures spare { self.old.spare ≤ self.new.spare + 1 }
    {
        compile(element, &mut self.code, &mut self.control)
    }

    /// Ends the open definition as the word `xt`, as `b(;)` does (IEEE 1275-1994, annex A; Forth 2012, 6.1.0460).
    ///
    /// Throws -22 exactly where control isn't matched, then -8 where the return would pass the last code cell; nothing
    /// is changed then.
    pub fn semicolon(&mut self, xt: Cell) -> Result<(), Throw>
        requires { 1 ≤ self.old.spare }
        ensures outcome { finishing xt self.old.coding ≡ record { coding = self.new.coding; ended = result } }
        ensures spare { self.old.spare ≤ self.new.spare + 1 }
    {
        semicolon(xt, &mut self.code, &mut self.control)
    }

    /// Forgets the open definition, and what is open in it.
    pub fn abandon(&mut self)
        ensures coding { abandoning self.old.coding ≡ self.new.coding }
        ensures spare { self.old.spare ≤ self.new.spare }
    {
        abandon(&mut self.code, &mut self.control);
    }
}
