// Control structures (IEEE 1275-1994, 5.3.3; Forth 2012, A.3.2.3.2).
ghost use Rattle.of_source.specs.declared.keyword.Lone.TheVariants as lone;

use super::Parser;
use crate::fault::SourceFault;
use crate::item::Item;
use crate::nesting::Part;

impl Parser<'_> {
    ghost use Rattle.of_source.specs.Steps.{lone_step, Steps};

    /// `if` or `while`.
    pub(super) fn if_word(&mut self) -> Result<bool, SourceFault>
        ensures { Steps (lone_step lone.If self.old) self.new result }
    {
        let at = self.at;
        self.nesting.open_branch(at)?;
        self.give(Item::If(at))?;
        Ok(true)
    }

    /// `else`.
    pub(super) fn else_word(&mut self) -> Result<bool, SourceFault>
        ensures { Steps (lone_step lone.Else self.old) self.new result }
    {
        let at = self.at;
        if !self.nesting.exchange_branch(at)? {
            return self.unclosed();
        }
        self.give(Item::Else(at))?;
        Ok(true)
    }

    /// `then`.
    pub(super) fn then_word(&mut self) -> Result<bool, SourceFault>
        ensures { Steps (lone_step lone.Then self.old) self.new result }
    {
        if !self.nesting.close_branch() {
            return self.unclosed();
        }
        self.give(Item::Then)?;
        Ok(true)
    }

    /// `begin`.
    pub(super) fn begin_word(&mut self) -> Result<bool, SourceFault>
        ensures { Steps (lone_step lone.Begin self.old) self.new result }
    {
        let at = self.at;
        self.nesting.open_part(Part::Begin, at)?;
        self.give(Item::Begin)?;
        Ok(true)
    }

    /// `until` or `again`.
    pub(super) fn back_word(&mut self, tests: bool) -> Result<bool, SourceFault>
        ensures { Steps (lone_step (lone.Back tests) self.old) self.new result }
    {
        if !self.nesting.close_begin() {
            return self.unclosed();
        }
        let at = self.at;
        self.give(Item::Back(tests, at))?;
        Ok(true)
    }

    /// `repeat`.
    pub(super) fn repeat_word(&mut self) -> Result<bool, SourceFault>
        ensures { Steps (lone_step lone.Repeat self.old) self.new result }
    {
        if !self.nesting.close_begin() || !self.nesting.close_branch() {
            return self.unclosed();
        }
        let at = self.at;
        self.give(Item::Back(false, at))?;
        self.give(Item::Then)?;
        Ok(true)
    }

    /// `do` or `?do`.
    pub(super) fn do_word(&mut self, skips: bool) -> Result<bool, SourceFault>
        ensures { Steps (lone_step (lone.Do skips) self.old) self.new result }
    {
        let at = self.at;
        self.nesting.open_part(Part::Do, at)?;
        self.give(Item::Do(skips, at))?;
        Ok(true)
    }

    /// `loop` or `+loop`.
    pub(super) fn loop_word(&mut self, takes: bool) -> Result<bool, SourceFault>
        ensures { Steps (lone_step (lone.Loop takes) self.old) self.new result }
    {
        if !self.nesting.close_part(Part::Do) {
            return self.unclosed();
        }
        let at = self.at;
        self.give(Item::Loop(takes, at))?;
        Ok(true)
    }

    /// `leave`.
    pub(super) fn leave_word(&mut self) -> Result<bool, SourceFault>
        ensures { Steps (lone_step lone.Leave self.old) self.new result }
    {
        if !self.nesting.in_loop() {
            return self.unclosed();
        }
        self.give(Item::Leave)?;
        Ok(true)
    }

    /// `case`.
    pub(super) fn case_word(&mut self) -> Result<bool, SourceFault>
        ensures { Steps (lone_step lone.Case self.old) self.new result }
    {
        let at = self.at;
        self.nesting.open_part(Part::Case, at)?;
        self.give(Item::Case)?;
        Ok(true)
    }

    /// `of`.
    pub(super) fn of_word(&mut self) -> Result<bool, SourceFault>
        ensures { Steps (lone_step lone.Of self.old) self.new result }
    {
        if !self.nesting.on_case() {
            return self.unclosed();
        }
        let at = self.at;
        self.nesting.open_part(Part::Of, at)?;
        self.give(Item::Of(at))?;
        Ok(true)
    }

    /// `endof`.
    pub(super) fn endof_word(&mut self) -> Result<bool, SourceFault>
        ensures { Steps (lone_step lone.EndOf self.old) self.new result }
    {
        if !self.nesting.close_part(Part::Of) {
            return self.unclosed();
        }
        let at = self.at;
        self.give(Item::EndOf(at))?;
        Ok(true)
    }

    /// `endcase`.
    pub(super) fn endcase_word(&mut self) -> Result<bool, SourceFault>
        ensures { Steps (lone_step lone.EndCase self.old) self.new result }
    {
        if !self.nesting.close_part(Part::Case) {
            return self.unclosed();
        }
        self.give(Item::EndCase)?;
        Ok(true)
    }
}
