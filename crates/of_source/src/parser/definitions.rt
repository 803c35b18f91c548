// Definitions and their names (IEEE 1275-1994, 5.3.3.1; Forth 2012, 3.3.1.2).
ghost use Rattle.std.specs.Prelude.{◌≡◌, ◌∷◌, [], Err, IfErr, IfOk, length, Ok, OnOk};
ghost use Rattle.of_source.specs.Items as item;
ghost use Rattle.of_source.specs.declared.keyword.Definer.TheVariants as definer;
ghost use Rattle.of_source.specs.declared.keyword.Keyword.TheVariants as keyword;
ghost use Rattle.of_source.specs.declared.keyword.Lone.TheVariants as lone;

use super::Parser;
use crate::fault::SourceFault;
use crate::item::{Item, Made, Name};
use crate::names::Own;
use crate::nesting::Part;
use of_fcodes::FCode;
use std::alloc::AllocError;

impl<'a> Parser<'a> {
    ghost use Rattle.of_source.specs.Items.{made_shown};
    ghost use Rattle.of_source.specs.Effects.{can_name, has_open, open_ends, made, next_own};
    ghost use Rattle.of_source.specs.Steps.{name_read, changed, keyword_step, lone_step, Steps};

    /// The name of a definition, of at most 31 bytes.
    fn name(&mut self, last: usize) -> Result<&'a [u8], SourceFault>
        ensures ok { IfOk result (λ name. name_read last self.old ≡ Ok (name.now, self.new)) }
        ensures err { IfErr result (λ f. name_read last self.old ≡ Err f) }
    {
        let fault = self.ended(last);
        let Some(word) = self.rest.word() else {
            return Err(fault);
        };
        if word.bytes.len() > 31 {
            return Err(SourceFault::TooLong(word.at));
        }
        Ok(word.bytes)
    }

    /// The definition of this name that begins, with the next number.
    fn made(&self, name: &[u8]) -> Result<Made, AllocError>
        ensures { IfOk result (λ d. made_shown d ≡ made name.now self.now.setting) }
    {
        let name = name.to_vec(self.alloc)?;
        Ok(Made {
            maker: self.maker,
            name,
            number: self.known.count(),
        })
    }

    /// A defining word other than `:`.
    #[tactic(auto, using(crate::proofs::Refusals::refused))]
    pub(super) fn defining_word(&mut self, code: FCode, last: usize) -> Result<bool, SourceFault>
        ensures { Steps (keyword_step last (keyword.Defining (definer.Other code)) self.old) self.new result }
    {
        if self.nesting.in_definition() {
            return self.unknown();
        }
        let name = self.name(last)?;
        let made = self.made(name)?;
        self.give(Item::Defining(made, code))?;
        self.know(name)?;
        Ok(true)
    }

    /// A definition that can be named from here on.
    fn know(&mut self, name: &'a [u8]) -> Result<(), AllocError>
        ensures { OnOk result (self.new ≡ changed (can_name (next_own name.now self.old.setting)) self.old) }
    {
        let number = self.known.count();
        self.known.add(Own { name, number })?;
        Ok(())
    }

    /// `:`.
    #[tactic(auto, using(crate::proofs::Refusals::refused))]
    pub(super) fn colon_word(&mut self, last: usize) -> Result<bool, SourceFault>
        ensures { Steps (keyword_step last (keyword.Defining definer.Colon) self.old) self.new result }
    {
        if self.nesting.in_definition() {
            return self.unknown();
        }
        let at = self.at;
        self.nesting.open_part(Part::Definition, at)?;
        let name = self.name(last)?;
        let made = self.made(name)?;
        self.give(Item::Colon(made))?;
        self.open_definition(name);
        Ok(true)
    }

    /// A definition that is open.
    fn open_definition(&mut self, name: &'a [u8])
        ensures { self.new ≡ changed (has_open (next_own name.now self.old.setting)) self.old }
    {
        let number = self.known.count();
        self.open_one = Some(Own { name, number });
    }

    /// The open definition is closed, and can be named.
    fn define(&mut self) -> Result<(), AllocError>
        ensures { OnOk result (self.new ≡ changed open_ends self.old) }
    {
        if let Some(own) = self.open_one {
            self.known.add(own)?;
        }
        self.open_one = None;
        Ok(())
    }

    /// `;`.
    pub(super) fn semicolon_word(&mut self) -> Result<bool, SourceFault>
        ensures { Steps (lone_step lone.Semicolon self.old) self.new result }
    {
        if !self.nesting.close_part(Part::Definition) {
            return self.unclosed();
        }
        self.give(Item::Semicolon)?;
        self.define()?;
        Ok(true)
    }

    /// `recurse`.
    pub(super) fn recurse_word(&mut self) -> Result<bool, SourceFault>
        ensures { Steps (lone_step lone.Recurse self.old) self.new result }
    {
        match self.open_one {
            Some(own) => {
                self.call(Name::Own(own.number))?;
                Ok(true)
            }
            None => self.unknown(),
        }
    }
}
