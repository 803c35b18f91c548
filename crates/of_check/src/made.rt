//! Which FCodes the tokens so far make.
ghost use Rattle.std.specs.Prelude.{◌≡◌, IfOk, replicate, set, true, false};
ghost use Rattle.of_stream.specs.Decoding.{argument_shown};
ghost use Rattle.of_check.specs.Findings.{is_own};
ghost use Rattle.of_check.specs.Table.{has, none_made, noted};

use of_fcodes::FCode;
use of_stream::{Argument, Token};
use std::alloc::{AllocError, Global};
use std::marker::Model;

/// How many FCodes there are: 0x000 to 0xFFF.
const FCODES: usize = 4096;

/// Which FCodes the tokens so far make.
#[derive(Drop)]
pub struct Made {
    table: Vec<bool>,
}

impl Model for Made {
    ghost use Rattle.std.specs.Prelude.{Bool, List};

    ghost Value = { List Bool };

    ghost view = { λ m. m.table.items };
}

/// Whether an FCode is an image's own.
pub fn is_own(code: FCode) -> bool
    ensures { result ≡ is_own code.0 }
{
    code.0 >= 0x800 && code.0 < 0x1000
}

impl Made {
    /// None.
    #[tactic(auto, unfolding(crate::specs::Table::none_made))]
    pub fn none(alloc: Global) -> Result<Made, AllocError>
        ensures { IfOk result (λ m. m ≡ none_made) }
    {
        let mut table = Vec::new(alloc);
        table.resize(FCODES, false)?;
        Ok(Made { table })
    }

    /// Whether an FCode is made.
    pub fn has(&self, code: FCode) -> bool
        ensures { result ≡ has self.now code.0 }
    {
        match self.table.get(usize::from(code.0)) {
            Some(made) => *made,
            None => false,
        }
    }

    /// Makes an FCode.
    #[tactic(auto, using(std::proofs::lemmas::List::set_past))]
    fn make(&mut self, code: FCode)
        ensures { self.new ≡ set self.old code.0 true }
    {
        let place = usize::from(code.0);
        if place < self.table.len() {
            self.table[place] = true;
        }
    }

    /// Takes note of a token: `new-token`, `named-token` and `external-token` make an FCode.
    pub fn pass(&mut self, token: Token<'_>)
        ensures { self.new ≡ noted token.entry.code.0 (argument_shown token.entry.argument) self.old }
    {
        match token.argument {
            Argument::Named(_, code) => self.make(code),
            Argument::FCode(code) if token.code.0 == 0x0b5 => self.make(code),
            _ => {}
        }
    }
}
