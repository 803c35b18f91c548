// Words that read on: comments, strings, numbers and names.
ghost use Rattle.std.specs.Prelude.{◌≡◌, ◌∷◌, [], IfOk, OnOk};
ghost use Rattle.std.specs.Option.{option_map};
ghost use Rattle.of_source.specs.Items.{code_of};
ghost use Rattle.of_source.specs.Items as item;
ghost use Rattle.of_source.specs.Keywords.{ordinary_named};
ghost use Rattle.of_source.specs.declared.keyword.Keyword.TheVariants as keyword;
ghost use Rattle.of_source.specs.declared.keyword.Quote.TheVariants as quote;

use super::Parser;
use crate::fault::SourceFault;
use crate::item::{Item, Name, Plain};
use crate::keyword::Radix;
use crate::words::ordinary_named;
use of_cells::Cell;
use of_fcodes::FCode;
use of_scan::{Number, number_in};
use std::alloc::AllocError;

impl Parser<'_> {
    ghost use Rattle.of_source.specs.Items.{code_of, string};
    ghost use Rattle.of_source.specs.Steps.{code_named, giving, keyword_step, Steps};

    /// `h#` or `d#`.
    pub(super) fn number_word(&mut self, radix: Radix) -> Result<bool, SourceFault>
        ensures { Steps (keyword_step 0 (keyword.NumberIn radix) self.old) self.new result }
    {
        let at = self.at;
        let Some(word) = self.rest.word() else {
            return Err(SourceFault::BadNumber(at));
        };
        match number_in(word.bytes, radix.base()) {
            Number::Value(x) => {
                self.number(x)?;
                Ok(true)
            }
            Number::OutOfRange => Err(SourceFault::BadNumber(at)),
            Number::NoNumber => Err(SourceFault::BadNumber(at)),
        }
    }

    /// `char` or `[char]`.
    pub(super) fn character_word(&mut self, last: usize) -> Result<bool, SourceFault>
        ensures { Steps (keyword_step last keyword.Character self.old) self.new result }
    {
        let fault = self.ended(last);
        let Some(word) = self.rest.word() else {
            return Err(fault);
        };
        self.number(Cell(u32::from(word.bytes[0])))?;
        Ok(true)
    }

    /// What a name stands for: a definition, or an ordinary word.
    fn named(&self, name: &[u8]) -> Result<Option<Name>, AllocError>
        ensures { IfOk result (λ named. option_map code_of named ≡ code_named self.now.setting.names name.now) }
    {
        if let Some(number) = self.own(name)? {
            return Ok(Some(Name::Own(number)));
        }
        Ok(ordinary_name(name))
    }

    /// `'`, `[']` or `to`.
    pub(super) fn naming_word(&mut self, token: FCode, last: usize) -> Result<bool, SourceFault>
        ensures { Steps (keyword_step last (keyword.Naming token) self.old) self.new result }
    {
        let fault = self.ended(last);
        let Some(word) = self.rest.word() else {
            return Err(fault);
        };
        let Some(name) = self.named(word.bytes)? else {
            return Err(SourceFault::Unknown(word.at));
        };
        self.give(Item::Plain(Plain::Naming(token, name)))?;
        Ok(true)
    }

    /// `(`.
    pub(super) fn comment_word(&mut self) -> Result<bool, SourceFault>
        ensures { Steps (keyword_step 0 keyword.Comment self.old) self.new result }
    {
        if self.rest.skip_comment() {
            Ok(true)
        } else {
            self.unknown()
        }
    }

    /// `\`.
    pub(super) fn line_comment_word(&mut self) -> Result<bool, SourceFault>
        ensures { Steps (keyword_step 0 keyword.LineComment self.old) self.new result }
    {
        self.rest.skip_line();
        Ok(true)
    }

    /// A string.
    fn give_string(&mut self, bytes: Vec<u8>) -> Result<(), AllocError>
        ensures { OnOk result (self.new ≡ giving (item.Plain (string bytes.items) ∷ []) self.old) }
    {
        self.give(Item::Plain(Plain::String(bytes)))
    }

    /// `"`.
    pub(super) fn bytes_word(&mut self) -> Result<bool, SourceFault>
        ensures { Steps (keyword_step 0 (keyword.Text quote.Bytes) self.old) self.new result }
    {
        let Some(bytes) = self.rest.quoted_string(self.alloc)? else {
            return self.unknown();
        };
        if bytes.len() > 255 {
            return Err(SourceFault::TooLong(self.at));
        }
        self.give_string(bytes)?;
        Ok(true)
    }

    /// `s"`.
    pub(super) fn plain_word(&mut self) -> Result<bool, SourceFault>
        ensures { Steps (keyword_step 0 (keyword.Text quote.Plain) self.old) self.new result }
    {
        let Some(bytes) = self.rest.string(b'"') else {
            return self.unknown();
        };
        if bytes.len() > 255 {
            return Err(SourceFault::TooLong(self.at));
        }
        self.give_string(bytes.to_vec(self.alloc)?)?;
        Ok(true)
    }

    /// `."`.
    #[tactic(auto, using(crate::proofs::Printing::printed))]
    pub(super) fn printed_word(&mut self) -> Result<bool, SourceFault>
        ensures { Steps (keyword_step 0 (keyword.Text quote.Printed) self.old) self.new result }
    {
        if !self.plain_word()? {
            return Ok(false);
        }
        self.call(Name::Listed(FCode(0x090)))?;
        Ok(true)
    }
}

/// The ordinary word of a name.
fn ordinary_name(name: &[u8]) -> Option<Name>
    ensures { option_map code_of result ≡ ordinary_named name.now }
{
    match ordinary_named(name) {
        Some(code) => Some(Name::Listed(code)),
        None => None,
    }
}
