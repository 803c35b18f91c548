ghost use Rattle.std.specs.Prelude.{◌≡◌, ◌∷◌, [], Bool, Err, OnOk, true, false, map, option_map, length, IfOk};
ghost use Rattle.of_source.specs.Items.{item_shown, plain_shown, code_of, call};
ghost use Rattle.of_source.specs.Items as item;
ghost use Rattle.of_source.specs.Steps.{number_token};
ghost use Rattle.of_source.specs.declared.fault.SourceFault.TheVariants.{Unclosed, Unknown};
ghost use Rattle.of_source.specs.declared.keyword.Keyword.TheVariants as keyword;
ghost use Rattle.of_source.specs.declared.keyword.Lone.TheVariants as lone;

use crate::fault::SourceFault;
use crate::item::{Item, Name, Plain};
use crate::keyword::{Definer, Keyword, Lone, Maker, Quote, Radix};
use crate::names::{Names, Own};
use crate::nesting::Nesting;
use crate::words::{keyword_named, ordinary_named};
use of_cells::Cell;
use of_fcodes::FCode;
use of_scan::{Number, Rest, number_in};
use std::alloc::{AllocError, Global};
use std::marker::Model;

mod definitions;
mod operands;
mod structures;

/// What is known at a word of a source.
#[derive(Drop)]
pub struct Parser<'a> {
    at: usize,
    rest: Rest<'a>,
    radix: Radix,
    maker: Maker,
    known: Names<'a>,
    open_one: Option<Own<'a>>,
    nesting: Nesting,
    items: Vec<Item>,
    alloc: Global,
}

impl<'a> Model for Parser<'a> {
    ghost use Rattle.std.specs.Prelude.{map, option_map};
    ghost use Rattle.of_source.specs.Items.{item_shown};
    ghost use Rattle.of_source.specs.Names.{own_shown};
    ghost use Rattle.of_source.specs.Steps.{State};

    ghost Value = { State };

    ghost view = { λ p. record {
      at = p.at;
      rest = p.rest;
      setting = record {
        radix = p.radix;
        maker = p.maker;
        names = p.known;
        open_one = option_map own_shown p.open_one;
      };
      nesting = p.nesting;
      items = map item_shown p.items.items;
    } };
}

impl<'a> Parser<'a> {
    ghost use Rattle.of_source.specs.Items.{item_shown, code_of, call};
    ghost use Rattle.of_source.specs.Items as item;
    ghost use Rattle.of_source.specs.Keywords.{keyword_named, ordinary_named};
    ghost use Rattle.of_source.specs.Names.{own_in};
    ghost use Rattle.of_source.specs.Steps.{beginning, giving, keyword_step, lone_step, Steps, ordinary_step};
    ghost use Rattle.of_source.specs.Steps.{listed_step, word_step, next_step, ended, number_items};

    /// The beginning of a source.
    pub fn new(alloc: Global, rest: Rest<'a>) -> Self
        ensures { result ≡ beginning rest.entry }
    {
        Parser {
            at: rest.at(),
            rest,
            radix: Radix::Hexadecimal,
            maker: Maker::Named,
            known: Names::new(alloc),
            open_one: None,
            nesting: Nesting::new(alloc),
            items: Vec::new(alloc),
            alloc,
        }
    }

    /// The position of the latest word.
    pub fn at(&self) -> usize
        ensures { result ≡ self.now.at }
    {
        self.at
    }

    /// How many items there are.
    pub fn count(&self) -> usize
        ensures { result ≡ length self.now.items }
    {
        self.items.len()
    }

    /// One more item.
    fn give(&mut self, item: Item) -> Result<(), AllocError>
        ensures { OnOk result (self.new ≡ giving (item_shown item ∷ []) self.old) }
    {
        self.items.push(item)?;
        Ok(())
    }

    /// What a closer without its opener gives.
    fn unclosed(&self) -> Result<bool, SourceFault>
        ensures { result ≡ Err (Unclosed self.now.at) }
    {
        Err(SourceFault::Unclosed(self.at))
    }

    /// What is left of the text, the radix, and the items.
    pub fn into_parts(self) -> (Rest<'a>, Radix, Vec<Item>)
        ensures rest { result.0 ≡ self.entry.rest }
        ensures radix { result.1 ≡ self.entry.setting.radix }
        ensures items { map item_shown result.2.items ≡ self.entry.items }
    {
        let Parser {
            rest,
            radix,
            items,
            ..
        } = self;
        (rest, radix, items)
    }

    /// The latest definition of a name, whatever the case of its letters.
    fn own(&self, name: &[u8]) -> Result<Option<usize>, AllocError>
        ensures { IfOk result (λ own. own ≡ own_in self.now.setting.names name.now) }
    {
        self.known.find(name)
    }

    /// The fault of a text that ends too early.
    pub fn ended(&self, last: usize) -> SourceFault
        ensures { result ≡ ended last self.now }
    {
        SourceFault::Unclosed(self.nesting.first_open(last))
    }

    /// A number.
    fn number(&mut self, x: Cell) -> Result<(), AllocError>
        ensures { OnOk result (self.new ≡ giving (number_items x) self.old) }
    {
        self.give(Item::Plain(number_item(x)))
    }

    /// A word.
    fn call(&mut self, name: Name) -> Result<(), AllocError>
        ensures { OnOk result (self.new ≡ giving (item.Plain (call (code_of name)) ∷ []) self.old) }
    {
        self.give(Item::Plain(Plain::Call(name)))
    }

    /// What an unknown word gives.
    fn unknown(&self) -> Result<bool, SourceFault>
        ensures { result ≡ Err (Unknown self.now.at) }
    {
        Err(SourceFault::Unknown(self.at))
    }

    /// `offset16`.
    fn offset16_word(&mut self) -> Result<bool, SourceFault>
        ensures { Steps (lone_step lone.Offset16 self.old) self.new result }
    {
        if !self.nesting.is_straight() {
            return self.unknown();
        }
        self.call(Name::Listed(FCode(0x0cc)))?;
        Ok(true)
    }

    /// A word that stands for a token.
    fn one_word(&mut self, code: FCode) -> Result<bool, SourceFault>
        ensures { Steps (lone_step (lone.One code) self.old) self.new result }
    {
        self.call(Name::Listed(code))?;
        Ok(true)
    }

    /// A word that stands for two tokens.
    fn two_words(&mut self, first: FCode, second: FCode) -> Result<bool, SourceFault>
        ensures { Steps (lone_step (lone.Two first second) self.old) self.new result }
    {
        self.call(Name::Listed(first))?;
        self.call(Name::Listed(second))?;
        Ok(true)
    }

    /// `headers`, `external` or `headerless`.
    fn headers_word(&mut self, maker: Maker) -> Result<bool, SourceFault>
        ensures { Steps (lone_step (lone.Headers maker) self.old) self.new result }
    {
        self.maker = maker;
        Ok(true)
    }

    /// `hex` or `decimal`.
    fn radix_word(&mut self, radix: Radix) -> Result<bool, SourceFault>
        ensures { Steps (lone_step (lone.Radix radix) self.old) self.new result }
    {
        self.radix = radix;
        Ok(true)
    }

    /// `fcode-end`.
    fn finish_word(&mut self) -> Result<bool, SourceFault>
        ensures { Steps (keyword_step 0 keyword.Finish self.old) self.new result }
    {
        if self.nesting.is_closed() {
            return Ok(false);
        }
        Err(SourceFault::Unclosed(self.nesting.first_open(0)))
    }

    /// A keyword that takes nothing from the text.
    fn lone_word(&mut self, word: Lone) -> Result<bool, SourceFault>
        ensures { Steps (lone_step word self.old) self.new result }
    {
        match word {
            Lone::One(code) => self.one_word(code),
            Lone::Two(first, second) => self.two_words(first, second),
            Lone::Headers(maker) => self.headers_word(maker),
            Lone::Radix(radix) => self.radix_word(radix),
            Lone::Semicolon => self.semicolon_word(),
            Lone::Recurse => self.recurse_word(),
            Lone::Offset16 => self.offset16_word(),
            Lone::If => self.if_word(),
            Lone::Else => self.else_word(),
            Lone::Then => self.then_word(),
            Lone::Begin => self.begin_word(),
            Lone::Back(tests) => self.back_word(tests),
            Lone::Repeat => self.repeat_word(),
            Lone::Do(skips) => self.do_word(skips),
            Lone::Loop(takes) => self.loop_word(takes),
            Lone::Leave => self.leave_word(),
            Lone::Case => self.case_word(),
            Lone::Of => self.of_word(),
            Lone::EndOf => self.endof_word(),
            Lone::EndCase => self.endcase_word(),
        }
    }

    /// A keyword.
    fn keyword_word(&mut self, keyword: Keyword, last: usize) -> Result<bool, SourceFault>
        ensures { Steps (keyword_step last keyword self.old) self.new result }
    {
        match keyword {
            Keyword::Finish => self.finish_word(),
            Keyword::Comment => self.comment_word(),
            Keyword::LineComment => self.line_comment_word(),
            Keyword::NumberIn(radix) => self.number_word(radix),
            Keyword::Character => self.character_word(last),
            Keyword::Text(Quote::Bytes) => self.bytes_word(),
            Keyword::Text(Quote::Plain) => self.plain_word(),
            Keyword::Text(Quote::Printed) => self.printed_word(),
            Keyword::Defining(Definer::Colon) => self.colon_word(last),
            Keyword::Defining(Definer::Other(code)) => self.defining_word(code, last),
            Keyword::Naming(code) => self.naming_word(code, last),
            Keyword::Lone(word) => self.lone_word(word),
        }
    }

    /// An ordinary word or a number.
    fn ordinary_word(&mut self, word: &[u8]) -> Result<bool, SourceFault>
        ensures { Steps (ordinary_step word.now self.old (ordinary_named word.now)) self.new result }
    {
        if let Some(code) = ordinary_named(word) {
            self.call(Name::Listed(code))?;
            return Ok(true);
        }
        match number_in(word, self.radix.base()) {
            Number::Value(x) => {
                self.number(x)?;
                Ok(true)
            }
            Number::OutOfRange => Err(SourceFault::BadNumber(self.at)),
            Number::NoNumber => self.unknown(),
        }
    }

    /// A word that is no own name.
    fn listed_word(&mut self, word: &[u8], last: usize) -> Result<bool, SourceFault>
        ensures { Steps (listed_step last word.now self.old (keyword_named word.now)) self.new result }
    {
        match keyword_named(word) {
            Some(keyword) => self.keyword_word(keyword, last),
            None => self.ordinary_word(word),
        }
    }

    /// A word; an own name goes before all others.
    #[tactic(auto, unfolding(crate::specs::Steps::word_step))]
    fn word(&mut self, word: &[u8], last: usize) -> Result<bool, SourceFault>
        ensures { Steps (word_step last word.now self.old) self.new result }
    {
        match self.own(word)? {
            Some(number) => {
                self.call(Name::Own(number))?;
                Ok(true)
            }
            None => self.listed_word(word, last),
        }
    }

    /// The next word of a text whose last byte is at this position; whether the source goes on behind it.
    pub fn next(&mut self, last: usize) -> Result<bool, SourceFault>
        ensures { Steps (next_step last self.old) self.new result }
    {
        let fault = self.ended(last);
        let Some(word) = self.rest.word() else {
            return Err(fault);
        };
        self.at = word.at;
        self.word(word.bytes, last)
    }
}

/// The item of a number: the cells -1 to 3 have FCodes of their own.
fn number_item(x: Cell) -> Plain
    ensures { plain_shown result ≡ number_token x }
{
    match x.0 {
        0xffff_ffff => Plain::Call(Name::Listed(FCode(0x0a4))),
        small @ 0..=3 => Plain::Call(Name::Listed(FCode(0x0a5 + small as u16))),
        _ => Plain::Literal(x),
    }
}
