ghost use Rattle.std.specs.Prelude.{◌≡◌, ◌+◌, ◌<◌, ◌≤◌, ◌^◌, length, Ok, IfOk, IfErr};
ghost use Rattle.of_scan.specs.Numbers.{number_in};
ghost use Rattle.of_source.specs.Radix.{base_of};
ghost use Rattle.of_source.specs.Places.{last_place};
ghost use Rattle.of_source.specs.Parsing.{beyond, beyond_shown, misplaced, misplaced_number, is_closer, words, trailed};
ghost use Rattle.of_source.specs.Parsing.{parsed, IsRefused};

use crate::fault::SourceFault;
use crate::item::Item;
use crate::keyword::{Keyword, Lone, Radix};
use crate::names::is_same_name;
use crate::parser::Parser;
use crate::words::keyword_named;
use of_scan::{Number, Rest, Word, number_in};
use of_stream::OffsetSize;
use std::alloc::Global;
use std::marker::Model;

/// A source: what its words are, and the offset size that its image begins with.
#[derive(Drop)]
pub struct Source {
    size: OffsetSize,
    items: Vec<Item>,
}

impl Model for Source {
    ghost use Rattle.std.specs.Prelude.{map};
    ghost use Rattle.of_source.specs.Items.{Source as Said, item_shown};
    ghost use Rattle.of_source.specs.Encodable.{IsSound};

    ghost Value = { Said };

    ghost view = { λ s. record { size = s.size; items = map item_shown s.items.items } };

    ghost invariant = { λ s. IsSound (map item_shown s.items.items) };
}

/// The parts of a source.
#[derive(Drop)]
struct Parts {
    size: OffsetSize,
    items: Vec<Item>,
}

impl Model for Parts {
    ghost use Rattle.std.specs.Prelude.{map};
    ghost use Rattle.of_source.specs.Items.{Source as Said, item_shown};

    ghost Value = { Said };

    ghost view = { λ s. record { size = s.size; items = map item_shown s.items.items } };
}

impl Source {
    ghost use Rattle.std.specs.Prelude.{map};
    ghost use Rattle.of_source.specs.Encodable.{IsSound};
    ghost use Rattle.of_source.specs.Items.{item_shown};

    /// The offset size that its image begins with.
    pub fn size(&self) -> OffsetSize
        ensures { result ≡ self.now.size }
    {
        self.size
    }

    /// Its items: they are those of a whole nest of words, and their tokens can be written.
    pub fn items(&self) -> &[Item]
        ensures items { map item_shown result.now ≡ self.now.items }
        ensures sound { IsSound self.now.items }
    {
        self.items.as_slice()
    }
}

/// What stands behind comments.
#[derive(Drop)]
pub enum Beyond<'a> {
    /// A word, and what follows it.
    Word(Word<'a>, Rest<'a>),
    /// The end.
    Nothing,
    /// A comment at this position whose end isn't on its line.
    Bad(usize),
}

/// The position of the last byte of a text.
pub(crate) fn last_place(text: &[u8]) -> usize
    ensures { result ≡ last_place text.now }
{
    if text.len() == 0 {
        return 0;
    }
    text.len() - 1
}

/// Past at most so many comments.
pub(crate) fn past_comments(mut rest: Rest<'_>, most: usize) -> Beyond<'_>
    ensures { beyond_shown result ≡ beyond most rest.entry }
{
    for _ in 0..most {
        let Some(word) = rest.word() else {
            return Beyond::Nothing;
        };
        if is_same_name(b"(", word.bytes) {
            if !rest.skip_comment() {
                return Beyond::Bad(word.at);
            }
            continue;
        }
        if is_same_name(b"\\", word.bytes) {
            rest.skip_line();
            continue;
        }
        return Beyond::Word(word, rest);
    }
    Beyond::Nothing
}

/// Whether a keyword closes something.
fn is_closer(keyword: Keyword) -> bool
    ensures { result ≡ is_closer keyword }
{
    matches!(
        keyword,
        Keyword::Lone(
            Lone::Semicolon
                | Lone::Else
                | Lone::Then
                | Lone::Back(_)
                | Lone::Repeat
                | Lone::Loop(_)
                | Lone::Leave
                | Lone::Of
                | Lone::EndOf
                | Lone::EndCase
        )
    )
}

/// What a number gives that stands where none can.
fn misplaced_number(at: usize, radix: Radix, word: &[u8]) -> SourceFault
    ensures { result ≡ misplaced_number at (number_in (base_of radix) word.now) }
{
    match number_in(word, radix.base()) {
        Number::OutOfRange => SourceFault::BadNumber(at),
        Number::Value(_) | Number::NoNumber => SourceFault::Unknown(at),
    }
}

/// What a word gives that stands where none of its kind can.
fn misplaced(at: usize, radix: Radix, word: &[u8]) -> SourceFault
    ensures { result ≡ misplaced at (base_of radix) word.now }
{
    if let Some(keyword) = keyword_named(word) {
        if is_closer(keyword) {
            return SourceFault::Unclosed(at);
        }
    }
    misplaced_number(at, radix, word)
}

/// The source of these items, where comments alone follow it.
fn trailed(size: OffsetSize, parser: Parser<'_>, most: usize) -> Result<Parts, SourceFault>
    ensures ok { IfOk result (λ s. trailed size parser.entry (beyond most parser.entry.rest) ≡ Ok s) }
    ensures err { IfErr result (λ f. trailed size parser.entry (beyond most parser.entry.rest) ≡ Err f) }
{
    let (rest, radix, items) = parser.into_parts();
    match past_comments(rest, most) {
        Beyond::Nothing => Ok(Parts { size, items }),
        Beyond::Bad(at) => Err(SourceFault::Unknown(at)),
        Beyond::Word(word, _) => Err(misplaced(word.at, radix, word.bytes)),
    }
}

/// The words of a source.
#[tactic(auto, using(crate::proofs::Whole::word_by_word))]
fn words(mut parser: Parser<'_>, text: &[u8], size: OffsetSize) -> Result<Parts, SourceFault>
    ensures ok { IfOk result (λ s. words text.now size (length text.now) parser.entry ≡ Ok s) }
    ensures err { IfErr result (λ f. IsRefused (words text.now size (length text.now) parser.entry) f) }
{
    let last = last_place(text);
    for _ in 0..text.len() {
        match parser.next(last) {
            Ok(true) => {}
            Ok(false) => return trailed(size, parser, text.len()),
            Err(fault) => return Err(fault),
        }
    }
    Err(parser.ended(last))
}

/// The parts of the source that a text says.
#[tactic(auto, unfolding(crate::specs::Parsing::parsed), using(crate::proofs::Whole::is_refused))]
fn parts_of(alloc: Global, text: &[u8]) -> Result<Parts, SourceFault>
    ensures ok { IfOk result (λ s. parsed text.now ≡ Ok s) }
    ensures err { IfErr result (λ f. IsRefused (parsed text.now) f) }
{
    match past_comments(Rest::new(text), text.len()) {
        Beyond::Nothing => Err(SourceFault::Unclosed(last_place(text))),
        Beyond::Bad(at) => Err(SourceFault::Unknown(at)),
        Beyond::Word(word, rest) => {
            if is_same_name(b"fcode-version2", word.bytes) {
                return words(Parser::new(alloc, rest), text, OffsetSize::Two);
            }
            if is_same_name(b"fcode-version1", word.bytes) {
                return words(Parser::new(alloc, rest), text, OffsetSize::One);
            }
            Err(misplaced(word.at, Radix::Hexadecimal, word.bytes))
        }
    }
}

/// The source that a text of FCode source words says (IEEE 1275-1994, 5.3 and annex C).
///
/// It begins with `fcode-version2`, or `fcode-version1` for offsets of 8 bits, and ends with `fcode-end`; before and
/// behind them stand comments alone. Words are separated by bytes up to 0x20 and found without case, a number in the
/// text's radix, hexadecimal at first.
///
/// The first word that fits nowhere gives the fault, with its position: BadNumber for digits that no cell holds, and
/// behind `h#` and `d#` for what is no number, with theirs; TooLong for a name over 31 bytes or a string over 255, with
/// that of the name or of the string's word; Unclosed for a closer, `of` or `leave` with nothing that it may close or
/// stand in there; else Unknown, as for a string or comment that doesn't end on its line. At the end Unclosed has the
/// position of the first opener left open, or of the last byte where `fcode-end` is missing. NoMemory may stand in
/// place of any.
pub fn parse(alloc: Global, text: &[u8]) -> Result<Source, SourceFault>
    ensures ok { IfOk result (λ s. parsed text.now ≡ Ok s) }
    ensures err { IfErr result (λ f. IsRefused (parsed text.now) f) }
{
    match parts_of(alloc, text) {
        Ok(Parts { size, items }) => Ok(Source { size, items }),
        Err(fault) => Err(fault),
    }
}
