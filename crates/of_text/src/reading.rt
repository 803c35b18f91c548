//! What stands next in a text.
ghost use Rattle.std.specs.Prelude.{◌≡◌};
ghost use Rattle.of_format.specs.Pictured.{base_in};
ghost use Rattle.of_text.specs.Reading.{behind_byte, compiling_read, name_behind, naming, parsing_read, part_behind};
ghost use Rattle.of_text.specs.Reading.{behind_quoted, part_from, past, text_read, word_read, written_read};

use crate::names::{Names, written};
use crate::numbers::{first_byte, number, number_here};
use crate::words::{Found, Part, TextWord};
use of_cells::Cell;
use of_compile::DefiningWord;
use of_fcodes::{CompilingWord, ParsingWord, Word};
use of_memory::Memory;
use of_scan::Rest;

/// A name in a text.
#[derive(Drop)]
struct Name<'a> {
    /// Its bytes.
    bytes: &'a [u8],
    /// Where it stands.
    part: Part,
}

/// Past the next word, which is a name; it is empty at the end of the text.
fn next_name<'a>(rest: &mut Rest<'a>) -> Name<'a>
    ensures bytes { result.bytes.now ≡ (name_behind rest.old).0 }
    ensures part { result.part ≡ part_behind rest.old }
    ensures left { rest.new ≡ (name_behind rest.old).1 }
{
    match rest.word() {
        Some(word) => Name {
            bytes: word.bytes,
            part: Part {
                begin: word.at,
                end: rest.at(),
            },
        },
        None => Name {
            bytes: &[],
            part: Part {
                begin: rest.at(),
                end: rest.at(),
            },
        },
    }
}

/// Past a defining word's name.
fn naming(word: DefiningWord, rest: &mut Rest) -> TextWord
    ensures { (result, rest.new) ≡ naming word rest.old }
{
    TextWord::Defining(word, next_name(rest).part)
}

/// Past the string behind a word, up to this byte or to the end of the text, and past the byte.
fn string(end: u8, rest: &mut Rest) -> Part
    ensures part { result ≡ part_from end (behind_byte rest.old) }
    ensures left { rest.new ≡ past end (behind_byte rest.old) }
{
    rest.skip_byte();
    let begin = rest.at();
    let bytes = rest.part(end);
    Part {
        begin,
        end: begin + bytes.len(),
    }
}

/// Past the string of the word `"`; the position at which it begins.
fn quoted(rest: &mut Rest) -> usize
    ensures begin { result ≡ (behind_byte rest.old).at }
    ensures left { rest.new ≡ behind_quoted (behind_byte rest.old) }
{
    rest.skip_byte();
    let begin = rest.at();
    rest.skip_quoted();
    begin
}

/// Past what a word parses.
#[tactic(auto, unfolding(crate::specs::Reading::parsing_read))]
fn parsing(word: ParsingWord, names: &Names, rest: &mut Rest) -> TextWord
    ensures { (result, rest.new) ≡ parsing_read word names.now rest.old }
{
    match word {
        ParsingWord::Colon => naming(DefiningWord::Colon, rest),
        ParsingWord::Constant => naming(DefiningWord::Constant, rest),
        ParsingWord::Value => naming(DefiningWord::Value, rest),
        ParsingWord::Variable => naming(DefiningWord::Variable, rest),
        ParsingWord::Create => naming(DefiningWord::Create, rest),
        ParsingWord::Defer => naming(DefiningWord::Defer, rest),
        ParsingWord::Buffer => naming(DefiningWord::Buffer, rest),
        ParsingWord::Field => naming(DefiningWord::Field, rest),
        ParsingWord::Tick => TextWord::Tick(names.known(next_name(rest).bytes)),
        ParsingWord::To => TextWord::To(names.known(next_name(rest).bytes)),
        ParsingWord::See => TextWord::See(names.known(next_name(rest).bytes)),
        ParsingWord::Device => TextWord::Device(next_name(rest).part),
        ParsingWord::SourceString => TextWord::Plain(string(b'"', rest)),
        ParsingWord::String => TextWord::Quoted(quoted(rest)),
        ParsingWord::PrintString => TextWord::Printed(string(b'"', rest)),
        ParsingWord::Hexadecimal => TextWord::Number(number(16, next_name(rest).bytes)),
        ParsingWord::DecimalNumber => TextWord::Number(number(10, next_name(rest).bytes)),
        ParsingWord::Char => TextWord::Char(first_byte(next_name(rest).bytes)),
        ParsingWord::Comment => {
            string(b')', rest);
            TextWord::Comment
        }
        ParsingWord::LineComment => {
            rest.part(b'\n');
            TextWord::Comment
        }
    }
}

/// Past what a word parses that serves while words are compiled.
#[tactic(auto, unfolding(crate::specs::Reading::compiling_read))]
fn compiling(word: CompilingWord, names: &Names, rest: &mut Rest) -> TextWord
    ensures { (result, rest.new) ≡ compiling_read word names.now rest.old }
{
    match word {
        CompilingWord::BracketTick => TextWord::BracketTick(names.known(next_name(rest).bytes)),
        CompilingWord::BracketChar => TextWord::BracketChar(first_byte(next_name(rest).bytes)),
        word => TextWord::Compiling(word),
    }
}

/// Past a written word and what it parses; where there is none, the name is a number.
fn written_word(
    word: Option<Word>,
    name: &[u8],
    names: &Names,
    memory: &Memory,
    rest: &mut Rest,
) -> TextWord
    ensures { (result, rest.new) ≡ written_read word names.now (base_in memory.now) (name.now, rest.old) }
{
    match word {
        None => TextWord::Number(number_here(memory, name)),
        Some(Word::Parsing(word)) => parsing(word, names, rest),
        Some(Word::Compiling(word)) => compiling(word, names, rest),
        Some(word) => TextWord::Found {
            xt: Cell(word.xt()),
            immediate: false,
        },
    }
}

/// Past the next word of what is left of a text, and all that it parses.
fn next_word(names: &Names, memory: &Memory, rest: &mut Rest) -> TextWord
    ensures { (result, rest.new) ≡ word_read names.now (base_in memory.now) rest.old }
{
    let Some(word) = rest.word() else {
        return TextWord::End;
    };
    match names.own(word.bytes) {
        Some(xt) => TextWord::Found {
            xt,
            immediate: names.is_immediate(xt),
        },
        None => written_word(written(word.bytes), word.bytes, names, memory, rest),
    }
}

/// What stands next in a text from a position on, with all that it parses; behind the end of the text stands its end,
/// too (Forth 2012, 3.4; IEEE 1275-1994, 2.3).
///
/// A word is looked up as an own word, then as a written one, and is else a number in the base of the data space.
pub fn read(names: &Names, memory: &Memory, text: &[u8], at: usize) -> Found
    ensures { result ≡ text_read names.now (base_in memory.now) text.now at }
{
    let mut rest = Rest::behind(text, at);
    let word = next_word(names, memory, &mut rest);
    Found {
        word,
        next: rest.at(),
    }
}
