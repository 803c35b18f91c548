ghost use Rattle.std.specs.Prelude.{◌≡◌, ◌++◌, map, Some, None};
ghost use Rattle.std.specs.Option.{option_map};
ghost use Rattle.of_source.specs.Keywords.{text_rows, control_rows, row_shown, keyword_in, keyword_named, is_ordinary};
ghost use Rattle.of_source.specs.Keywords.{ordinary_named};

use crate::keyword::{Definer, Keyword, Lone, Maker, Quote, Radix};
use crate::names::is_same_name;
use of_fcodes::{FCode, Word, fcode_of, word_of};

/// A word of a source, and what it does.
type Row = (&'static str, Keyword);

/// Words of texts, names and numbers.
#[rattlefmt::skip]
static TEXT_ROWS: [Row; 29] = [
    ("fcode-end",  Keyword::Finish),
    ("(",          Keyword::Comment),
    ("\\",         Keyword::LineComment),
    ("headers",    Keyword::Lone(Lone::Headers(Maker::Named))),
    ("external",   Keyword::Lone(Lone::Headers(Maker::External))),
    ("headerless", Keyword::Lone(Lone::Headers(Maker::Unnamed))),
    ("hex",        Keyword::Lone(Lone::Radix(Radix::Hexadecimal))),
    ("decimal",    Keyword::Lone(Lone::Radix(Radix::Decimal))),
    ("h#",         Keyword::NumberIn(Radix::Hexadecimal)),
    ("d#",         Keyword::NumberIn(Radix::Decimal)),
    ("char",       Keyword::Character),
    ("[char]",     Keyword::Character),
    ("\"",         Keyword::Text(Quote::Bytes)),
    ("s\"",        Keyword::Text(Quote::Plain)),
    (".\"",        Keyword::Text(Quote::Printed)),
    (":",          Keyword::Defining(Definer::Colon)),
    (";",          Keyword::Lone(Lone::Semicolon)),
    ("value",      Keyword::Defining(Definer::Other(FCode(0x0b8)))),
    ("variable",   Keyword::Defining(Definer::Other(FCode(0x0b9)))),
    ("constant",   Keyword::Defining(Definer::Other(FCode(0x0ba)))),
    ("create",     Keyword::Defining(Definer::Other(FCode(0x0bb)))),
    ("defer",      Keyword::Defining(Definer::Other(FCode(0x0bc)))),
    ("buffer:",    Keyword::Defining(Definer::Other(FCode(0x0bd)))),
    ("field",      Keyword::Defining(Definer::Other(FCode(0x0be)))),
    ("recurse",    Keyword::Lone(Lone::Recurse)),
    ("'",          Keyword::Naming(FCode(0x011))),
    ("[']",        Keyword::Naming(FCode(0x011))),
    ("to",         Keyword::Naming(FCode(0x0c3))),
    ("offset16",   Keyword::Lone(Lone::Offset16)),
];

/// Words that stand for tokens, and control structures.
#[rattlefmt::skip]
static CONTROL_ROWS: [Row; 29] = [
    ("1+",      Keyword::Lone(Lone::Two(FCode(0x0a6), FCode(0x01e)))),
    ("1-",      Keyword::Lone(Lone::Two(FCode(0x0a6), FCode(0x01f)))),
    ("2+",      Keyword::Lone(Lone::Two(FCode(0x0a7), FCode(0x01e)))),
    ("2-",      Keyword::Lone(Lone::Two(FCode(0x0a7), FCode(0x01f)))),
    ("true",    Keyword::Lone(Lone::One(FCode(0x0a4)))),
    ("false",   Keyword::Lone(Lone::One(FCode(0x0a5)))),
    ("struct",  Keyword::Lone(Lone::One(FCode(0x0a5)))),
    ("space",   Keyword::Lone(Lone::Two(FCode(0x0a9), FCode(0x08f)))),
    ("erase",   Keyword::Lone(Lone::Two(FCode(0x0a5), FCode(0x079)))),
    ("<<",      Keyword::Lone(Lone::One(FCode(0x027)))),
    (">>",      Keyword::Lone(Lone::One(FCode(0x028)))),
    ("not",     Keyword::Lone(Lone::One(FCode(0x026)))),
    ("if",      Keyword::Lone(Lone::If)),
    ("while",   Keyword::Lone(Lone::If)),
    ("else",    Keyword::Lone(Lone::Else)),
    ("then",    Keyword::Lone(Lone::Then)),
    ("begin",   Keyword::Lone(Lone::Begin)),
    ("until",   Keyword::Lone(Lone::Back(true))),
    ("again",   Keyword::Lone(Lone::Back(false))),
    ("repeat",  Keyword::Lone(Lone::Repeat)),
    ("?do",     Keyword::Lone(Lone::Do(true))),
    ("do",      Keyword::Lone(Lone::Do(false))),
    ("+loop",   Keyword::Lone(Lone::Loop(true))),
    ("loop",    Keyword::Lone(Lone::Loop(false))),
    ("leave",   Keyword::Lone(Lone::Leave)),
    ("case",    Keyword::Lone(Lone::Case)),
    ("of",      Keyword::Lone(Lone::Of)),
    ("endof",   Keyword::Lone(Lone::EndOf)),
    ("endcase", Keyword::Lone(Lone::EndCase)),
];

/// The first rows.
fn text_words() -> &'static [Row]
    ensures { map row_shown result.now ≡ text_rows }
{
    &TEXT_ROWS
}

/// The other rows.
fn control_words() -> &'static [Row]
    ensures { map row_shown result.now ≡ control_rows }
{
    &CONTROL_ROWS
}

/// The keyword of a name among these rows, whatever the case of its letters.
fn keyword_in(mut rows: &[Row], name: &[u8]) -> Option<Keyword>
    ensures { result ≡ keyword_in (map row_shown rows.entry.now) name.now }
{
    while let [row, rest @ ..] = rows {
        if is_same_name(row.0.as_bytes(), name) {
            return Some(row.1);
        }
        rows = rest;
    }
    None
}

/// The keyword of a name among the first rows.
fn text_keyword(name: &[u8]) -> Option<Keyword>
    ensures { result ≡ keyword_in text_rows name.now }
{
    keyword_in(text_words(), name)
}

/// The keyword of a name among the other rows.
fn control_keyword(name: &[u8]) -> Option<Keyword>
    ensures { result ≡ keyword_in control_rows name.now }
{
    keyword_in(control_words(), name)
}

/// The keyword of a name, whatever the case of its letters.
#[tactic(auto, unfolding(crate::specs::Keywords::keyword_named))]
pub fn keyword_named(name: &[u8]) -> Option<Keyword>
    ensures { result ≡ keyword_named name.now }
{
    match text_keyword(name) {
        Some(keyword) => Some(keyword),
        None => control_keyword(name),
    }
}

/// Whether a word is none that acts on the image.
fn is_ordinary(word: Option<Word>) -> bool
    ensures { result ≡ is_ordinary word }
{
    match word {
        None | Some(Word::Stream(_)) => false,
        Some(_) => true,
    }
}

/// The FCode of an ordinary word, whatever the case of its letters.
#[tactic(auto, unfolding(crate::specs::Keywords::ordinary_named))]
pub fn ordinary_named(name: &[u8]) -> Option<FCode>
    ensures { result ≡ ordinary_named name.now }
{
    let code = fcode_of(name)?;
    if is_ordinary(word_of(code)) {
        Some(code)
    } else {
        None
    }
}
