//! Why a word of a source fits nowhere, in words.

use crate::excerpts::{Excerpt, excerpt_at, say_excerpt};
use crate::openers::{open_in, opens};
use of_source::{SourceFault, parse, place_in};
use std::alloc::Global;
use std::io::Write;
use thiserror::Error;

/// Why a word of a source fits nowhere.
#[derive(Clone, Copy, Debug, Error)]
enum Reason {
    /// The text begins with the mark EF BB BF.
    #[error("a byte order mark stands before the first word")]
    ByteOrderMark,
    /// The text begins as an image.
    #[error("this looks like an image: `ofw detok` lists it")]
    Image,
    /// The first word is another.
    #[error("a source begins with `fcode-version1` or `fcode-version2`")]
    NoVersion,
    /// A word stands behind the end.
    #[error("only comments may follow `fcode-end`")]
    BehindEnd,
    /// The text ends before.
    #[error("`fcode-end` is missing")]
    NoEnd,
    /// A closer has no opener, or an opener no closer, as this says.
    #[error("{0}")]
    Structure(&'static str),
    /// A string doesn't end on its line.
    #[error("the string's end isn't on its line")]
    OpenString,
    /// A comment doesn't end.
    #[error("the comment has no end")]
    OpenComment,
    /// A definition is begun within one.
    #[error("a definition stands outside of all others")]
    Nested,
    /// A call of the definition that is open, where none is.
    #[error("`recurse` stands in a definition")]
    Recursion,
    /// The offset size changes within a structure.
    #[error("`offset16` stands outside of definitions and structures")]
    Offset,
    /// No word has the name, and it is no number.
    #[error("no word that is known here has this name, and it is no number")]
    Unknown,
    /// A number has more digits, or others.
    #[error("a number has 32 bits, and digits of its base")]
    Number,
}

/// What is said of a word of a control structure that has no partner.
#[rattlefmt::skip]
static STRUCTURES: [(&str, &str); 19] = [
    ("then",    "`then` closes no `if`, `while` or `else` here"),
    ("else",    "`else` parts no `if` here, or is left open"),
    ("repeat",  "`repeat` closes no `begin` with a `while` here"),
    ("until",   "`until` closes no `begin` here"),
    ("again",   "`again` closes no `begin` here"),
    ("loop",    "`loop` closes no `do` here"),
    ("+loop",   "`+loop` closes no `do` here"),
    ("leave",   "`leave` stands in no `do` here"),
    ("of",      "`of` stands in no `case` here, or is left open"),
    ("endof",   "`endof` closes no `of` here, or is left open"),
    ("endcase", "`endcase` closes no `case` here"),
    (";",       "`;` closes no `:` here"),
    ("if",      "this `if` is left open"),
    ("while",   "this `while` is left open"),
    ("begin",   "this `begin` is left open"),
    ("do",      "this `do` is left open"),
    ("?do",     "this `?do` is left open"),
    ("case",    "this `case` is left open"),
    (":",       "this `:` is left open"),
];

/// The words that define others.
static DEFINERS: [&str; 8] = [
    ":", "value", "variable", "constant", "create", "defer", "buffer:", "field",
];

/// Whether a word is this name, whatever the case of its letters.
fn is_named(word: &[u8], name: &str) -> bool {
    word.eq_ignore_ascii_case(name.as_bytes())
}

/// What is said of a word of a control structure, if it is one.
fn structure_of(word: &[u8]) -> Option<&'static str> {
    for (name, said) in &STRUCTURES {
        if is_named(word, name) {
            return Some(said);
        }
    }
    None
}

/// Whether a word defines others.
fn is_definer(word: &[u8]) -> bool {
    for name in &DEFINERS {
        if is_named(word, name) {
            return true;
        }
    }
    false
}

/// Whether a text begins as an image does, or as its hexadecimal digits do.
fn is_image(text: &[u8]) -> bool {
    match text {
        [0xf0..=0xf3 | 0xfd, ..] => true,
        [
            b'f' | b'F',
            b'0'..=b'3' | b'd' | b'D',
            b'0',
            b'0' | b'8',
            ..
        ] => true,
        _ => false,
    }
}

/// Where a text is that may have comments alone.
#[derive(Clone, Copy)]
enum Remark {
    /// Between two comments.
    Between,
    /// Behind a `\\` that begins a word.
    Backslash,
    /// In a comment up to the end of its line.
    Line,
    /// Behind a `(` that begins a word.
    Parenthesis,
    /// In a comment up to `)`.
    Parenthesized,
}

/// Where a text of comments is behind a byte, if the byte may stand there.
fn behind_byte(remark: Remark, byte: u8) -> Option<Remark> {
    match remark {
        Remark::Between if byte.is_ascii_whitespace() => Some(Remark::Between),
        Remark::Between if byte == b'\\' => Some(Remark::Backslash),
        Remark::Between if byte == b'(' => Some(Remark::Parenthesis),
        Remark::Between => None,
        Remark::Backslash | Remark::Line if byte == b'\n' => Some(Remark::Between),
        Remark::Backslash if byte.is_ascii_whitespace() => Some(Remark::Line),
        Remark::Backslash => None,
        Remark::Line => Some(Remark::Line),
        Remark::Parenthesis if byte.is_ascii_whitespace() => Some(Remark::Parenthesized),
        Remark::Parenthesis => None,
        Remark::Parenthesized if byte == b')' => Some(Remark::Between),
        Remark::Parenthesized => Some(Remark::Parenthesized),
    }
}

/// Whether a text has nothing but comments.
fn has_remarks_alone(text: &[u8]) -> bool {
    let mut remark = Remark::Between;
    for byte in text {
        match behind_byte(remark, *byte) {
            Some(next) => remark = next,
            None => return false,
        }
    }
    true
}

/// Why the first word of a text, with comments alone before it, fits nowhere.
fn start_reason(text: &[u8]) -> Reason {
    match text {
        [0xef, 0xbb, 0xbf, ..] => Reason::ByteOrderMark,
        _ if is_image(text) => Reason::Image,
        _ => Reason::NoVersion,
    }
}

/// Why a word that isn't the first means nothing where it stands.
fn unknown_reason(alloc: Global, before: &[u8], word: &[u8]) -> Reason {
    if parse(alloc, before).is_ok() {
        return Reason::BehindEnd;
    }
    if is_named(word, "\"") || is_named(word, ".\"") || is_named(word, "s\"") {
        Reason::OpenString
    } else if is_named(word, "(") {
        Reason::OpenComment
    } else if is_named(word, "recurse") {
        Reason::Recursion
    } else if is_named(word, "offset16") {
        Reason::Offset
    } else if is_definer(word) {
        Reason::Nested
    } else {
        Reason::Unknown
    }
}

/// Why a text is no source, where the word at the position of the fault is this one, if that is more than the fault
/// says.
fn reason_of(
    alloc: Global,
    text: &[u8],
    fault: SourceFault,
    excerpt: Excerpt<'_>,
) -> Option<Reason> {
    match fault {
        SourceFault::Unclosed(_) => Some(match structure_of(excerpt.word) {
            Some(said) => Reason::Structure(said),
            None => Reason::NoEnd,
        }),
        SourceFault::Unknown(position) => {
            let before = text.get(..position).unwrap_or(text);
            Some(if has_remarks_alone(before) {
                start_reason(text)
            } else {
                unknown_reason(alloc, before, excerpt.word)
            })
        }
        SourceFault::BadNumber(position) => {
            let before = text.get(..position).unwrap_or(text);
            Some(if has_remarks_alone(before) {
                start_reason(text)
            } else {
                Reason::Number
            })
        }
        SourceFault::TooLong(_) | SourceFault::NoMemory => None,
    }
}

/// The position of the word that a fault is about, if it is about one.
fn position_of(fault: SourceFault) -> Option<usize> {
    match fault {
        SourceFault::Unclosed(position) => Some(position),
        SourceFault::Unknown(position) => Some(position),
        SourceFault::BadNumber(position) => Some(position),
        SourceFault::TooLong(position) => Some(position),
        SourceFault::NoMemory => None,
    }
}

/// Says which word before a position opens what is open there, where the word there closes something else.
fn say_open<E: Write>(alloc: Global, text: &[u8], fault: SourceFault, word: &[u8], errors: &mut E) {
    let SourceFault::Unclosed(position) = fault else {
        return;
    };
    if opens(word) {
        return;
    }
    let before = text.get(..position).unwrap_or(text);
    let Ok(Some(opener)) = open_in(alloc, before) else {
        return;
    };
    let line = place_in(text, opener.at).line;
    let name = std::str::from_utf8(opener.word).unwrap_or("");
    let _ = writeln!(errors, "ofw: `{name}` of line {line} is open here");
}

/// Says the line of the word that fits nowhere in a text, and what is wrong there.
pub(crate) fn say_wrong<E: Write>(alloc: Global, text: &[u8], fault: SourceFault, errors: &mut E) {
    let Some(position) = position_of(fault) else {
        return;
    };
    let excerpt = excerpt_at(text, position);
    say_excerpt(excerpt, errors);
    if let Some(reason) = reason_of(alloc, text, fault, excerpt) {
        let _ = writeln!(errors, "ofw: {reason}");
    }
    say_open(alloc, text, fault, excerpt.word, errors);
}
