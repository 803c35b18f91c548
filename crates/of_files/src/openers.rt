//! Which word of a source opens what is open where another word stands.

use std::alloc::{AllocError, Global};

/// The words that open something, each closed by another.
static OPENERS: [&str; 7] = ["if", "begin", "do", "?do", "case", "of", ":"];

/// The words that close what was opened last.
static CLOSERS: [&str; 9] = [
    "then", "until", "again", "repeat", "loop", "+loop", "endof", "endcase", ";",
];

/// The words behind which a word stands that is read with them.
#[rattlefmt::skip]
static TAKERS: [&str; 18] = [
    ":", "value", "variable", "constant", "create", "defer", "buffer:", "field", "'", "[']", "to", "char", "[char]",
    "ascii", "control", "h#", "d#", "o#",
];

/// Whether a word is one of these, whatever the case of its letters.
fn is_among(word: &[u8], names: &[&str]) -> bool {
    names
        .iter()
        .any(|name| word.eq_ignore_ascii_case(name.as_bytes()))
}

/// Whether a word opens something.
pub(crate) fn opens(word: &[u8]) -> bool {
    is_among(word, &OPENERS) || is_among(word, &["while"])
}

/// A text behind its first byte of this number, or at its end.
fn behind_byte(text: &[u8], byte: u8) -> &[u8] {
    for (at, other) in text.iter().enumerate() {
        if *other == byte {
            return text.get(at.saturating_add(1)..).unwrap_or(&[]);
        }
    }
    &[]
}

/// The word that a text begins with behind white space, and what follows it.
fn first_word(text: &[u8]) -> (&[u8], &[u8]) {
    let rest = text.trim_ascii_start();
    for (at, byte) in rest.iter().enumerate() {
        if byte.is_ascii_whitespace() {
            return rest.split_at_checked(at).unwrap_or((rest, &[]));
        }
    }
    (rest, &[])
}

/// What follows a string, of which the quotation mark before a parenthesis is no end.
fn behind_string(text: &[u8]) -> &[u8] {
    let mut rest = text;
    for _ in 0..text.len() {
        rest = behind_byte(rest, b'"');
        if rest.first() != Some(&b'(') {
            return rest;
        }
        rest = behind_byte(rest, b')');
    }
    rest
}

/// What follows a word and all that is read with it.
fn behind_word<'a>(word: &[u8], rest: &'a [u8]) -> &'a [u8] {
    match word {
        b"\\" => behind_byte(rest, b'\n'),
        b"(" | b".(" => behind_byte(rest, b')'),
        b"\"" | b".\"" => behind_string(rest),
        _ if is_among(word, &["s\""]) => behind_string(rest),
        _ if is_among(word, &TAKERS) => first_word(rest).1,
        _ => rest,
    }
}

/// An opener that is closed by nothing, with its position.
#[derive(Clone, Copy)]
pub(crate) struct Opener<'a> {
    pub(crate) word: &'a [u8],
    pub(crate) at: usize,
}

/// The latest opener in a text that nothing closes there, if there is one.
pub(crate) fn open_in(alloc: Global, text: &[u8]) -> Result<Option<Opener<'_>>, AllocError> {
    let mut open = Vec::new(alloc);
    let mut rest = text;
    for _ in 0..text.len() {
        let (word, behind) = first_word(rest);
        if word.is_empty() {
            break;
        }
        if is_among(word, &OPENERS) {
            let at = text.len().saturating_sub(behind.len());
            let at = at.saturating_sub(word.len());
            open.push(Opener { word, at })?;
        } else if is_among(word, &CLOSERS) {
            let _ = open.pop();
        }
        rest = behind_word(word, behind);
    }
    Ok(open.last().copied())
}
