//! The line of a text in which something is wrong, with the word marked that it begins at.

use crate::output::write_whole;
use arrayvec::ArrayVec;
use std::io::Write;

/// How many bytes of a line are shown at most before a word, of the word, and behind it.
const MOST_SHOWN: usize = 40;

/// A word of a text, with the line that it stands in.
#[derive(Clone, Copy)]
pub(crate) struct Excerpt<'a> {
    /// What stands before it in its line.
    before: &'a [u8],
    /// The word, up to white space.
    pub(crate) word: &'a [u8],
    /// What stands behind it in its line.
    behind: &'a [u8],
}

/// A line that is said.
type Line = ArrayVec<u8, 160>;

/// What stands behind the last newline of a text.
fn last_line(text: &[u8]) -> &[u8] {
    let mut behind = 0usize;
    for (at, byte) in text.iter().enumerate() {
        if *byte == b'\n' {
            behind = at.saturating_add(1);
        }
    }
    text.get(behind..).unwrap_or(&[])
}

/// A text from its first white space on.
fn from_white(text: &[u8]) -> &[u8] {
    for (at, byte) in text.iter().enumerate() {
        if byte.is_ascii_whitespace() {
            return text.get(at..).unwrap_or(&[]);
        }
    }
    &[]
}

/// A text from its first newline on.
fn from_newline(text: &[u8]) -> &[u8] {
    for (at, byte) in text.iter().enumerate() {
        if *byte == b'\n' {
            return text.get(at..).unwrap_or(&[]);
        }
    }
    &[]
}

/// A text without what stands at its end.
fn without<'a>(text: &'a [u8], end: &[u8]) -> &'a [u8] {
    text.get(..text.len().saturating_sub(end.len()))
        .unwrap_or(&[])
}

/// The word of a text that begins at a position.
pub(crate) fn excerpt_at(text: &[u8], position: usize) -> Excerpt<'_> {
    let head = text.get(..position).unwrap_or(text);
    let tail = text.get(position..).unwrap_or(&[]);
    let rest = from_white(tail);
    Excerpt {
        before: last_line(head),
        word: without(tail, rest),
        behind: without(rest, from_newline(rest)),
    }
}

/// Puts bytes behind a line, or the first of them, with a blank in place of each that doesn't print.
fn push_shown(line: &mut Line, bytes: &[u8]) {
    for byte in bytes.get(..MOST_SHOWN).unwrap_or(bytes) {
        let shown = if byte.is_ascii_graphic() { *byte } else { b' ' };
        let _ = line.try_push(shown);
    }
}

/// Puts a byte behind a line in place of each of these.
fn push_marks(line: &mut Line, mark: u8, bytes: &[u8]) {
    for _ in bytes.get(..MOST_SHOWN).unwrap_or(bytes) {
        let _ = line.try_push(mark);
    }
}

/// Says the line of a word, and marks the word below.
pub(crate) fn say_excerpt<E: Write>(excerpt: Excerpt<'_>, errors: &mut E) {
    let before = excerpt.before;
    let before = before
        .get(before.len().saturating_sub(MOST_SHOWN)..)
        .unwrap_or(before);
    let mut line = Line::new();
    push_shown(&mut line, b"ofw:   ");
    push_shown(&mut line, before);
    push_shown(&mut line, excerpt.word);
    push_shown(&mut line, excerpt.behind);
    let _ = line.try_push(b'\n');
    let _ = write_whole(errors, &line);
    let mut marks = Line::new();
    push_shown(&mut marks, b"ofw:   ");
    push_marks(&mut marks, b' ', before);
    push_marks(&mut marks, b'^', excerpt.word);
    if excerpt.word.is_empty() {
        let _ = marks.try_push(b'^');
    }
    let _ = marks.try_push(b'\n');
    let _ = write_whole(errors, &marks);
}
