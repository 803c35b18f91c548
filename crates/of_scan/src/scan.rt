ghost use Rattle.of_scan.specs.Scan.{is_blank, word_length, bytes_found, up_to, behind_blank, line_end, byte_of};
ghost use Rattle.of_scan.specs.Scan.{pairs, bytes_before, group, quoted_string};
ghost use Rattle.of_format.specs.Digits.{digit_value};
ghost use Rattle.std.specs.Prelude.{◌≡◌, ℕ, List, false, if◌then◌else◌, ◌+◌, ◌<◌, ◌≤◌, ◌^◌, [], length, take, drop};
ghost use Rattle.std.specs.Prelude.{take_while, not, option_map, Option, Some, None, IfSome, IfNone, IfOk, OnErr};

use of_format::digit;
use std::alloc::{AllocError, Global};
use std::marker::Model;

/// A word of a text, and its position.
#[derive(Clone, Copy)]
pub struct Word<'a> {
    /// Its bytes: one or more, and none of them a blank.
    pub bytes: &'a [u8],
    /// How many bytes of the text stand before it.
    pub at: usize,
}

/// What is left of a text, and its position: how many bytes of the text stand before it.
///
/// Blanks part words: a space and every byte below it, the ends of lines among them (Forth 2012, 3.4.1.1). A string
/// or a comment begins behind the one blank that ends the word before it, and ends on the line on which it begins; a
/// line ends at a byte 0x0A. A call that finds no end leaves everything as it was.
#[derive(Drop)]
pub struct Rest<'a> {
    pub(crate) text: &'a [u8],
    pub(crate) at: usize,
}

// Clauses see the position and the bytes.
impl<'a> Model for Rest<'a> {
    ghost use Rattle.std.specs.Prelude.{◌+◌, ◌<◌, ◌^◌, length};
    ghost use Rattle.of_scan.specs.Scan.{Rest as Left};

    ghost Value = { Left };

    ghost view = { λ r. record { at = r.at; text = r.text.now } };

    ghost invariant = { λ r. r.at + length r.text.now < 2 ^ 64 };
}

/// Whether a byte separates words.
#[inline]
pub(crate) fn is_blank(byte: u8) -> bool
    ensures { result ≡ is_blank byte }
{
    byte <= b' '
}

/// How many bytes the word has that a text begins with.
fn word_length(text: &[u8]) -> usize
    ensures { result ≡ word_length text.now }
{
    text.iter().take_while(|byte| !is_blank(**byte)).count()
}

impl<'a> Rest<'a> {
    ghost use Rattle.of_scan.specs.Scan.{rest_at, left_of, start_of, at_word, word_at, next_word, plain_string};
    ghost use Rattle.of_scan.specs.Scan.{quoted_string, line_end};

    /// A whole text: nothing of it is read, and its position is 0.
    pub fn new(text: &'a [u8]) -> Self
        ensures { result ≡ rest_at 0 text.now }
    {
        Rest { text, at: 0 }
    }

    /// Its position: how many bytes were read.
    pub fn at(&self) -> usize
        ensures { result ≡ self.now.at }
    {
        self.at
    }

    /// Past the bytes before these, which are the last that are left.
    pub(crate) fn leave(&mut self, text: &'a [u8])
        requires { length text.now ≤ length self.old.text }
        ensures { self.new ≡ left_of self.old text.now }
    {
        self.at += self.text.len() - text.len();
        self.text = text;
    }

    /// Goes to the next byte that is no blank.
    fn skip_blanks(&mut self)
        ensures { self.new ≡ at_word self.old.at self.old.text }
    {
        while let [byte, text @ ..] = self.text {
            if !is_blank(*byte) {
                return;
            }
            self.at += 1;
            self.text = text;
        }
    }

    /// Past the blanks and the word behind them, which it gives, with the position of its first byte.
    ///
    /// The word goes on up to a blank or up to the end of the text; that blank is left. None where blanks alone are
    /// left, and nothing is left then.
    pub fn word(&mut self) -> Option<Word<'a>>
        ensures some { IfSome result (λ word. next_word self.old ≡ Some (word.bytes.now, self.new)) }
        ensures at { IfSome result (λ word. word.at ≡ start_of self.old) }
        ensures none { IfNone result (next_word self.old ≡ None) }
        ensures end { IfNone result (self.new ≡ rest_at (self.old.at + length self.old.text) []) }
        ensures byte { IfSome result (λ word. 0 < length word.bytes.now) }
    {
        self.skip_blanks();
        let length = word_length(self.text);
        if length == 0 {
            return None;
        }
        let (bytes, text) = self.text.split_at(length);
        let at = self.at;
        self.at += length;
        self.text = text;
        Some(Word { bytes, at })
    }

    /// Past the string up to this byte, and past the byte; the string is what stands between the blank and the byte.
    ///
    /// None where the byte isn't on the line, as where a line ends in the place of the blank; nothing has changed
    /// then. Up to 0x0A the string is the rest of the line.
    pub fn string(&mut self, end: u8) -> Option<&'a [u8]>
        ensures some { IfSome result (λ bytes. plain_string end self.old.text ≡ Some (bytes.now, self.new.text)) }
        ensures left { IfSome result (λ _. self.new ≡ left_of self.old self.new.text) }
        ensures none { IfNone result ((plain_string end self.old.text ≡ None) × (self.new ≡ self.old)) }
    {
        let (bytes, rest) = up_to(behind_blank(self.text), end)?;
        self.leave(rest);
        Some(bytes)
    }

    /// Past a comment up to `)`, and past that.
    ///
    /// False where no `)` is on the line, and nothing has changed then.
    pub fn skip_comment(&mut self) -> bool
        ensures past { option_map (λ r. left_of self.old r.1) (plain_string 41 self.old.text)
            ≡ (if result then Some self.new else None) }
        ensures same { result ≡ false → self.new ≡ self.old }
    {
        match up_to(behind_blank(self.text), b')') {
            Some((_, rest)) => {
                self.leave(rest);
                true
            }
            None => false,
        }
    }

    /// Up to the end of the line, which is left, or to the end of the text, where no line ends.
    pub fn skip_line(&mut self)
        ensures { self.new ≡ left_of self.old (line_end self.old.text) }
    {
        self.leave(line_end(self.text));
    }

    /// Past the string of a word `"`, and past the `"` that ends it; the string is the bytes behind the blank.
    ///
    /// A `"` with `(` directly behind it doesn't end the string: what follows up to `)` is pairs of hexadecimal
    /// digits, with blanks between pairs or none, and gives a byte for each pair (IEEE 1275-1994, 7.3.1). Where that is
    /// anything else, or has no `)` on the line, the string ends at that `"`, and the `(` is left.
    ///
    /// None where there is no end on the line. An error is for memory. Nothing has changed in either case.
    pub fn quoted_string(&mut self, alloc: Global) -> Result<Option<Vec<u8>>, AllocError>
        ensures found { IfOk result (λ r. option_map (λ bytes. (bytes.items, self.new.text)) r
            ≡ quoted_string self.old.text) }
        ensures left { IfOk result (λ r. IfSome r (λ _. self.new ≡ left_of self.old self.new.text)) }
        ensures none { IfOk result (λ r. IfNone r (self.new ≡ self.old)) }
        ensures memory { OnErr result (self.new ≡ self.old) }
    {
        match quoted(alloc, self.text)? {
            Some((bytes, rest)) => {
                self.leave(rest);
                Ok(Some(bytes))
            }
            None => Ok(None),
        }
    }
}

/// The bytes up to this one, and what follows it; none where it isn't on the line.
fn up_to(text: &[u8], end: u8) -> Option<(&[u8], &[u8])>
    ensures found { option_map bytes_found result ≡ up_to end text.now }
    ensures shorter { IfSome result (λ r. length r.1.now < length text.now) }
{
    for (i, byte) in text.iter().enumerate() {
        if *byte == end {
            return Some((&text[..i], &text[i + 1..]));
        }
        if *byte == b'\n' {
            return None;
        }
    }
    None
}

/// Behind the byte that separates a word from its string.
fn behind_blank(text: &[u8]) -> &[u8]
    ensures rest { result.now ≡ behind_blank text.now }
    ensures shorter { length result.now ≤ length text.now }
{
    match text {
        [] | [b'\n', ..] => text,
        [_, rest @ ..] => rest,
    }
}

/// From the end of the line on.
fn line_end(mut text: &[u8]) -> &[u8]
    ensures rest { result.now ≡ line_end text.entry.now }
    ensures shorter { length result.now ≤ length text.entry.now }
{
    while let [byte, rest @ ..] = text {
        if *byte == b'\n' {
            return text;
        }
        text = rest;
    }
    text
}

/// The byte that two digits say.
pub(crate) fn byte_of(high: u8, low: u8) -> Option<u8>
    ensures { result ≡ byte_of (digit_value 16 high) (digit_value 16 low) }
{
    let high = digit(u32::from(high), 16)?;
    let low = digit(u32::from(low), 16)?;
    Some((high * 16 + low) as u8)
}

/// Appends the bytes that pairs of digits say up to `)`, and gives what follows.
fn read_pairs<'a>(out: &mut Vec<u8>, mut text: &'a [u8]) -> Result<Option<&'a [u8]>, AllocError>
    ensures found { IfOk result (λ r. option_map (λ rest. (out.new.items, rest.now)) r
        ≡ bytes_before out.old.items (pairs text.entry.now)) }
    ensures shorter { IfOk result (λ r. IfSome r (λ rest. length rest.now < length text.entry.now)) }
{
    while let [a, b, rest @ ..] = text {
        if *a == b')' {
            return Ok(Some(&text[1..]));
        }
        if *a == b'\n' {
            return Ok(None);
        }
        if is_blank(*a) {
            text = &text[1..];
            continue;
        }
        let Some(byte) = byte_of(*a, *b) else {
            return Ok(None);
        };
        out.push(byte)?;
        text = rest;
    }
    match text {
        [b')'] => Ok(Some(&text[1..])),
        _ => Ok(None),
    }
}

/// The bytes of a group, and what follows it.
fn group<'a>(alloc: Global, text: &'a [u8]) -> Result<Option<(Vec<u8>, &'a [u8])>, AllocError>
    ensures found { IfOk result (λ r. option_map (λ g. (g.0.items, g.1.now)) r ≡ group text.now) }
    ensures shorter { IfOk result (λ r. IfSome r (λ g. length g.1.now < length text.now)) }
{
    match text {
        [b'(', text @ ..] => {
            let mut out = Vec::new(alloc);
            match read_pairs(&mut out, text)? {
                Some(rest) => Ok(Some((out, rest))),
                None => Ok(None),
            }
        }
        _ => Ok(None),
    }
}

/// The string of a word `"`, and what follows it.
#[tactic(auto, using(crate::proofs::Scanning::pieces))]
fn quoted<'a>(alloc: Global, text: &'a [u8]) -> Result<Option<(Vec<u8>, &'a [u8])>, AllocError>
    ensures found { IfOk result (λ r. option_map (λ g. (g.0.items, g.1.now)) r ≡ quoted_string text.now) }
    ensures shorter { IfOk result (λ r. IfSome r (λ g. length g.1.now ≤ length text.now)) }
{
    let mut out = Vec::new(alloc);
    let mut rest = behind_blank(text);
    for _ in 0..text.len() {
        let Some((bytes, behind)) = up_to(rest, b'"') else {
            return Ok(None);
        };
        out.extend_from_slice(bytes)?;
        match group(alloc, behind)? {
            Some((more, after)) => {
                out.extend_from_slice(&more)?;
                rest = after;
            }
            None => return Ok(Some((out, behind))),
        }
    }
    Ok(None)
}
