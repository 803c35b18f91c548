//! Strings that no line ends, as those of a console line and of an evaluated text.
ghost use Rattle.std.specs.Prelude.{◌≡◌, ◌+◌, ◌≤◌, ◌<◌, ◌^◌, ◌++◌, length, drop, is_some, option_map, IfSome, IfNone};
ghost use Rattle.of_scan.specs.Parts.{closed_pairs, count_before, group_in, paired, part_to, quoted_part};
ghost use Rattle.of_scan.specs.Scan.{left_of, rest_at};

use crate::scan::{Rest, byte_of, is_blank};
use arrayvec::ArrayVec;

/// Bytes of a string that may be used: no more than 255.
pub type StringBytes = ArrayVec<u8, 255>;

/// How many bytes stand before the first of these.
fn count_before(text: &[u8], end: u8) -> usize
    ensures value { result ≡ count_before end text.now }
    ensures fits { result ≤ length text.now }
{
    text.iter().take_while(|byte| **byte != end).count()
}

/// Whether a text is pairs of hexadecimal digits, with blanks between pairs or none.
fn are_pairs(mut text: &[u8]) -> bool
    ensures { result ≡ is_some (paired text.entry.now) }
{
    loop {
        match text {
            [] => return true,
            [byte] => return is_blank(*byte),
            [high, low, rest @ ..] => {
                if is_blank(*high) {
                    text = &text[1..];
                } else if byte_of(*high, *low).is_some() {
                    text = rest;
                } else {
                    return false;
                }
            }
        }
    }
}

/// What follows `)`, where pairs of digits stand before it.
fn behind_pairs(text: &[u8]) -> Option<&[u8]>
    ensures rest { option_map (λ rest. rest.now) result ≡ option_map (λ g. g.1) (closed_pairs text.now) }
    ensures shorter { IfSome result (λ rest. length rest.now ≤ length text.now) }
{
    let count = count_before(text, b')');
    if count >= text.len() {
        return None;
    }
    if !are_pairs(&text[..count]) {
        return None;
    }
    Some(&text[count + 1..])
}

/// What follows a group of digits: `(`, pairs of digits and `)`.
fn behind_group(text: &[u8]) -> Option<&[u8]>
    ensures rest { option_map (λ rest. rest.now) result ≡ option_map (λ g. g.1) (group_in text.now) }
    ensures shorter { IfSome result (λ rest. length rest.now ≤ length text.now) }
{
    match text {
        [b'(', digits @ ..] => behind_pairs(digits),
        _ => None,
    }
}

/// Behind the first byte.
fn behind_byte(text: &[u8]) -> &[u8]
    ensures rest { result.now ≡ drop 1 text.now }
    ensures shorter { length result.now ≤ length text.now }
{
    match text {
        [] => text,
        [_, rest @ ..] => rest,
    }
}

/// The bytes up to the first of these, and what follows it; all that is left where there is none.
#[tactic(auto, using(crate::proofs::PartLemmas::drop_one))]
fn part_to(text: &[u8], end: u8) -> (&[u8], &[u8])
    ensures parts { (result.0.now, result.1.now) ≡ part_to end text.now }
    ensures fits { length result.0.now + length result.1.now ≤ length text.now }
{
    let (bytes, rest) = text.split_at(count_before(text, end));
    (bytes, behind_byte(rest))
}

/// Appends the bytes that pairs of digits say, with blanks between pairs or none; None where there is no room for them.
fn append_pairs(out: &mut StringBytes, mut digits: &[u8]) -> Option<()>
    ensures bytes { IfSome result (λ _. IfSome (paired digits.entry.now)
        (λ bytes. out.new.items ≡ out.old.items ++ bytes)) }
    ensures long { IfNone result (IfSome (paired digits.entry.now)
        (λ bytes. 255 < length out.old.items + length bytes)) }
{
    while let [high, low, rest @ ..] = digits {
        if is_blank(*high) {
            digits = &digits[1..];
            continue;
        }
        let Some(byte) = byte_of(*high, *low) else {
            return Some(());
        };
        out.try_push(byte).ok()?;
        digits = rest;
    }
    Some(())
}

/// Appends the bytes of the group that a text begins with; None where there is no room for them.
fn append_group(out: &mut StringBytes, text: &[u8]) -> Option<()>
    ensures bytes { IfSome result (λ _. IfSome (group_in text.now) (λ g. out.new.items ≡ out.old.items ++ g.0)) }
    ensures long { IfNone result (IfSome (group_in text.now) (λ g. 255 < length out.old.items + length g.0)) }
{
    let (digits, _) = part_to(behind_byte(text), b')');
    append_pairs(out, digits)
}

/// The bytes of the string of a word `"`; None where it has more than 255.
fn bytes_of_quoted(text: &[u8]) -> Option<StringBytes>
    ensures bytes { IfSome result (λ bytes. bytes.items ≡ (quoted_part text.now).0) }
    ensures long { IfNone result (255 < length (quoted_part text.now).0) }
{
    let mut out = ArrayVec::new();
    let mut rest = text;
    for _ in 0..text.len() {
        let (bytes, behind) = part_to(rest, b'"');
        out.try_extend_from_slice(bytes).ok()?;
        match behind_group(behind) {
            Some(next) => {
                append_group(&mut out, behind)?;
                rest = next;
            }
            None => return Some(out),
        }
    }
    Some(out)
}

/// What follows the string of a word `"`.
fn behind_quoted(text: &[u8]) -> &[u8]
    ensures rest { result.now ≡ (quoted_part text.now).1 }
    ensures shorter { length result.now ≤ length text.now }
{
    let mut rest = text;
    for _ in 0..text.len() {
        let (_, behind) = part_to(rest, b'"');
        match behind_group(behind) {
            Some(next) => rest = next,
            None => return behind,
        }
    }
    rest
}

impl<'a> Rest<'a> {
    /// What is left of a text behind a position: nothing behind its end.
    pub fn behind(text: &'a [u8], at: usize) -> Self
        ensures { result ≡ rest_at at (drop at text.now) }
    {
        let text = if at < text.len() { &text[at..] } else { &[] };
        Rest { text, at }
    }

    /// Past one byte, the blank that ends a word, if one is left.
    pub fn skip_byte(&mut self)
        ensures { self.new ≡ left_of self.old (drop 1 self.old.text) }
    {
        self.leave(behind_byte(self.text));
    }

    /// Past the bytes up to this one, which it gives, and past that; past all that is left, where it doesn't come
    /// (Forth 2012, 6.2.2008).
    pub fn part(&mut self, end: u8) -> &'a [u8]
        ensures bytes { result.now ≡ (part_to end self.old.text).0 }
        ensures left { self.new ≡ left_of self.old (part_to end self.old.text).1 }
        ensures fits { self.old.at + length result.now < 2 ^ 64 }
    {
        let (bytes, rest) = part_to(self.text, end);
        self.leave(rest);
        bytes
    }

    /// Past the string of a word `"`, of which its first byte is the next, and past the `"` that ends it.
    ///
    /// A `"` with `(` directly behind it doesn't end the string: what follows up to `)` is pairs of hexadecimal
    /// digits, with blanks between pairs or none (IEEE 1275-1994, 7.3.1). Where that is anything else, or has no `)`,
    /// the string ends at that `"`, and the `(` is left. A string without its end takes all that is left.
    pub fn skip_quoted(&mut self)
        ensures { self.new ≡ left_of self.old (quoted_part self.old.text).1 }
    {
        self.leave(behind_quoted(self.text));
    }

    /// The bytes of the string of a word `"` that `skip_quoted` goes past, with a byte for each pair of digits of its
    /// groups; None where these are more than 255. Nothing is passed, and no memory is taken.
    pub fn quoted_bytes(&self) -> Option<StringBytes>
        ensures bytes { IfSome result (λ bytes. bytes.items ≡ (quoted_part self.now.text).0) }
        ensures long { IfNone result (255 < length (quoted_part self.now.text).0) }
    {
        bytes_of_quoted(self.text)
    }
}
