ghost use Rattle.std.specs.Prelude.{◌≡◌, ◌≤◌, Ok, Err, IfErr, IfOk, false, length, nat_eq, true};
ghost use Rattle.std.specs.List.{list_any};
ghost use Rattle.std.specs.Str.{bytes_eq};
ghost use Rattle.of_calls.specs.Lines.{behind_word, blanks, decimal_of, from_word, is_blank, number_of, rest_behind};
ghost use Rattle.of_calls.specs.Lines.{word_in, word_length};

use crate::fault::TextFault;
use of_cells::Cell;
use of_format::read_number;
use of_source::Place;

/// A line of a text.
#[derive(Clone, Copy)]
pub struct Line<'a> {
    /// Its number, from 1.
    pub number: usize,
    /// Its bytes, without the newline.
    pub text: &'a [u8],
}

/// Whether a byte separates words: those up to a space do, but for carriage returns.
fn is_blank(byte: u8) -> bool
    ensures { result ≡ is_blank byte }
{
    byte <= b' ' && byte != b'\r'
}

/// How many blanks a text begins with.
fn blanks(text: &[u8]) -> usize
    ensures { result ≡ blanks text.now }
{
    text.iter().take_while(|byte| is_blank(**byte)).count()
}

/// How many bytes the word has that a text begins with.
fn word_length(text: &[u8]) -> usize
    ensures { result ≡ word_length text.now }
{
    text.iter().take_while(|byte| !is_blank(**byte)).count()
}

/// A text from its first word on.
fn from_word(text: &[u8]) -> &[u8]
    ensures rest { result.now ≡ from_word text.now }
    ensures few { length result.now ≤ length text.now }
{
    &text[blanks(text)..]
}

/// The first word of a text; empty where there is none.
fn word_in(text: &[u8]) -> &[u8]
    ensures { result.now ≡ word_in text.now }
{
    let rest = from_word(text);
    &rest[..word_length(rest)]
}

/// What stands behind the first word of a text.
fn behind_word(text: &[u8]) -> &[u8]
    ensures rest { result.now ≡ behind_word text.now }
    ensures few { length result.now ≤ length text.now }
{
    let rest = from_word(text);
    &rest[word_length(rest)..]
}

/// What stands behind so many words of a text.
fn rest_behind(text: &[u8], count: usize) -> &[u8]
    ensures rest { result.now ≡ rest_behind count text.now }
    ensures few { length result.now ≤ length text.now }
{
    let mut rest = text;
    for i in 0..count {
        let _ = i;
        rest = behind_word(rest);
    }
    rest
}

/// The number of a word, in hexadecimal digits.
#[tactic(auto, using(crate::proofs::Numbers::minus_unread), unfolding(of_format::specs::Reading::number_read))]
pub(crate) fn number_of(word: &[u8]) -> Option<Cell>
    ensures { result ≡ number_of word.now }
{
    if let [b'-', digits @ ..] = word {
        let _ = digits;
        return None;
    }
    read_number(word, 16)
}

/// The number of a word, in decimal digits.
#[tactic(auto, using(crate::proofs::Numbers::minus_unread_decimal), unfolding(of_format::specs::Reading::number_read))]
fn decimal_of(word: &[u8]) -> Option<Cell>
    ensures { result ≡ decimal_of word.now }
{
    if let [b'-', digits @ ..] = word {
        let _ = digits;
        return None;
    }
    read_number(word, 10)
}

/// Whether a word is spelt as a text.
pub(crate) fn is_same(word: &[u8], text: &str) -> bool
    ensures { result ≡ bytes_eq word.now text.now }
{
    word == text.as_bytes()
}

/// Whether a carriage return stands in a word.
fn has_return(word: &[u8]) -> bool
    ensures { result ≡ list_any (λ b. nat_eq b 0x0d) word.now }
{
    word.iter().any(|byte| *byte == b'\r')
}

impl<'a> Line<'a> {
    ghost use Rattle.of_calls.specs.Lines.{place_at, word_at};
    ghost use Rattle.of_calls.specs.Said.{decimal_at, number_at, text_at};

    /// The word behind so many; empty where there is none.
    pub(crate) fn word(self, count: usize) -> &'a [u8]
        ensures { result.now ≡ word_at count self.entry.text.now }
    {
        word_in(rest_behind(self.text, count))
    }

    /// Whether there is no word behind so many.
    pub(crate) fn ends(self, count: usize) -> bool
        ensures { result ≡ nat_eq (length (word_at count self.entry.text.now)) 0 }
    {
        self.word(count).len() == 0
    }

    /// Where the word behind so many stands: at the end of the line where there is none.
    pub(crate) fn place(self, count: usize) -> Place
        ensures { result ≡ place_at self.entry.number count self.entry.text.now }
    {
        let rest = from_word(rest_behind(self.text, count));
        Place {
            line: self.number,
            column: 1 + (self.text.len() - rest.len()),
        }
    }

    /// The number that the word behind so many says in hexadecimal digits.
    pub(crate) fn number(self, count: usize) -> Result<Cell, TextFault>
        ensures { result ≡ number_at self.entry.number count self.entry.text.now }
    {
        match number_of(self.word(count)) {
            Some(number) => Ok(number),
            None => Err(TextFault::BadNumber(self.place(count))),
        }
    }

    /// The number that the word behind so many says in decimal digits.
    pub(crate) fn decimal(self, count: usize) -> Result<Cell, TextFault>
        ensures { result ≡ decimal_at self.entry.number count self.entry.text.now }
    {
        match decimal_of(self.word(count)) {
            Some(number) => Ok(number),
            None => Err(TextFault::BadNumber(self.place(count))),
        }
    }

    /// The word behind so many, as a name or a path.
    ///
    /// BadName where a carriage return stands in it.
    pub(crate) fn text(self, count: usize) -> Result<&'a [u8], TextFault>
        ensures ok { IfOk result (λ t. text_at self.entry.number count self.entry.text.now ≡ Ok t.now) }
        ensures err { IfErr result (λ f. text_at self.entry.number count self.entry.text.now ≡ Err f) }
    {
        let word = self.word(count);
        if has_return(word) {
            Err(TextFault::BadName(self.place(count)))
        } else {
            Ok(word)
        }
    }

    /// What the line says, if it ends behind so many words.
    ///
    /// TooMany where one more stands there.
    pub(crate) fn ended<T: Drop>(self, count: usize, said: T) -> Result<T, TextFault>
        ensures ok { IfOk result (λ s. (s ≡ said)
            × (nat_eq (length (word_at count self.entry.text.now)) 0 ≡ true)) }
        ensures err { IfErr result (λ f. (nat_eq (length (word_at count self.entry.text.now)) 0 ≡ false)
            × (f ≡ TextFault.TooMany (place_at self.entry.number count self.entry.text.now))) }
    {
        if self.ends(count) {
            Ok(said)
        } else {
            Err(TextFault::TooMany(self.place(count)))
        }
    }
}
