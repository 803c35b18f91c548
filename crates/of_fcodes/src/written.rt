//! Written words by number, execution token and name.
ghost use Rattle.std.specs.Prelude.{◌≡◌, ◌<◌, map, slice_get};
ghost use Rattle.std.specs.Option.{option_copied, option_map};
ghost use Rattle.of_fcodes.specs.Numbers.{number_of, primitive_number};
ghost use Rattle.of_fcodes.specs.Words.{Written, words};
ghost use Rattle.of_fcodes.specs.Index.{found_among};
ghost use Rattle.of_fcodes.specs.Finding.{class_of, name_written, word_with_name, word_with_xt, word_shown};
ghost use Rattle.of_fcodes.specs.Finding.{xt_of};

use crate::class::Class;
use crate::codes::is_same_name;
use crate::index::{WORD_ORDER, WORD_STARTS, places_of};
use crate::list::{WORDS, WrittenWord};
use crate::words::{PrimitiveWord, Word};

/// The execution token of the first written word. Those of the others follow, 4 apart.
pub const FIRST_WRITTEN: u32 = 0xc000_0000;

/// The execution token of the first own word of an image, behind those of the 331 written words.
pub const FIRST_OWN: u32 = 0xc000_052c;

/// The written words in their order.
#[inline]
fn list() -> &'static [WrittenWord]
    ensures { map word_shown result.now ≡ words }
{
    &WORDS
}

/// The word at a place of a list, if there is one.
#[inline]
fn row_at(list: &[WrittenWord], place: usize) -> Option<&WrittenWord>
    ensures { option_map word_shown (option_copied result) ≡ slice_get (map word_shown list.now) place }
{
    list.get(place)
}

impl PrimitiveWord {
    /// The place of the word in the list of written words, from 0.
    #[inline]
    fn number(self) -> u16
        ensures { result ≡ primitive_number self }
    {
        match self {
            PrimitiveWord::Arithmetic(word) => word as u16,
            PrimitiveWord::Comparing(word) => word as u16,
            PrimitiveWord::Stacks(word) => word as u16,
            PrimitiveWord::Addresses(word) => word as u16,
            PrimitiveWord::Memory(word) => word as u16,
            PrimitiveWord::Splitting(word) => word as u16,
            PrimitiveWord::Text(word) => word as u16,
            PrimitiveWord::Numbers(word) => word as u16,
        }
    }
}

impl Word {
    /// The place of the word in the list of written words, from 0 to 330.
    #[inline]
    fn number(self) -> u16
        ensures value { result ≡ number_of self }
        ensures fits { result < 331 }
    {
        match self {
            Word::Stream(word) => word as u16,
            Word::Primitive(word) => word.number(),
            Word::Printing(word) => word as u16,
            Word::Heap(word) => word as u16,
            Word::Keys(word) => word as u16,
            Word::Returns(word) => word as u16,
            Word::Dictionary(word) => word as u16,
            Word::Throws(word) => word as u16,
            Word::Properties(word) => word as u16,
            Word::Tree(word) => word as u16,
            Word::Devices(word) => word as u16,
            Word::Console(word) => word as u16,
            Word::Parsing(word) => word as u16,
            Word::Compiling(word) => word as u16,
        }
    }

    /// The execution token of the word, in constant time: a multiple of 4 from 0xC0000000 on.
    #[inline]
    pub fn xt(self) -> u32
        ensures { result ≡ xt_of self }
    {
        FIRST_WRITTEN + 4 * u32::from(self.number())
    }

    /// The name of the word, in constant time.
    pub fn name(self) -> &'static str
        ensures { result.now ≡ name_written self }
    {
        match row_at(list(), usize::from(self.number())) {
            Some(row) => row.0,
            None => "",
        }
    }

    /// How the word is used.
    pub fn class(self) -> Class
        ensures { result ≡ class_of self }
    {
        match self {
            Word::Stream(_) => Class::Stream,
            Word::Primitive(_) => Class::Ordinary,
            Word::Printing(_) => Class::Ordinary,
            Word::Heap(_) => Class::Ordinary,
            Word::Keys(_) => Class::Ordinary,
            Word::Returns(_) => Class::Ordinary,
            Word::Dictionary(_) => Class::Ordinary,
            Word::Throws(_) => Class::Ordinary,
            Word::Properties(_) => Class::Ordinary,
            Word::Tree(_) => Class::Ordinary,
            Word::Devices(_) => Class::Ordinary,
            Word::Console(_) => Class::Ordinary,
            Word::Parsing(_) => Class::Parsing,
            Word::Compiling(_) => Class::CompileOnly,
        }
    }
}

/// The written word that an execution token names, if it is one, in constant time.
#[inline]
pub fn word_with_xt(xt: u32) -> Option<Word>
    ensures { result ≡ word_with_xt xt }
{
    if xt < FIRST_WRITTEN || xt % 4 != 0 {
        return None;
    }
    match row_at(list(), ((xt - FIRST_WRITTEN) / 4) as usize) {
        Some(row) => Some(row.1),
        None => None,
    }
}

/// The first of the written words at these places that bears a name, whatever the case of its letters.
fn word_among(places: &[u16], name: &[u8]) -> Option<Word>
    ensures { result ≡ found_among (λ (r : Written). r.name) (λ r. r.word) (map (slice_get words) places.now)
        name.now }
{
    match places {
        [] => None,
        [place, rest @ ..] => {
            if let Some(row) = row_at(list(), usize::from(*place)) {
                if is_same_name(row.0.as_bytes(), name) {
                    return Some(row.1);
                }
            }
            word_among(rest, name)
        }
    }
}

/// The written word of a name, whatever the case of its letters, if there is one, in constant time.
#[tactic(auto, using(crate::proofs::IndexLemmas::words_hashed))]
pub fn word_with_name(name: &[u8]) -> Option<Word>
    ensures { result ≡ word_with_name name.now }
{
    word_among(places_of(&WORD_ORDER, &WORD_STARTS, name), name)
}
