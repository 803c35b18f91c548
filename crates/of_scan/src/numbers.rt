ghost use Rattle.std.specs.Prelude.{◌≡◌, ◌≤◌};
ghost use Rattle.of_scan.specs.Numbers.{is_digit, all_digits, are_digits, unsigned_part, number_in};

use of_cells::Cell;
use of_format::{digit, read_number};

/// What a word says as a number in a base.
#[derive(Clone, Copy)]
pub enum Number {
    /// Digits that a cell holds, with `-` before them or not.
    Value(Cell),
    /// Digits, with `-` before them or not, that no cell holds.
    OutOfRange,
    /// Something else than digits.
    NoNumber,
}

/// A word without its sign.
fn unsigned_part(word: &[u8]) -> &[u8]
    ensures { result.now ≡ unsigned_part word.now }
{
    match word {
        [b'-', digits @ ..] => digits,
        _ => word,
    }
}

/// Whether a byte is a digit.
fn is_digit(byte: u8, base: u32) -> bool
    ensures { result ≡ is_digit base byte }
{
    digit(u32::from(byte), base).is_some()
}

/// Whether a text has digits alone.
fn all_digits(text: &[u8], base: u32) -> bool
    ensures { result ≡ all_digits base text.now }
{
    text.iter().all(|byte| is_digit(*byte, base))
}

/// Whether a text has one or more digits and nothing else.
fn are_digits(text: &[u8], base: u32) -> bool
    ensures { result ≡ are_digits base text.now }
{
    text.len() > 0 && all_digits(text, base)
}

/// What a word says as a number in this base (Forth 2012, 3.4.1.3).
///
/// A number is `-` or nothing, and one digit or more: 0 to 9, and then the letters from A or a on. A cell holds those
/// from -2^31 to 2^32 - 1, a negative one as its two's complement. NoNumber is for every other word: one without
/// digits, with `+`, with a point, or with another byte that is no digit in this base.
#[tactic(auto, unfolding(crate::specs::Numbers::number_in))]
pub fn number_in(word: &[u8], base: u32) -> Number
    requires least { 2 ≤ base }
    requires most { base ≤ 36 }
    ensures { result ≡ number_in base word.now }
{
    match read_number(word, base) {
        Some(cell) => Number::Value(cell),
        None => {
            if are_digits(unsigned_part(word), base) {
                Number::OutOfRange
            } else {
                Number::NoNumber
            }
        }
    }
}
