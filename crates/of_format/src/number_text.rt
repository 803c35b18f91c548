ghost use Rattle.std.specs.Prelude.{◌≡◌, ◌<◌, ◌≤◌, ◌+◌, ◌++◌, [], ◌∷◌, length};
ghost use Rattle.arrayvec.specs.ArrayVec.{array_vec_len};
ghost use Rattle.of_cells.specs.Numbers.{signed};
ghost use Rattle.of_cells.specs.Doubles.{number_of};
ghost use Rattle.of_format.specs.Digits.{digits, number_text, unsigned_text, double_text};

use crate::digits::digit_byte;
use arrayvec::ArrayVec;
use of_cells::{Cell, Double};
use std::marker::Model;

/// The text of a number: at most 64 bytes.
#[derive(Drop)]
pub struct NumberText {
    bytes: ArrayVec<u8, 64>,
}

// Clauses see the bytes.
impl Model for NumberText {
    ghost use Rattle.std.specs.Prelude.{ℕ, List, length, ◌≤◌};

    ghost Value = { List ℕ };

    ghost view = { λ t. t.bytes.items };

    ghost invariant = { λ t. length t.bytes.items ≤ 64 };
}

impl NumberText {
    /// The bytes of the text.
    pub fn as_bytes(&self) -> &[u8]
        ensures value { result.now ≡ self.now }
        ensures fits { length result.now ≤ 64 }
    {
        self.bytes.as_slice()
    }
}

/// Appends the digits of a number, at most `more` and one.
#[tactic(auto, unfolding(crate::specs::Digits::digits))]
fn push_digits(text: &mut ArrayVec<u8, 64>, more: usize, base: u32, n: u64)
    requires least { 2 ≤ base }
    requires most { base ≤ 36 }
    requires room { array_vec_len text.old + more < 64 }
    ensures text { text.new.items ≡ text.old.items ++ digits more base n }
    ensures short { array_vec_len text.new ≤ array_vec_len text.old + more + 1 }
{
    let last = digit_byte((n % u64::from(base)) as u32);
    if more > 0 && n >= u64::from(base) {
        push_digits(text, more - 1, base, n / u64::from(base));
    }
    text.push(last);
}

/// A cell's number in a base, unsigned and in lower-case digits (IEEE 1275-1994, `u.`).
pub fn unsigned_text(x: Cell, base: u32) -> NumberText
    requires least { 2 ≤ base }
    requires most { base ≤ 36 }
    ensures text { result ≡ unsigned_text base x.0 }
    ensures short { length result ≤ 32 }
{
    let mut bytes = ArrayVec::new();
    push_digits(&mut bytes, 31, base, u64::from(x.0));
    NumberText { bytes }
}

/// A cell's signed number in a base, in lower-case digits (Forth 2012, 6.1.0180).
#[tactic(auto, unfolding(crate::specs::Digits::number_text))]
pub fn signed_text(x: Cell, base: u32) -> NumberText
    requires least { 2 ≤ base }
    requires most { base ≤ 36 }
    ensures text { result ≡ number_text base (signed x) }
    ensures short { length result ≤ 33 }
{
    let number = x.signed();
    let mut bytes = ArrayVec::new();
    if number < 0 {
        bytes.push(b'-');
    }
    push_digits(&mut bytes, 31, base, u64::from(number.unsigned_abs()));
    NumberText { bytes }
}

/// A double's number in a base, unsigned and in lower-case digits (Forth 2012, 6.1.0050).
pub fn double_text(x: Double, base: u32) -> NumberText
    requires least { 2 ≤ base }
    requires most { base ≤ 36 }
    ensures text { result ≡ double_text base (number_of x) }
{
    let mut bytes = ArrayVec::new();
    push_digits(&mut bytes, 63, base, x.number());
    NumberText { bytes }
}
