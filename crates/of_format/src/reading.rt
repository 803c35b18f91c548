ghost use Rattle.std.specs.Prelude.{◌≡◌, ◌≤◌, Some};
ghost use Rattle.of_format.specs.Reading.{number_read, digits_read, at_most, with_digits};

use crate::digits::digit;
use of_cells::Cell;

/// The number of a text of digits, if it is at most the limit.
#[tactic(auto, using(crate::proofs::Numbers::no_more_digits, crate::proofs::Numbers::too_great))]
fn read_within(text: &[u8], base: u32, limit: u32) -> Option<u32>
    requires least { 2 ≤ base }
    requires most { base ≤ 36 }
    ensures { result ≡ at_most limit (with_digits base (Some 0) text.now) }
{
    let mut number = 0;
    let mut rest = text;
    while let [char, others @ ..] = rest {
        let value = digit(u32::from(*char), base)?;
        let more = u64::from(number) * u64::from(base) + u64::from(value);
        if more > u64::from(limit) {
            return None;
        }
        number = more as u32;
        rest = others;
    }
    Some(number)
}

/// The number of a text of one or more digits, if it is at most the limit.
fn read_digits(text: &[u8], base: u32, limit: u32) -> Option<u32>
    requires least { 2 ≤ base }
    requires most { base ≤ 36 }
    ensures { result ≡ digits_read base limit text.now }
{
    if text.is_empty() {
        return None;
    }
    read_within(text, base, limit)
}

/// The cell that a text reads as in a base (IEEE 1275-1994, `$number`): digits without case, at
/// most 2^32 - 1, or `-` and digits, at most 2^31.
///
/// None for an empty text, for `-` alone, where another byte stands in it, and for a greater
/// number.
#[tactic(auto, unfolding(crate::specs::Reading::number_read))]
pub fn read_number(text: &[u8], base: u32) -> Option<Cell>
    requires least { 2 ≤ base }
    requires most { base ≤ 36 }
    ensures { result ≡ number_read base text.now }
{
    if let [b'-', digits @ ..] = text {
        let number = read_digits(digits, base, 1 << 31)?;
        return Some(Cell(number).negate());
    }
    let number = read_digits(text, base, u32::MAX)?;
    Some(Cell(number))
}
