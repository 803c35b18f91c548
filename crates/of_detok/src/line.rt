// What a line begins with: how many bytes stand before it, and its own bytes. Each function that
// writes puts its text behind what stands there.

ghost use Rattle.std.specs.Prelude.{◌≡◌, ◌%◌, ◌<◌, ◌++◌, codes, OnOk};
ghost use Rattle.std.specs.Char.{digit_char};
ghost use Rattle.of_detok.specs.Digits.{digits, pairs, place};

use std::alloc::AllocError;

/// The digit of a value below sixteen, in lower case.
#[inline]
fn digit(value: u8) -> u8
    requires { value < 16 }
    ensures { result ≡ digit_char value }
{
    match char::from_digit(u32::from(value), 16) {
        Some(digit) => digit as u8,
        None => b'0',
    }
}

/// The last digit of a number.
#[inline]
fn last_digit(n: usize) -> u8
    ensures { result ≡ digit_char (n % 16) }
{
    digit((n % 16) as u8)
}

/// What stands at the beginning of a line: how many bytes stand before it, modulo 2^24, in six
/// digits, a colon and a space.
#[tactic(auto, unfolding(crate::specs::Digits::place, crate::specs::Digits::digits))]
pub fn place_of(before: usize) -> [u8; 8]
    ensures { result ≡ place before }
{
    let second = before / 16;
    let third = second / 16;
    let fourth = third / 16;
    let fifth = fourth / 16;
    let sixth = fifth / 16;
    [
        last_digit(sixth),
        last_digit(fifth),
        last_digit(fourth),
        last_digit(third),
        last_digit(second),
        last_digit(before),
        b':',
        b' ',
    ]
}

/// Writes the last digits of a number, so many.
#[tactic(auto, unfolding(crate::specs::Digits::digits), using(std::proofs::lemmas::List::append_assoc))]
pub fn write_digits(out: &mut Vec<u8>, count: usize, n: usize) -> Result<(), AllocError>
    ensures { OnOk result (out.new.items ≡ out.old.items ++ digits count n) }
{
    if count == 0 {
        return Ok(());
    }
    write_digits(out, count - 1, n / 16)?;
    out.push(last_digit(n))?;
    Ok(())
}

/// Writes the digits of bytes, two a byte.
fn write_pairs(out: &mut Vec<u8>, bytes: &[u8]) -> Result<(), AllocError>
    ensures { OnOk result (out.new.items ≡ out.old.items ++ pairs bytes.now) }
{
    for byte in bytes {
        out.push(digit(*byte / 16))?;
        out.push(digit(*byte % 16))?;
    }
    Ok(())
}

/// Writes a line up to its label.
pub fn write_line(out: &mut Vec<u8>, before: usize, bytes: &[u8]) -> Result<(), AllocError>
    ensures { OnOk result (out.new.items ≡ out.old.items ++ place before ++ pairs bytes.now ++ codes "  ") }
{
    out.extend_from_slice(&place_of(before))?;
    write_pairs(out, bytes)?;
    out.extend_from_slice(b"  ")
}
