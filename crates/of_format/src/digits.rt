ghost use Rattle.std.specs.Prelude.{◌≡◌, ◌<◌, IfSome};
ghost use Rattle.std.specs.Char.{digit_char};
ghost use Rattle.of_format.specs.Digits.{digit_of, digit_value};

/// The byte of a digit: `0` to `9`, then `a` to `z`.
pub fn digit_byte(value: u32) -> u8
    requires { value < 36 }
    ensures { result ≡ digit_char value }
{
    match char::from_digit(value, 36) {
        Some(digit) => digit as u8,
        None => b'0',
    }
}

/// What a character stands for as a digit, letters of either case from 10 on.
#[tactic(auto, unfolding(crate::specs::Digits::digit_of))]
fn digit_of(char: u32) -> Option<u32>
    ensures { result ≡ digit_of char }
{
    if char >= 0x80 {
        return None;
    }
    char::from(char as u8).to_digit(36)
}

/// The value of a character as a digit in a base (IEEE 1275-1994, `digit`): `0` to `9`, then the
/// letters of either case, if it is below the base.
pub fn digit(char: u32, base: u32) -> Option<u32>
    ensures value { result ≡ digit_value base char }
    ensures below { IfSome result (λ value. value < base) }
{
    let value = digit_of(char)?;
    if value < base { Some(value) } else { None }
}
