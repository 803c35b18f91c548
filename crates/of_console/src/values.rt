ghost use Rattle.std.specs.Prelude.{◌≡◌, ◌++◌, [], OnOk};
ghost use Rattle.std.specs.String.{string_bytes};
ghost use Rattle.hex.specs.Hex.{encode_lower};
ghost use Rattle.of_console.specs.Values.{all_shown, before_last, behind_name, grouped, is_shown, is_text};
ghost use Rattle.of_console.specs.Values.{last_byte, value_shown};

use hex::encode;
use std::alloc::{AllocError, Global};

/// Whether a text shows a byte as it is.
fn is_shown(byte: u8) -> bool
    ensures { result ≡ is_shown byte }
{
    byte >= b' ' && byte <= b'~'
}

/// All bytes but the last.
fn before_last(value: &[u8]) -> &[u8]
    ensures { result.now ≡ before_last value.now }
{
    &value[..value.len().saturating_sub(1)]
}

/// Whether a text shows all bytes as they are.
fn all_shown(bytes: &[u8]) -> bool
    ensures { result ≡ all_shown bytes.now }
{
    bytes.iter().all(|byte| is_shown(*byte))
}

/// The last byte of some, or 1.
fn last_byte(value: &[u8]) -> u8
    ensures { result ≡ last_byte value.now }
{
    match value.get(value.len().saturating_sub(1)) {
        Some(byte) => *byte,
        None => 1,
    }
}

/// Whether a value is a text: one or more bytes that are shown as they are, and a zero byte behind them.
fn is_text(value: &[u8]) -> bool
    ensures { result ≡ is_text value.now }
{
    value.len() > 1 && last_byte(value) == 0 && all_shown(before_last(value))
}

/// Appends bytes in hexadecimal digits.
pub(crate) fn push_digits(alloc: Global, out: &mut Vec<u8>, bytes: &[u8]) -> Result<(), AllocError>
    ensures { OnOk result (out.new.items ≡ out.old.items ++ encode_lower bytes.now) }
{
    let digits = encode(alloc, bytes)?;
    out.extend_from_slice(digits.as_bytes())?;
    Ok(())
}

/// Appends bytes in hexadecimal digits, with a space between groups of four.
#[tactic(auto, using(crate::proofs::Groups::goes_on, crate::proofs::Groups::ends))]
fn push_grouped(alloc: Global, out: &mut Vec<u8>, bytes: &[u8]) -> Result<(), AllocError>
    ensures { OnOk result (out.new.items ≡ out.old.items ++ grouped bytes.now) }
{
    let mut rest = bytes;
    while rest.len() > 4 {
        let (group, more) = rest.split_at(4);
        push_digits(alloc, out, group)?;
        out.push(b' ')?;
        rest = more;
    }
    push_digits(alloc, out, rest)
}

/// Appends a value as it is shown.
fn push_value(alloc: Global, out: &mut Vec<u8>, value: &[u8]) -> Result<(), AllocError>
    ensures { OnOk result (out.new.items ≡ out.old.items ++ value_shown value.now) }
{
    if !is_text(value) {
        return push_grouped(alloc, out, value);
    }
    out.push(b'"')?;
    out.extend_from_slice(before_last(value))?;
    out.push(b'"')?;
    Ok(())
}

/// Appends what stands behind the name of a property: a space and the value, or nothing where that is empty.
pub(crate) fn push_behind_name(
    alloc: Global,
    out: &mut Vec<u8>,
    value: &[u8],
) -> Result<(), AllocError>
    ensures { OnOk result (out.new.items ≡ out.old.items ++ behind_name value.now) }
{
    if value.is_empty() {
        return Ok(());
    }
    out.push(b' ')?;
    push_value(alloc, out, value)
}
