//! Bytes and texts that the tests share. The functions here have no contracts, so the proof of a test carries nothing
//! of the machine's own, which are long.
use hex::decode;
use std::alloc::Global;
use std::test::Fail;

/// Bytes from hexadecimal digits, among which blanks may stand.
pub(crate) fn bytes_of(alloc: Global, digits: &str) -> Result<Vec<u8>, Fail> {
    let packed: String = digits.chars().filter(|c| *c != ' ').collect(alloc)?;
    Ok(decode(alloc, packed)?)
}

/// A byte as a character, an end of line as `$`.
fn shown_byte(byte: u8) -> char {
    if byte == b'\n' { '$' } else { char::from(byte) }
}

/// Appends characters, an end of line as `$`.
pub(crate) fn push_bytes(text: &mut String, bytes: &[u8]) -> Result<(), Fail> {
    for byte in bytes {
        text.push(shown_byte(*byte))?;
    }
    Ok(())
}
