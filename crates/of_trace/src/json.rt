//! JSON, as it is written into a line.
use std::io::{self, Write};

/// Writes bytes as a text, in which each byte is the character of its number.
pub(crate) fn say_text(bytes: &[u8], line: &mut Vec<u8>) -> io::Result<()> {
    write!(line, "\"")?;
    for byte in bytes {
        match *byte {
            b'"' | b'\\' => line.write_all(&[b'\\', *byte])?,
            b' '..=b'~' => line.write_all(&[*byte])?,
            _ => write!(line, "\\u{code:04x}", code = *byte)?,
        }
    }
    write!(line, "\"")
}

/// Writes bytes as a text of hexadecimal digits, two for each.
pub(crate) fn say_bytes(bytes: &[u8], line: &mut Vec<u8>) -> io::Result<()> {
    write!(line, "\"")?;
    for byte in bytes {
        write!(line, "{byte:02x}", byte = *byte)?;
    }
    write!(line, "\"")
}

/// What stands before the next element of a list or of an object: a comma, but before the first.
pub(crate) fn say_comma(count: usize, line: &mut Vec<u8>) -> io::Result<()> {
    if count > 0 {
        write!(line, ",")?;
    }
    Ok(())
}
