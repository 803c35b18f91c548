// The header of an image (IEEE 1275-1994, 5.2.2.5).

ghost use Rattle.std.specs.Prelude.{◌≡◌, ◌≤◌, ◌+◌, ◌%◌, ◌++◌, length, IfOk};
ghost use Rattle.std.specs.List.{sum};
ghost use Rattle.of_stream.specs.Image.{header_length};
ghost use Rattle.of_tok.specs.Image.{header, most_bytes, start_byte};

use of_stream::{HEADER_LENGTH, OffsetSize};
use std::alloc::{AllocError, Global};

/// `version1` begins an image with offsets of one byte, `start1` one with two.
fn start_byte(size: OffsetSize) -> u8
    ensures { result ≡ start_byte size }
{
    match size {
        OffsetSize::One => 0xfd,
        OffsetSize::Two => 0xf1,
    }
}

/// The low sixteen bits of the sum of bytes.
fn low_sum(bytes: &[u8]) -> usize
    ensures { result ≡ sum bytes.now % 0x10000 }
{
    let mut sum = 0;
    for byte in bytes {
        sum = (sum + usize::from(*byte)) % 0x1_0000;
    }
    sum
}

/// The bytes of tokens behind their header: start byte, format, the sum of these bytes, and the
/// length with the header.
pub fn with_header(alloc: Global, size: OffsetSize, bytes: &[u8]) -> Result<Vec<u8>, AllocError>
    requires { header_length + length bytes.now ≤ most_bytes }
    ensures { IfOk result (λ image. image.items ≡ header size bytes.now ++ bytes.now) }
{
    let sum = low_sum(bytes);
    let length = HEADER_LENGTH + bytes.len();
    let mut image = Vec::new(alloc);
    image.extend_from_slice(&[
        start_byte(size),
        8,
        (sum / 0x100) as u8,
        (sum % 0x100) as u8,
        (length / 0x100_0000) as u8,
        (length / 0x1_0000 % 0x100) as u8,
        (length / 0x100 % 0x100) as u8,
        (length % 0x100) as u8,
    ])?;
    image.extend_from_slice(bytes)?;
    Ok(image)
}
