ghost use Rattle.std.specs.Prelude.{◌≡◌, ◌⊎◌, ◌≤◌, length, Ok, Err, IfOk, IfErr, IfSome};
ghost use Rattle.of_files.specs.Files.{image_in, FaultsReading, IsUnread};

use crate::fault::Fault;
use crate::part::Part;
use std::alloc::Global;
use std::io::Read;

/// After so many reads a file that doesn't end is given up.
const MOST_READS: u32 = 16_777_216;

/// How many bytes one read takes at most.
const CHUNK: usize = 64;

/// Reads a file to its end.
///
/// Unread where a read fails, Endless after 16,777,216 reads that each gave a byte or more,
/// NoMemory.
pub fn read_whole<R: Read>(alloc: Global, file: &mut R) -> Result<Vec<u8>, Fault>
    ensures ok { IfOk result (λ text. IfSome (R.remaining file.old) (λ bytes. text.items ≡ bytes)) }
    ensures err { IfErr result (λ e. IsUnread e ⊎ (e ≡ Fault.Endless) ⊎ (e ≡ Fault.NoMemory)) }
    ensures endless { IfErr result (λ e. e ≡ Fault.Endless
        → IfSome (R.remaining file.old) (λ bytes. 16777216 ≤ length bytes)) }
{
    let mut text = Vec::new(alloc);
    let mut chunk = [0u8; CHUNK];
    for _ in 0..MOST_READS {
        let count = match file.read(&mut chunk) {
            Ok(count) => count,
            Err(error) => return Err(Fault::Unread(error.raw_os_error())),
        };
        if count == 0 {
            return Ok(text);
        }
        if text.extend_from_slice(&chunk[..count]).is_err() {
            return Err(Fault::NoMemory);
        }
    }
    Err(Fault::Endless)
}

/// Reads the image of a file: the bytes of the file where it begins with a start word, 0xF0 to 0xF3 or
/// 0xFD, else those that its hexadecimal digits say, with whitespace anywhere.
///
/// BadDigit with the place of the first byte that is no digit, as soon as it is read; OddDigits;
/// Unread where a read fails, Endless after 16,777,216 reads that each gave a byte or more, NoMemory.
pub fn read_image<R: Read>(alloc: Global, file: &mut R) -> Result<Vec<u8>, Fault>
    ensures ok { IfOk result (λ image. IfSome (R.remaining file.old) (λ bytes. image_in bytes ≡ Ok image.items)) }
    ensures err { IfErr result (λ e. IfSome (R.remaining file.old) (λ bytes. FaultsReading bytes e)) }
{
    let mut part = Part::Nothing;
    let mut chunk = [0u8; CHUNK];
    for _ in 0..MOST_READS {
        let count = match file.read(&mut chunk) {
            Ok(count) => count,
            Err(error) => return Err(Fault::Unread(error.raw_os_error())),
        };
        if count == 0 {
            return part.whole(alloc);
        }
        part = part.with(alloc, &chunk[..count])?;
    }
    Err(Fault::Endless)
}
