ghost use Rattle.std.specs.Prelude.{◌≡◌, ◌≤◌, ◌⊎◌, Ok, Err, IfOk, IfErr, length};
ghost use Rattle.of_devices.specs.Memories.{memory_with};
ghost use Rattle.of_calls.specs.Boards.{bytes_at, fault_in, few_at, keys_in, length_at, longest, memory_in, part_in};
ghost use Rattle.of_calls.specs.Boards.{some_at};

use crate::fault::TextFault;
use crate::line::{Line, is_same};
use hex::FromHexError;
use of_devices::{AddressRange, Clock, DeviceMemory, Keyboard, Part};
use std::alloc::Global;

/// How many bytes a device has at most.
const LONGEST: u32 = 0x100_0000;

/// The length that the word behind so many says.
///
/// BadNumber where it says no number, or one above 0x1000000.
fn length_at(line: Line<'_>, count: usize) -> Result<usize, TextFault>
    ensures { result ≡ length_at line.entry.number count line.entry.text.now }
{
    let number = line.number(count)?;
    if number.0 <= LONGEST {
        Ok(number.0 as usize)
    } else {
        Err(TextFault::BadNumber(line.place(count)))
    }
}

/// The bytes that the word behind so many says in pairs of hexadecimal digits: none where there is none.
///
/// BadNumber where it doesn't.
fn bytes_at(alloc: Global, line: Line<'_>, count: usize) -> Result<Vec<u8>, TextFault>
    ensures ok { IfOk result (λ b. bytes_at line.entry.number count line.entry.text.now ≡ Ok b.items) }
    ensures err { IfErr result (λ f. (f ≡ TextFault.NoMemory)
        ⊎ (bytes_at line.entry.number count line.entry.text.now ≡ Err f)) }
{
    match hex::decode(alloc, line.word(count)) {
        Ok(bytes) => Ok(bytes),
        Err(FromHexError::OutOfMemory) => Err(TextFault::NoMemory),
        Err(FromHexError::InvalidHexCharacter { c: _, index: _ }) => {
            Err(TextFault::BadNumber(line.place(count)))
        }
        Err(FromHexError::OddLength) => Err(TextFault::BadNumber(line.place(count))),
        Err(FromHexError::InvalidStringLength) => Err(TextFault::BadNumber(line.place(count))),
    }
}

/// The bytes that the word behind so many says, `most` at most.
///
/// BadNumber where it doesn't.
fn few_at(alloc: Global, most: usize, line: Line<'_>, count: usize) -> Result<Vec<u8>, TextFault>
    ensures ok { IfOk result (λ b. few_at most line.entry.number count line.entry.text.now ≡ Ok b.items) }
    ensures few { IfOk result (λ b. length b.items ≤ most) }
    ensures err { IfErr result (λ f. (f ≡ TextFault.NoMemory)
        ⊎ (few_at most line.entry.number count line.entry.text.now ≡ Err f)) }
{
    let bytes = bytes_at(alloc, line, count)?;
    if bytes.len() <= most {
        Ok(bytes)
    } else {
        Err(TextFault::BadNumber(line.place(count)))
    }
}

/// The bytes that the word behind so many says, one at least.
///
/// BadNumber where it doesn't.
fn some_at(alloc: Global, line: Line<'_>, count: usize) -> Result<Vec<u8>, TextFault>
    ensures ok { IfOk result (λ b. some_at line.entry.number count line.entry.text.now ≡ Ok b.items) }
    ensures err { IfErr result (λ f. (f ≡ TextFault.NoMemory)
        ⊎ (some_at line.entry.number count line.entry.text.now ≡ Err f)) }
{
    if line.ends(count) {
        Err(TextFault::BadNumber(line.place(count)))
    } else {
        bytes_at(alloc, line, count)
    }
}

/// The device memory of a line.
#[tactic(auto, unfolding(crate::specs::Boards::memory_in))]
fn memory_in(alloc: Global, line: Line<'_>) -> Result<Part, TextFault>
    ensures ok { IfOk result (λ p. memory_in line.entry.number line.entry.text.now ≡ Ok p) }
    ensures err { IfErr result (λ f. (f ≡ TextFault.NoMemory)
        ⊎ (memory_in line.entry.number line.entry.text.now ≡ Err f)) }
{
    let address = line.number(1)?;
    let size = length_at(line, 2)?;
    let first = few_at(alloc, size, line, 3)?;
    let memory = DeviceMemory::new(alloc, address, size, &first)?;
    line.ended(4, Part::Memory(memory))
}

/// The addresses of a line at which every access faults.
#[tactic(auto, unfolding(crate::specs::Boards::fault_in))]
fn fault_in(line: Line<'_>) -> Result<Part, TextFault>
    ensures ok { IfOk result (λ p. fault_in line.entry.number line.entry.text.now ≡ Ok p) }
    ensures err { IfErr result (λ f. fault_in line.entry.number line.entry.text.now ≡ Err f) }
{
    let address = line.number(1)?;
    let length = length_at(line, 2)?;
    line.ended(3, Part::Broken(AddressRange { address, length }))
}

/// The keyboard of a line.
#[tactic(auto, unfolding(crate::specs::Boards::keys_in))]
fn keys_in(alloc: Global, line: Line<'_>) -> Result<Part, TextFault>
    ensures ok { IfOk result (λ p. keys_in line.entry.number line.entry.text.now ≡ Ok p) }
    ensures err { IfErr result (λ f. (f ≡ TextFault.NoMemory)
        ⊎ (keys_in line.entry.number line.entry.text.now ≡ Err f)) }
{
    let keys = some_at(alloc, line, 1)?;
    let keyboard = Keyboard::new(alloc, &keys)?;
    line.ended(2, Part::Keyboard(keyboard))
}

/// The device of a line.
#[tactic(auto, unfolding(crate::specs::Boards::part_in))]
pub(crate) fn part_in(alloc: Global, line: Line<'_>) -> Result<Part, TextFault>
    ensures ok { IfOk result (λ p. part_in line.entry.number line.entry.text.now ≡ Ok p) }
    ensures err { IfErr result (λ f. (f ≡ TextFault.NoMemory)
        ⊎ (part_in line.entry.number line.entry.text.now ≡ Err f)) }
{
    let word = line.word(0);
    if is_same(word, "memory") {
        memory_in(alloc, line)
    } else if is_same(word, "fault") {
        fault_in(line)
    } else if is_same(word, "keys") {
        keys_in(alloc, line)
    } else if is_same(word, "clock") {
        line.ended(1, Part::Clock(Clock::new()))
    } else {
        Err(TextFault::Unknown(line.place(0)))
    }
}
