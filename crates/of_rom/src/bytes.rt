// Numbers in the bytes of a ROM, the low byte first.

ghost use Rattle.std.specs.Prelude.{◌≡◌, ◌+◌, ◌<◌, ◌≤◌, length, slice_index};
ghost use Rattle.of_rom.specs.Images.{half_at, class_at};

use byteorder::{ByteOrder, LittleEndian};

/// The number in two bytes at a place.
pub fn half_at(rom: &[u8], at: usize) -> u16
    requires { at + 2 ≤ length rom.now }
    ensures { result ≡ half_at rom.now at }
{
    LittleEndian::read_u16(&rom[at..])
}

/// The number in three bytes at a place.
pub fn class_at(rom: &[u8], at: usize) -> u32
    requires { at + 3 ≤ length rom.now }
    ensures { result ≡ class_at rom.now at }
{
    LittleEndian::read_u24(&rom[at..])
}
