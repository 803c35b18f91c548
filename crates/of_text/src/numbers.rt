//! Words as numbers and characters.
ghost use Rattle.std.specs.Prelude.{◌≡◌, ◌≤◌, Ok};
ghost use Rattle.of_format.specs.Pictured.{base_in};
ghost use Rattle.of_text.specs.Names.{first_byte, number_named};

use of_cells::Cell;
use of_format::{base, read_number};
use of_memory::Memory;
use of_stacks::Throw;

/// The first byte of a name: -16 where it has none.
pub fn first_byte(name: &[u8]) -> Result<Cell, Throw>
    ensures { result ≡ first_byte name.now }
{
    match name {
        [] => Err(Throw::EMPTY_NAME),
        [byte, ..] => Ok(Cell(u32::from(*byte))),
    }
}

/// The number that a word reads as in a base: -13 where it is none.
pub fn number(base: u32, name: &[u8]) -> Result<Cell, Throw>
    requires least { 2 ≤ base }
    requires most { base ≤ 36 }
    ensures { result ≡ number_named (Ok base) name.now }
{
    read_number(name, base).ok_or(Throw::UNDEFINED_WORD)
}

/// The number that a word reads as in the base of a data space: -24 where that is none, else -13.
pub fn number_here(memory: &Memory, name: &[u8]) -> Result<Cell, Throw>
    ensures { result ≡ number_named (base_in memory.now) name.now }
{
    number(base(memory)?, name)
}
