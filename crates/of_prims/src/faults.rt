ghost use Rattle.std.specs.Prelude.{◌≡◌, ◌≢◌, ◌≤◌, length, None, Some, OnOk, IfOk, IfErr};
ghost use Rattle.std.specs.Int.{bytes_high_first};
ghost use Rattle.of_memory.specs.Access.{read_fault, write_fault, number_at};
ghost use Rattle.of_memory.specs.DataSpace.{IsSound, bytes_from, written};
ghost use Rattle.of_memory.specs.declared.width.Width.{Width};
ghost use Rattle.of_memory.specs.Outcomes.{TakesNoMemory};
ghost use Rattle.of_prims.specs.Data.{throw_of, thrown, fault_of, cell_at};

use of_cells::Cell;
use of_memory::{MemFault, Memory, Width};
use of_stacks::Throw;

/// What a word throws for a fault of the data space: -9 for an address, -23 for its alignment, -20
/// for a region that programs may only read, -24 for a block, and -8 where no room is left.
///
/// A refused growth of memory is no throw.
#[inline]
pub fn throw_of(fault: MemFault) -> Throw
    requires { fault ≢ MemFault.NoMemory }
    ensures { result ≡ throw_of fault }
{
    match fault {
        MemFault::Address => Throw::INVALID_ADDRESS,
        MemFault::Alignment => Throw::ALIGNMENT,
        MemFault::ReadOnly => Throw::READ_ONLY,
        MemFault::Full => Throw::DICTIONARY_OVERFLOW,
        MemFault::BadBlock => Throw::INVALID_ARGUMENT,
        // Not given, by the condition.
        MemFault::NoMemory => Throw::ABORT,
    }
}

/// The bytes of a range that can be read, or the throw of a range that can't.
pub fn slice(memory: &Memory, addr: Cell, len: Cell) -> Result<&[u8], Throw>
    ensures ok { IfOk result (λ s. (read_fault memory.now addr.0 len.0 Width.One ≡ None)
        × (s.now ≡ bytes_from memory.now addr.0 len.0)) }
    ensures short { IfOk result (λ s. length s.now ≤ len.0) }
    ensures err { IfErr result (λ t. fault_of (read_fault memory.now addr.0 len.0 Width.One) ≡ Some t) }
{
    thrown(memory.slice(addr, len))
}

/// Throws where a range can't be read at a multiple of the width.
pub fn check_read(memory: &Memory, addr: Cell, len: Cell, width: Width) -> Result<(), Throw>
    ensures ok { OnOk result (read_fault memory.now addr.0 len.0 width ≡ None) }
    ensures err { IfErr result (λ t. fault_of (read_fault memory.now addr.0 len.0 width) ≡ Some t) }
{
    thrown(memory.check_read(addr, len, width))
}

/// Throws where a range can't be written at a multiple of the width.
pub fn check_write(memory: &Memory, addr: Cell, len: Cell, width: Width) -> Result<(), Throw>
    ensures ok { OnOk result (write_fault memory.now addr.0 len.0 width ≡ None) }
    ensures err { IfErr result (λ t. fault_of (write_fault memory.now addr.0 len.0 width) ≡ Some t) }
    ensures sound { IsSound memory.now }
{
    thrown(memory.check_write(addr, len, width))
}

/// The byte at an address that can be read.
pub fn byte_at(memory: &Memory, addr: Cell) -> u8
    requires { read_fault memory.now addr.0 1 Width.One ≡ None }
    ensures { result ≡ number_at memory.now addr.0 1 }
{
    match memory.read8(addr) {
        Ok(byte) => byte,
        Err(_) => 0,
    }
}

/// The cell at an address where one can be read.
pub fn cell_at(memory: &Memory, addr: Cell) -> Cell
    requires { read_fault memory.now addr.0 4 Width.Four ≡ None }
    ensures { result ≡ cell_at memory.now addr.0 }
{
    match memory.read32(addr) {
        Ok(x) => x,
        Err(_) => Cell::ZERO,
    }
}

/// Stores a cell at an address where one can be written.
pub fn put_cell(memory: &mut Memory, addr: Cell, x: Cell)
    requires { write_fault memory.old addr.0 4 Width.Four ≡ None }
    ensures { memory.new ≡ written memory.old addr.0 (bytes_high_first 4 x.0) }
{
    let _ = memory.write32(addr, x);
}

/// The answer of a call on the data space, with its fault as a throw.
#[inline]
pub fn thrown<T: Drop>(answer: Result<T, MemFault>) -> Result<T, Throw>
    requires { TakesNoMemory answer }
    ensures { result ≡ thrown answer }
{
    match answer {
        Ok(value) => Ok(value),
        Err(fault) => Err(throw_of(fault)),
    }
}
