ghost use Rattle.std.specs.Prelude.{◌≡◌};
ghost use Rattle.of_memory.specs.Access.{read, read_cell, write};
ghost use Rattle.of_memory.specs.DataSpace.{IsSound};
ghost use Rattle.of_cells.specs.Outcomes.{Becomes};
ghost use Rattle.of_memory.specs.Outcomes.{TakesNoMemory};

use super::Memory;
use crate::fault::MemFault;
use crate::width::Width;
use byteorder::{BigEndian, ByteOrder};
use of_cells::Cell;

impl Memory {
    /// The byte at the address.
    ///
    /// Address, if it can't be read.
    #[inline(always)]
    pub fn read8(&self, addr: Cell) -> Result<u8, MemFault>
        ensures value { result ≡ read Width.One self.now addr.0 }
        ensures sound { IsSound self.now }
        ensures memory { TakesNoMemory result }
    {
        // With a field used, the invariant is known: `sound`.
        let _ = &self.bytes;
        let at = self.to_read(addr.0, 1, Width::One)?;
        Ok(self.bytes[at])
    }

    /// The number of two bytes at the address, the high byte first.
    ///
    /// Address, if a byte can't be read; Alignment, if the address is odd.
    #[inline]
    pub fn read16(&self, addr: Cell) -> Result<u16, MemFault>
        ensures value { result ≡ read Width.Two self.now addr.0 }
        ensures sound { IsSound self.now }
        ensures memory { TakesNoMemory result }
    {
        // With a field used, the invariant is known: `sound`.
        let _ = &self.bytes;
        let at = self.to_read(addr.0, 2, Width::Two)?;
        Ok(BigEndian::read_u16(&self.bytes[at..at + 2]))
    }

    /// The cell at the address, the high byte first.
    ///
    /// Address, if a byte can't be read; Alignment, if the address is no multiple of 4.
    #[inline(always)]
    pub fn read32(&self, addr: Cell) -> Result<Cell, MemFault>
        ensures value { result ≡ read_cell self.now addr.0 }
        ensures sound { IsSound self.now }
        ensures memory { TakesNoMemory result }
    {
        // With a field used, the invariant is known: `sound`.
        let _ = &self.bytes;
        let at = self.to_read(addr.0, 4, Width::Four)?;
        Ok(Cell(BigEndian::read_u32(&self.bytes[at..at + 4])))
    }

    /// Stores a byte at the address.
    ///
    /// Address, if it can't be read; ReadOnly, if programs may only read the region.
    #[inline(always)]
    pub fn write8(&mut self, addr: Cell, value: u8) -> Result<(), MemFault>
        ensures value { Becomes (write Width.One self.old addr.0 value) self.old self.new result }
        ensures memory { TakesNoMemory result }
    {
        let at = self.to_write(addr.0, 1, Width::One)?;
        self.put(at, &[value]);
        Ok(())
    }

    /// Stores a number of two bytes at the address, the high byte first.
    ///
    /// Address, if a byte can't be read; Alignment, if the address is odd; ReadOnly, if programs
    /// may only read the region.
    #[inline]
    pub fn write16(&mut self, addr: Cell, value: u16) -> Result<(), MemFault>
        ensures value { Becomes (write Width.Two self.old addr.0 value) self.old self.new result }
        ensures memory { TakesNoMemory result }
    {
        let at = self.to_write(addr.0, 2, Width::Two)?;
        let mut new = [0; 2];
        BigEndian::write_u16(&mut new, value);
        self.put(at, &new);
        Ok(())
    }

    /// Stores a cell at the address, the high byte first.
    ///
    /// Address, if a byte can't be read; Alignment, if the address is no multiple of 4; ReadOnly,
    /// if programs may only read the region.
    #[inline(always)]
    pub fn write32(&mut self, addr: Cell, value: Cell) -> Result<(), MemFault>
        ensures value { Becomes (write Width.Four self.old addr.0 value.0) self.old self.new result }
        ensures memory { TakesNoMemory result }
    {
        let at = self.to_write(addr.0, 4, Width::Four)?;
        self.put_cell(at, value.0);
        Ok(())
    }
}
