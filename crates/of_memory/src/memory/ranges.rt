ghost use Rattle.std.specs.Prelude.{◌≡◌, Ok, Err, MatchResult};
ghost use Rattle.of_memory.specs.Access.{read_bytes, bytes_written, filled, copied};
ghost use Rattle.of_memory.specs.DataSpace.{IsSound};
ghost use Rattle.of_cells.specs.Outcomes.{Becomes};
ghost use Rattle.of_memory.specs.Outcomes.{TakesNoMemory};

use super::Memory;
use crate::fault::MemFault;
use crate::regions::LONGEST;
use crate::width::Width;
use of_cells::Cell;

impl Memory {
    /// The `len` bytes from the address on.
    ///
    /// Address, if one of them can't be read. No bytes are always good.
    #[tactic(auto, using(crate::proofs::Nothing::slice_none))]
    #[inline]
    pub fn slice(&self, addr: Cell, len: Cell) -> Result<&[u8], MemFault>
        ensures value { let bytes = read_bytes self.now addr.0 len.0 in
            MatchResult result (λ s. bytes ≡ Ok s.now) (λ e. bytes ≡ Err e) }
        ensures sound { IsSound self.now }
        ensures memory { TakesNoMemory result }
    {
        // With a field used, the invariant is known: `sound`.
        let _ = &self.bytes;
        if len.0 == 0 {
            return Ok(&[]);
        }
        let at = self.to_read(addr.0, len.0, Width::One)?;
        Ok(&self.bytes[at..at + len.0 as usize])
    }

    /// Stores bytes from the address on.
    ///
    /// Address, if one of the bytes there can't be read; ReadOnly, if programs may only read the
    /// region. No bytes can always be written.
    #[tactic(auto, using(crate::proofs::Nothing::write_none, crate::proofs::Faults::long_write_fault))]
    pub fn write_bytes(&mut self, addr: Cell, new: &[u8]) -> Result<(), MemFault>
        ensures value { Becomes (bytes_written self.old addr.0 new.now) self.old self.new result }
        ensures memory { TakesNoMemory result }
    {
        if new.is_empty() {
            return Ok(());
        }
        if new.len() > LONGEST as usize {
            return Err(MemFault::Address);
        }
        let at = self.to_write(addr.0, new.len() as u32, Width::One)?;
        self.put(at, new);
        Ok(())
    }

    /// Stores one byte in each of the `len` bytes from the address on.
    ///
    /// Address, if one of them can't be read; ReadOnly, if programs may only read the region. No
    /// bytes are always good.
    #[tactic(auto, using(crate::proofs::Nothing::fill_none))]
    pub fn fill(&mut self, addr: Cell, len: Cell, value: u8) -> Result<(), MemFault>
        ensures value { Becomes (filled self.old addr.0 len.0 value) self.old self.new result }
        ensures memory { TakesNoMemory result }
    {
        if len.0 == 0 {
            return Ok(());
        }
        let at = self.to_write(addr.0, len.0, Width::One)?;
        self.set_all(at, len.0 as usize, value);
        Ok(())
    }

    /// Copies `len` bytes: the destination gets what the source held before, also where the ranges
    /// overlap.
    ///
    /// Address, if a byte of the source or of the destination can't be read; ReadOnly, if programs
    /// may only read the destination's region. No bytes are always good.
    #[tactic(auto, using(crate::proofs::Nothing::copy_none))]
    pub fn copy(&mut self, from: Cell, to: Cell, len: Cell) -> Result<(), MemFault>
        ensures value { Becomes (copied self.old from.0 to.0 len.0) self.old self.new result }
        ensures memory { TakesNoMemory result }
    {
        if len.0 == 0 {
            return Ok(());
        }
        let source = self.to_read(from.0, len.0, Width::One)?;
        let at = self.to_write(to.0, len.0, Width::One)?;
        self.shift(source, at, len.0 as usize);
        Ok(())
    }
}
