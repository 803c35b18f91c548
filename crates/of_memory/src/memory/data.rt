ghost use Rattle.std.specs.Prelude.{◌≡◌, ◌≤◌};
ghost use Rattle.of_cells.specs.Outcomes.{Answers, Becomes};
ghost use Rattle.of_memory.specs.Outcomes.{TakesNoMemory, address_of};
ghost use Rattle.of_memory.specs.DataSpace.{IsSound};
ghost use Rattle.of_memory.specs.Regions.{data_limit};
ghost use Rattle.of_memory.specs.Growth.{allotted, append_copied, appended, moved, zeros_address, zeros_allotted};

use super::Memory;
use crate::fault::MemFault;
use crate::regions::{DATA_LIMIT, DATA_START, aligned, place};
use of_cells::Cell;

/// Where an address comes by a signed cell, at least 0.
fn moved_by(addr: u32, n: Cell) -> u32
    requires { addr ≤ data_limit }
    ensures { result ≡ moved addr n.0 }
{
    if n.0 < 1 << 31 {
        addr + n.0
    } else {
        addr.saturating_sub(u32::MAX - n.0 + 1)
    }
}

impl Memory {
    /// The next free address of the data region.
    #[inline]
    pub fn here(&self) -> Cell
        ensures value { result.0 ≡ self.now.here }
        ensures sound { IsSound self.now }
    {
        Cell(self.here)
    }

    /// Moves `here` by `n` bytes, up, or down if `n` is negative.
    ///
    /// Full, if it would leave the data region.
    pub fn allot(&mut self, n: Cell) -> Result<(), MemFault>
        ensures value { Becomes (allotted self.old n.0) self.old self.new result }
        ensures memory { TakesNoMemory result }
    {
        let here = moved_by(self.here, n);
        if here < DATA_START || here > DATA_LIMIT {
            return Err(MemFault::Full);
        }
        self.here = here;
        Ok(())
    }

    /// Where `allot_zeros` would store as many bytes.
    ///
    /// Full, if they would leave the data region; no bytes never do.
    pub fn check_zeros(&self, len: Cell) -> Result<Cell, MemFault>
        ensures value { result ≡ zeros_address self.now len.0 }
        ensures sound { IsSound self.now }
    {
        let at = aligned(self.here);
        if len.0 > DATA_LIMIT - at {
            return Err(MemFault::Full);
        }
        Ok(Cell(at))
    }

    /// Moves `here` up to a multiple of 4, stores `len` zero bytes there, allots them and answers their address.
    ///
    /// Full, if they would leave the data region; no bytes never do.
    pub fn allot_zeros(&mut self, len: Cell) -> Result<Cell, MemFault>
        ensures value { Answers (zeros_allotted self.old len.0) self.old self.new (address_of result) }
        ensures memory { TakesNoMemory result }
    {
        let at = self.check_zeros(len)?;
        self.here = at.0 + len.0;
        self.set_all(place(at.0), len.0 as usize, 0);
        Ok(at)
    }

    /// Stores bytes at `here`, at any alignment, allots as many and answers their address.
    ///
    /// Full, if they would leave the data region.
    pub fn append(&mut self, new: &[u8]) -> Result<Cell, MemFault>
        ensures value { Answers (appended self.old new.now) self.old self.new (address_of result) }
        ensures memory { TakesNoMemory result }
    {
        let at = self.here;
        if new.len() > (DATA_LIMIT - at) as usize {
            return Err(MemFault::Full);
        }
        self.here = at + new.len() as u32;
        self.put(place(at), new);
        Ok(Cell(at))
    }

    /// Stores `len` bytes of memory and then the tail at `here`, as `append` does: the bytes that
    /// the range held before.
    ///
    /// Address, if one of them can't be read; else Full, if they would leave the data region.
    #[tactic(auto, using(crate::proofs::Splices::part_length))]
    pub fn append_copy(&mut self, from: Cell, len: Cell, tail: &[u8]) -> Result<Cell, MemFault>
        ensures value { Answers (append_copied self.old from.0 len.0 tail.now) self.old self.new (address_of result) }
        ensures memory { TakesNoMemory result }
    {
        let source = self.source(from.0, len.0)?;
        let at = self.here;
        let room = DATA_LIMIT - at;
        if len.0 > room || tail.len() > (room - len.0) as usize {
            return Err(MemFault::Full);
        }
        self.here = at + len.0 + tail.len() as u32;
        self.shift_with_tail(source, place(at), len.0 as usize, tail);
        Ok(Cell(at))
    }
}
