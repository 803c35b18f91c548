ghost use Rattle.std.specs.Prelude.{◌≡◌, IfOk};
ghost use Rattle.of_memory.specs.Regions.{heap_start, heap_limit};
ghost use Rattle.of_memory.specs.Blocks.{IsLeastFree, rounded};
ghost use Rattle.of_memory.specs.BlockCalls.{heap_taken, heap_given};
ghost use Rattle.of_cells.specs.Outcomes.{Becomes, MayAnswer};
ghost use Rattle.of_memory.specs.Outcomes.{IsForMemory, TakesNoMemory, address_of};

use super::Memory;
use crate::blocks::{block_size, give_block, take_block};
use crate::fault::MemFault;
use crate::regions::{HEAP_LIMIT, HEAP_START, place};
use of_cells::Cell;

impl Memory {
    /// Takes a block of the heap for `len` bytes, zeroes it and answers its address, the least
    /// multiple of 8 where it meets no live block. Its size is `len` up to a multiple of 8, at
    /// least 8.
    ///
    /// Full, if there is no such address; NoMemory, if the list of blocks can't grow.
    pub fn heap_take(&mut self, len: Cell) -> Result<Cell, MemFault>
        ensures taken { MayAnswer IsForMemory (heap_taken self.old len.0) self.old self.new (address_of result) }
        ensures least { let size = rounded len.0 in
            IfOk result (λ a. IsLeastFree heap_start heap_limit self.old.heap size a.0) }
    {
        let at = take_block(&mut self.heap, HEAP_START, HEAP_LIMIT, len.0)?;
        self.set_all(place(at.0), block_size(len.0) as usize, 0);
        Ok(at)
    }

    /// Gives back the live block of the heap at the address.
    ///
    /// BadBlock, if no live block stands there, or `len` doesn't round to its size.
    pub fn heap_give(&mut self, addr: Cell, len: Cell) -> Result<(), MemFault>
        ensures given { Becomes (heap_given self.old addr.0 len.0) self.old self.new result }
        ensures memory { TakesNoMemory result }
    {
        give_block(&mut self.heap, HEAP_START, HEAP_LIMIT, addr.0, len.0)
    }
}
