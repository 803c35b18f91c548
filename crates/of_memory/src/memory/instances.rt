ghost use Rattle.std.specs.Prelude.{◌≡◌, length, IfOk};
ghost use Rattle.of_memory.specs.Regions.{instance_start, instance_limit};
ghost use Rattle.of_memory.specs.Blocks.{IsLeastFree, rounded};
ghost use Rattle.of_memory.specs.BlockCalls.{instance_taken, instances_taken, instance_given};
ghost use Rattle.of_cells.specs.Outcomes.{Answers, Becomes};
ghost use Rattle.of_memory.specs.Outcomes.{TakesNoMemory, address_of};

use super::Memory;
use crate::blocks::{block_size, give_block, has_room, take_block};
use crate::fault::MemFault;
use crate::regions::{INSTANCE_LIMIT, INSTANCE_START, place};
use of_cells::Cell;

impl Memory {
    /// Takes a block of the instance region for `len` bytes, zeroes it and answers its address, the
    /// least multiple of 8 where it meets no live block. Its size is `len` up to a multiple of 8,
    /// at least 8.
    ///
    /// Full, if there is no such address.
    pub fn instance_take(&mut self, len: Cell) -> Result<Cell, MemFault>
        ensures taken { Answers (instance_taken self.old len.0) self.old self.new (address_of result) }
        ensures least { let size = rounded len.0 in
            IfOk result (λ a. IsLeastFree instance_start instance_limit self.old.instances size a.0) }
        ensures memory { TakesNoMemory result }
    {
        let at = take_block(&mut self.instances, INSTANCE_START, INSTANCE_LIMIT, len.0)?;
        self.set_all(place(at.0), block_size(len.0) as usize, 0);
        Ok(at)
    }

    /// Takes a block of the instance region for each of the lengths, in their order, as so many
    /// calls of `instance_take` do, and writes the addresses.
    ///
    /// Full, if one of the blocks finds no room; then nothing is taken, and the addresses stay.
    pub fn instance_take_all(
        &mut self,
        lengths: &[Cell],
        addresses: &mut [Cell],
    ) -> Result<(), MemFault>
        requires { length lengths.now ≡ length addresses.old }
        ensures taken { let after = instances_taken self.old lengths.now in
            Becomes after (addresses.old, self.old) (addresses.new, self.new) result }
        ensures memory { TakesNoMemory result }
    {
        if !has_room(&mut self.instances, INSTANCE_START, INSTANCE_LIMIT, lengths) {
            return Err(MemFault::Full);
        }
        for i in 0..lengths.len() {
            // Each block finds the room that it found before.
            let Ok(at) = self.instance_take(lengths[i]) else {
                return Err(MemFault::Full);
            };
            addresses[i] = at;
        }
        Ok(())
    }

    /// Gives back the live block of the instance region at the address. Its bytes stay as they are
    /// until a block is taken there.
    ///
    /// BadBlock, if no live block stands there, or `len` doesn't round to its size.
    pub fn instance_give(&mut self, addr: Cell, len: Cell) -> Result<(), MemFault>
        ensures given { Becomes (instance_given self.old addr.0 len.0) self.old self.new result }
        ensures memory { TakesNoMemory result }
    {
        give_block(
            &mut self.instances,
            INSTANCE_START,
            INSTANCE_LIMIT,
            addr.0,
            len.0,
        )
    }
}
