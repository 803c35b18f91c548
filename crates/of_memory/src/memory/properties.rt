ghost use Rattle.std.specs.Prelude.{◌≡◌, ◌≤◌};
ghost use Rattle.of_cells.specs.Outcomes.{Answers};
ghost use Rattle.of_memory.specs.Outcomes.{TakesNoMemory, address_of, places_of, paired};
ghost use Rattle.of_memory.specs.Growth.{property_put, property_room, named_put, with_state};

use super::Memory;
use crate::fault::MemFault;
use crate::regions::{PROPERTY_LIMIT, PROPERTY_START, aligned, place};
use of_cells::Cell;

impl Memory {
    /// How many bytes the next name or value of a property may have.
    pub fn property_room(&self) -> usize
        ensures { result ≡ property_room self.now }
    {
        (PROPERTY_LIMIT - aligned(self.properties_end)) as usize
    }

    /// Copies a property's name or value to the next multiple of 4 in the property region, and
    /// answers the address. It stays there for good.
    ///
    /// Full, if it doesn't fit.
    pub fn put_property(&mut self, new: &[u8]) -> Result<Cell, MemFault>
        ensures value { Answers (property_put self.old new.now) self.old self.new (address_of result) }
        ensures memory { TakesNoMemory result }
    {
        let at = aligned(self.properties_end);
        if new.len() > (PROPERTY_LIMIT - at) as usize {
            return Err(MemFault::Full);
        }
        self.properties_end = at + new.len() as u32;
        self.put(place(at), new);
        Ok(Cell(at))
    }

    /// Copies a property's name and then its value to the property region, as `put_property` does
    /// with each, and answers their addresses.
    ///
    /// Full, if they don't both fit; then neither is put.
    pub fn put_named(&mut self, name: &[u8], value: &[u8]) -> Result<(Cell, Cell), MemFault>
        ensures value { Answers (paired (named_put self.old name.now value.now)) self.old self.new (places_of result) }
        ensures memory { TakesNoMemory result }
    {
        let at = aligned(self.properties_end);
        if name.len() > (PROPERTY_LIMIT - at) as usize {
            return Err(MemFault::Full);
        }
        let value_at = aligned(at + name.len() as u32);
        if value.len() > (PROPERTY_LIMIT - value_at) as usize {
            return Err(MemFault::Full);
        }
        self.properties_end = value_at + value.len() as u32;
        self.put(place(at), name);
        self.put(place(value_at), value);
        Ok((Cell(at), Cell(value_at)))
    }

    /// Sets the cell `state`, at the beginning of the property region: true while compiling.
    pub fn set_state(&mut self, compiling: bool)
        ensures { self.new ≡ with_state self.old compiling }
    {
        self.put_cell(place(PROPERTY_START), Cell::flag(compiling).0);
    }
}
