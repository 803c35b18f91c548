ghost use Rattle.std.specs.Prelude.{◌≡◌, IfOk, map, true};
ghost use Rattle.of_asking.specs.Questions.{fits};
ghost use Rattle.of_devices.specs.Parts.{part_meant, standard_memory, standard_parts};
ghost use Rattle.of_devices.specs.Racks.{rack_answer, rack_told};

use crate::clock::Clock;
use crate::device::Device;
use crate::memory::DeviceMemory;
use crate::part::Part;
use crate::rack::nothing;
use of_asking::{Answer, Query};
use of_cells::Cell;
use std::alloc::{AllocError, Global};

/// 4,096 bytes of memory from 0x80000000 on, all 0.
#[tactic(auto, unfolding(crate::specs::Parts::standard_memory))]
fn standard_memory(alloc: Global) -> Result<DeviceMemory, AllocError>
    ensures { IfOk result (λ m. m ≡ standard_memory) }
{
    DeviceMemory::new(alloc, Cell(0x8000_0000), 4096, &[])
}

/// The devices of a board of which nothing is said: 4,096 bytes of memory from 0x80000000 on, all 0, and a clock.
///
/// A refused allocation is the error.
pub fn standard_board(alloc: Global) -> Result<Vec<Part>, AllocError>
    ensures { IfOk result (λ parts. parts.items ≡ standard_parts) }
{
    let memory = standard_memory(alloc)?;
    let mut parts = Vec::new(alloc);
    parts.push(Part::Memory(memory))?;
    parts.push(Part::Clock(Clock::new()))?;
    Ok(parts)
}

/// The devices of a board, as one device, which takes all questions: the first part that takes one answers it. Where
/// none does, the answer is that of `ask` without a device.
#[derive(Drop)]
pub struct Board {
    /// The parts.
    pub parts: Vec<Part>,
}

impl Board {
    /// A board of the same parts, as they are now.
    ///
    /// A refused allocation is the error.
    pub fn copy(&self, alloc: Global) -> Result<Board, AllocError>
        ensures { IfOk result (λ b. b.parts.items ≡ self.now.parts.items) }
    {
        let mut parts = Vec::with_capacity(alloc, self.parts.len())?;
        for part in &self.parts {
            parts.push(part.copy(alloc)?)?;
        }
        Ok(Board { parts })
    }

    /// What the first part that takes a question answers.
    fn first_answer(&mut self, query: Query) -> Answer
        ensures answer { result ≡ rack_answer (map part_meant self.old.parts.items) query }
        ensures fits { fits query result ≡ true }
        ensures told { map part_meant self.new.parts.items ≡ rack_told (map part_meant self.old.parts.items) query }
    {
        for i in 0..self.parts.len() {
            if self.parts[i].takes(query) {
                return self.parts[i].answer(query);
            }
        }
        nothing(query)
    }
}

impl Device for Board {
    ghost use Rattle.of_devices.specs.Parts.{board_meant};

    ghost meant = { λ b. board_meant b };

    fn takes(&self, _query: Query) -> bool {
        true
    }

    fn answer(&mut self, query: Query) -> Answer {
        self.first_answer(query)
    }
}
