ghost use Rattle.std.specs.Prelude.{◌≡◌, true, IfOk};
ghost use Rattle.of_asking.specs.Questions.{fits};
ghost use Rattle.of_devices.specs.Ranges.{touches};

use crate::clock::{Clock, is_of_time};
use crate::device::Device;
use crate::keyboard::{Keyboard, is_of_keys};
use crate::memory::DeviceMemory;
use crate::range::{AddressRange, accessed};
use of_asking::{Answer, Query};
use std::alloc::{AllocError, Global};

/// A device of the board.
#[derive(Drop)]
pub enum Part {
    /// Device memory: bytes from an address on.
    Memory(DeviceMemory),
    /// Addresses at which every access faults.
    Broken(AddressRange),
    /// A keyboard with keys that were typed already.
    Keyboard(Keyboard),
    /// A clock.
    Clock(Clock),
}

/// Whether a question accesses an address of a range.
fn touches(range: AddressRange, query: Query) -> bool
    ensures { result ≡ touches range query }
{
    match accessed(query) {
        Some(other) => range.meets(other),
        None => false,
    }
}

/// The answer to a question that accesses broken addresses.
fn broken(range: AddressRange, query: Query) -> Answer
    requires { touches range query ≡ true }
    ensures answer { result ≡ Answer.BusFault }
    ensures fits { fits query result ≡ true }
{
    let _ = (range, query);
    Answer::BusFault
}

impl Part {
    /// A device of the same kind and state.
    ///
    /// A refused allocation is the error.
    pub(crate) fn copy(&self, alloc: Global) -> Result<Part, AllocError>
        ensures { IfOk result (λ p. p ≡ self.now) }
    {
        match self {
            Part::Memory(memory) => Ok(Part::Memory(memory.copy(alloc)?)),
            Part::Broken(range) => Ok(Part::Broken(*range)),
            Part::Keyboard(keyboard) => Ok(Part::Keyboard(keyboard.copy(alloc)?)),
            Part::Clock(clock) => Ok(Part::Clock(clock.copy())),
        }
    }
}

impl Device for Part {
    ghost use Rattle.of_devices.specs.Parts.{part_meant};

    ghost meant = { λ p. part_meant p };

    fn takes(&self, query: Query) -> bool {
        match self {
            Part::Memory(memory) => memory.takes(query),
            Part::Broken(range) => touches(*range, query),
            Part::Keyboard(_) => is_of_keys(query),
            Part::Clock(_) => is_of_time(query),
        }
    }

    fn answer(&mut self, query: Query) -> Answer {
        match self {
            Part::Memory(memory) => memory.answer(query),
            Part::Broken(range) => broken(*range, query),
            Part::Keyboard(keyboard) => keyboard.answer(query),
            Part::Clock(clock) => clock.answer(query),
        }
    }
}
