ghost use Rattle.std.specs.Prelude.{◌≡◌, ◌+◌, ◌-◌, ◌<◌, ◌≤◌, [], ◌∷◌, length, true, IfErr};
ghost use Rattle.of_cells.specs.Outcomes.{Becomes};
ghost use Rattle.of_stacks.specs.Throws.{is_listed};
ghost use Rattle.of_memory.specs.Regions.{scratch_start, scratch_limit};
ghost use Rattle.of_memory.specs.DataSpace.{written};
ghost use Rattle.of_format.specs.Pictured.{capacity, held, text_address};

use of_cells::Cell;
use of_memory::{Memory, scratch_is_open};
use of_stacks::Throw;
use std::marker::Model;

/// The address behind the last byte of the pictured text.
const TEXT_END: u32 = 0x50_0100;

/// How many bytes the pictured text holds at most.
const CAPACITY: usize = 128;

/// How many bytes of pictured text are held. They stand in the scratch region of the data space
/// and end at 0x500100.
#[derive(Drop)]
pub struct Pictured {
    count: u32,
}

// Clauses see the count of the bytes.
impl Model for Pictured {
    ghost use Rattle.std.specs.Prelude.{ℕ, ◌≤◌};
    ghost use Rattle.of_format.specs.Pictured.{capacity};

    ghost Value = { ℕ };

    ghost view = { λ p. p.count };

    ghost invariant = { λ p. p.count ≤ capacity };
}

/// Stores bytes in the scratch region, where no write fails.
fn put(memory: &mut Memory, addr: u32, bytes: &[u8])
    requires from { scratch_start ≤ addr }
    requires to { addr + length bytes.now ≤ scratch_limit }
    ensures { memory.new ≡ written memory.old addr bytes.now }
{
    scratch_is_open();
    match memory.write_bytes(Cell(addr), bytes) {
        Ok(()) => {}
        // There is no fault there.
        Err(_) => {}
    }
}

impl Pictured {
    /// No text.
    pub fn new() -> Pictured
        ensures { result ≡ 0 }
    {
        Pictured { count: 0 }
    }

    /// Empties the text (Forth 2012, 6.1.0490).
    pub fn start(&mut self)
        ensures { self.new ≡ 0 }
    {
        self.count = 0;
    }

    /// How many bytes are held.
    pub fn len(&self) -> usize
        ensures value { result ≡ self.now }
        ensures fits { result ≤ capacity }
    {
        self.count as usize
    }

    /// The address and the length of the text (Forth 2012, 6.1.0040).
    pub fn text(&self) -> (Cell, Cell)
        ensures address { result.0.0 ≡ text_address self.now }
        ensures length { result.1.0 ≡ self.now }
    {
        (Cell(TEXT_END - self.count), Cell(self.count))
    }

    /// Puts a byte before those that are held, or throws -17 where 128 are held (Forth 2012,
    /// 6.1.1670).
    #[tactic(auto, unfolding(of_stacks::specs::Throws::is_listed, of_stacks::specs::Throws::listed_numbers))]
    pub fn hold(&mut self, memory: &mut Memory, byte: u8) -> Result<(), Throw>
        ensures text { let after = held memory.old self.old (byte ∷ []) in
            Becomes after (memory.old, self.old) (memory.new, self.new) result }
        ensures listed { IfErr result (λ t. is_listed t ≡ true) }
    {
        if self.len() == CAPACITY {
            return Err(Throw::PICTURED_OVERFLOW);
        }
        self.count += 1;
        put(memory, TEXT_END - self.count, &[byte]);
        Ok(())
    }

    /// Puts a text before the bytes that are held, or throws -17 where more than 128 would be held.
    #[tactic(auto, unfolding(of_stacks::specs::Throws::is_listed, of_stacks::specs::Throws::listed_numbers))]
    pub fn hold_text(&mut self, memory: &mut Memory, text: &[u8]) -> Result<(), Throw>
        ensures text { let after = held memory.old self.old text.now in
            Becomes after (memory.old, self.old) (memory.new, self.new) result }
        ensures listed { IfErr result (λ t. is_listed t ≡ true) }
    {
        if text.len() > CAPACITY - self.len() {
            return Err(Throw::PICTURED_OVERFLOW);
        }
        self.count += text.len() as u32;
        put(memory, TEXT_END - self.count, text);
        Ok(())
    }
}
