ghost use Rattle.std.specs.Prelude.{◌≡◌, ◌≤◌, IfOk, IfErr, true};
ghost use Rattle.of_stacks.specs.Throws.{is_listed};
ghost use Rattle.of_format.specs.Pictured.{base_in, base_number};

use of_cells::Cell;
use of_memory::{Memory, scratch_is_open};
use of_stacks::Throw;

/// Where the cell `base` stands.
const BASE: Cell = Cell(0x50_0000);

/// The number in the cell `base`, which can always be read.
fn base_number(memory: &Memory) -> u32
    ensures { result ≡ base_number memory.now }
{
    scratch_is_open();
    match memory.read32(BASE) {
        Ok(number) => number.0,
        // There is no fault there.
        Err(_) => 0,
    }
}

/// The number in the cell `base` (Forth 2012, 6.1.0750), or -24 where it isn't from 2 to 36.
#[tactic(auto, unfolding(of_stacks::specs::Throws::is_listed, of_stacks::specs::Throws::listed_numbers))]
pub fn base(memory: &Memory) -> Result<u32, Throw>
    ensures value { result ≡ base_in memory.now }
    ensures least { IfOk result (λ n. 2 ≤ n) }
    ensures most { IfOk result (λ n. n ≤ 36) }
    ensures listed { IfErr result (λ t. is_listed t ≡ true) }
{
    let number = base_number(memory);
    if number < 2 || number > 36 {
        return Err(Throw::INVALID_ARGUMENT);
    }
    Ok(number)
}
