ghost use Rattle.std.specs.Prelude.{◌≡◌};
ghost use Rattle.of_cells.specs.Outcomes.{Becomes};
ghost use Rattle.of_prims.specs.Data.{data_of};
ghost use Rattle.of_prims.specs.Prims.{prim_entry};

use crate::address_words::run_address_word;
use crate::memory_words::run_memory_word;
use crate::number_words::run_number_word;
use crate::text_words::run_text_word;
use of_calc::{arrange, calculate, compare, split};
use of_fcodes::PrimitiveWord;
use of_format::Pictured;
use of_memory::Memory;
use of_stacks::{DataStack, Throw};

/// Runs a word over the data stack, the data space and the pictured text; a throw changes nothing.
///
/// Of several faults the first of the order of throws counts: what is missing on the stack, then
/// addresses and numbers, and what finds no room last. No memory is asked for.
#[inline]
pub fn prim(
    word: PrimitiveWord,
    stack: &mut DataStack,
    memory: &mut Memory,
    pictured: &mut Pictured,
) -> Result<(), Throw>
    ensures { Becomes (prim_entry word (data_of stack.old memory.old pictured.old))
        (data_of stack.old memory.old pictured.old) (data_of stack.new memory.new pictured.new) result }
{
    match word {
        PrimitiveWord::Arithmetic(word) => calculate(word, stack)?,
        PrimitiveWord::Comparing(word) => compare(word, stack)?,
        PrimitiveWord::Stacks(word) => arrange(word, stack)?,
        PrimitiveWord::Addresses(word) => run_address_word(word, stack, memory)?,
        PrimitiveWord::Memory(word) => run_memory_word(word, stack, memory)?,
        PrimitiveWord::Splitting(word) => split(word, stack)?,
        PrimitiveWord::Text(word) => run_text_word(word, stack, memory)?,
        PrimitiveWord::Numbers(word) => run_number_word(word, stack, memory, pictured)?,
    }
    Ok(())
}
