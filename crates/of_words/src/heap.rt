// The words that take a block of the heap: they may find no memory.

ghost use Rattle.std.specs.Prelude.{◌≡◌, true};
ghost use Rattle.of_words.specs.Words.{alloc_entry, heap_entry};
ghost use Rattle.of_stacks.specs.Stacks.{Makes};

use of_board::Board;
use of_fcodes::HeapWord;
use of_memory::MemFault;
use of_prims::throw_of;
use of_stacks::Stop;

/// Runs a word that takes a block of the heap; a stop changes nothing.
#[inline(never)]
pub(crate) fn run_heap_word(word: HeapWord, board: &mut Board) -> Result<(), Stop>
    ensures value { Makes true (heap_entry word board.old) board.old board.new result }
    ensures ready { board.old.console.ready ≡ true → board.new.console.ready ≡ true }
{
    match word {
        HeapWord::AllocMem => allocate(board),
    }
}

/// `alloc-mem` ( n -- a ) takes a block of the heap; -8 where none is free
fn allocate(board: &mut Board) -> Result<(), Stop>
    ensures value { Makes true (alloc_entry board.old.stack board.old) board.old board.new result }
    ensures ready { board.old.console.ready ≡ true → board.new.console.ready ≡ true }
{
    let len = board.stack.peek()?;
    match board.memory.heap_take(len) {
        Ok(addr) => {
            board.stack.replace_top(addr);
            Ok(())
        }
        Err(MemFault::NoMemory) => Err(Stop::NoMemory),
        Err(fault) => Err(Stop::Thrown(throw_of(fault))),
    }
}
