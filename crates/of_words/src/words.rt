ghost use Rattle.std.specs.Prelude.{◌≡◌, true};
ghost use Rattle.of_words.specs.Words.{grows, word_entry};
ghost use Rattle.of_stacks.specs.Stacks.{Makes};

use crate::console_words::run_console_word;
use crate::heap::run_heap_word;
use crate::printing::run_printing_word;
use of_board::Board;
use of_fcodes::{PrimitiveWord, Word};
use of_instances::{run_properties_word, run_tree_word};
use of_prims::prim;
use of_stacks::{Stop, Throw};

/// Runs a word over the data stack, the data space and the pictured text; a throw changes nothing.
#[inline]
pub fn run_primitive(word: PrimitiveWord, board: &mut Board) -> Result<(), Stop>
    ensures value { Makes (grows (Word.Primitive word)) (word_entry (Word.Primitive word) board.old) board.old board.new
        result }
    ensures ready { board.old.console.ready ≡ true → board.new.console.ready ≡ true }
{
    prim(
        word,
        &mut board.stack,
        &mut board.memory,
        &mut board.pictured,
    )?;
    Ok(())
}

/// Runs an ordinary word; a stop changes nothing. A group that works on more than the board throws -256.
#[inline]
pub fn run_word(word: Word, board: &mut Board) -> Result<(), Stop>
    ensures value { Makes (grows word) (word_entry word board.old) board.old board.new result }
    ensures ready { board.old.console.ready ≡ true → board.new.console.ready ≡ true }
{
    match word {
        Word::Primitive(word) => run_primitive(word, board),
        Word::Printing(word) => run_printing_word(word, board),
        Word::Heap(word) => run_heap_word(word, board),
        Word::Stream(_) => Err(Stop::Thrown(Throw::NOT_ASSIGNED)),
        Word::Keys(_) => Err(Stop::Thrown(Throw::NOT_ASSIGNED)),
        Word::Returns(_) => Err(Stop::Thrown(Throw::NOT_ASSIGNED)),
        Word::Dictionary(_) => Err(Stop::Thrown(Throw::NOT_ASSIGNED)),
        Word::Throws(_) => Err(Stop::Thrown(Throw::NOT_ASSIGNED)),
        Word::Properties(word) => run_properties_word(word, board),
        Word::Tree(word) => run_tree_word(word, board),
        Word::Devices(_) => Err(Stop::Thrown(Throw::NOT_ASSIGNED)),
        Word::Console(word) => run_console_word(word, board),
        Word::Parsing(_) => Err(Stop::Thrown(Throw::NOT_ASSIGNED)),
        Word::Compiling(_) => Err(Stop::Thrown(Throw::NOT_ASSIGNED)),
    }
}
