//! What the name of a word finds.
ghost use Rattle.of_cells.specs.Outcomes.{Becomes};
ghost use Rattle.of_own.specs.Finding.{find_entry, found_at};
ghost use Rattle.std.specs.Prelude.{◌≡◌};

use of_board::Board;
use of_cells::Cell;
use of_compile::Words;
use of_prims::throw_of;
use of_stacks::Throw;
use of_text::Names;

/// The execution token of the name of so many bytes at an address, if it finds one; -9 where a byte can't be read.
fn found_at(
    words: &Words,
    board: &Board,
    address: Cell,
    length: Cell,
) -> Result<Option<Cell>, Throw>
    ensures { result ≡ found_at words.now board.now address length }
{
    let names = Names {
        tree: &board.tree,
        home: board.active.package,
        words,
    };
    match board.memory.slice(address, length) {
        Ok(name) => Ok(names.xt(name)),
        Err(fault) => Err(throw_of(fault)),
    }
}

/// `$find` ( s n -- xt true, or s n false ): the word of a name in the search order of texts (IEEE 1275-1994, 5.3.2
/// and annex A; Forth 2012, 3.4.2). An empty name finds none.
///
/// -4 with fewer than two cells, -9 where a byte of the name can't be read, -3 where `false` finds no room.
pub fn find(words: &Words, board: &mut Board) -> Result<(), Throw>
    ensures { Becomes (find_entry words.now board.old) board.old board.new result }
{
    let (address, length) = board.stack.top_two()?;
    match found_at(words, board, address, length)? {
        Some(xt) => {
            board.stack.replace_two(xt);
            board.stack.push(Cell::TRUE);
            Ok(())
        }
        None => board.stack.try_push(Cell::ZERO),
    }
}
