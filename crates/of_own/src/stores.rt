//! What `to` stores into a word.
ghost use Rattle.std.specs.Prelude.{◌≡◌};
ghost use Rattle.of_cells.specs.Outcomes.{Becomes};
ghost use Rattle.of_own.specs.Stores.{both, into_slot, store_entry, store_left, stored_slot};

use crate::slots::slot_span;
use of_board::Board;
use of_cells::Cell;
use of_compile::Words;
use of_dict::{Kind, Slot};
use of_prims::throw_of;
use of_stacks::Throw;

/// The slot of a word that is one of each instance, where that can be stored into.
#[inline]
fn stored_slot(kind: Option<Kind>) -> Option<u32>
    ensures { result ≡ stored_slot kind }
{
    match kind {
        Some(
            Kind::PerInstance {
                slot: Slot::Value | Slot::Defer,
                number,
            },
        ) => Some(number),
        _ => None,
    }
}

/// ( x -- ) stores into a slot of the current instance.
#[inline(never)]
fn store_in_slot(number: u32, words: &mut Words, board: &mut Board) -> Result<(), Throw>
    ensures { let old = both words.old board.old in
        Becomes (store_left (into_slot number board.old board.old.stack) old) old (both words.new board.new) result }
{
    let x = board.stack.peek()?;
    let span = slot_span(board, number)?;
    if let Err(fault) = board.memory.write32(span.address, x) {
        return Err(throw_of(fault));
    }
    board.stack.drop_top(1);
    Ok(())
}

/// `to` ( x -- ) stores into the word of an execution token: a value, or a defer; where that is one of each instance,
/// into its slot in the current one (Forth 2012, 6.2.2295; IEEE 1275-1994, annex A).
///
/// -4 without a cell, -260 where the current instance isn't one of the word's package, -32 for any other word or
/// number.
/// A throw changes nothing.
#[inline]
pub fn store(xt: Cell, words: &mut Words, board: &mut Board) -> Result<(), Throw>
    ensures { let old = both words.old board.old in
        Becomes (store_left (store_entry xt.0 words.old board.old) old) old (both words.new board.new) result }
{
    match stored_slot(words.kind_at(xt)) {
        Some(number) => store_in_slot(number, words, board),
        None => words.store(xt, &mut board.stack),
    }
}
