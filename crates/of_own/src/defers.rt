//! What defers lead to.
ghost use Rattle.std.specs.Prelude.{◌≡◌, None, Ok, false, true, MatchResult};
ghost use Rattle.std.specs.Option.{option_map};
ghost use Rattle.of_cells.specs.Outcomes.{Becomes};
ghost use Rattle.of_own.specs.Defers.{behavior_entry, deferred_to, deferring_slot, executable};

use crate::slots::slot_cell;
use of_board::Board;
use of_cells::Cell;
use of_compile::Words;
use of_dict::{Kind, Slot};
use of_stacks::Throw;

/// Whether a word is a defer.
#[inline(always)]
pub fn is_deferred(kind: Option<Kind>) -> bool
    ensures no { result ≡ false → (b : Board) → deferred_to kind b ≡ Ok None }
    ensures yes { result ≡ true → (b : Board) → deferred_to kind b ≡ Ok None → ⊥ }
{
    matches!(
        kind,
        Some(
            Kind::Defer { .. }
                | Kind::PerInstance {
                    slot: Slot::Defer,
                    ..
                }
        )
    )
}

/// The execution token that a defer keeps, if the word is one; -260 where the current instance has it not.
fn deferred_to(kind: Option<Kind>, board: &Board) -> Result<Option<Cell>, Throw>
    ensures { MatchResult result (λ o. deferred_to kind board.now ≡ Ok (option_map (λ x. x.0) o))
        (λ t. deferred_to kind board.now ≡ Err t) }
{
    match kind {
        Some(Kind::Defer { xt }) => Ok(Some(xt)),
        Some(
            Kind::PerInstance {
                slot: Slot::Defer,
                number,
            },
        ) => Ok(Some(slot_cell(board, number)?)),
        _ => Ok(None),
    }
}

/// What an execution token comes to behind its defers (Forth 2012, 6.2.1173).
///
/// -263 where the chain never leaves them, -260 where the current instance hasn't a defer that is one of each instance.
#[tactic(auto, using(crate::proofs::Chains::goes_on, crate::proofs::Chains::stops, crate::proofs::Chains::breaks))]
pub fn follow(words: &Words, board: &Board, xt: Cell) -> Result<Cell, Throw>
    ensures { MatchResult result (λ x. executable words.now board.now xt.0 ≡ Ok x.0)
        (λ t. executable words.now board.now xt.0 ≡ Err t) }
{
    let mut xt = xt;
    let mut left = words.dictionary().made() + 1;
    while left > 0 {
        match deferred_to(words.kind_at(xt), board)? {
            Some(to) => xt = to,
            None => return Ok(xt),
        }
        left -= 1;
    }
    Err(Throw::BAD_HANDLE)
}

/// The slot of a defer that is one of each instance.
fn deferring_slot(kind: Option<Kind>) -> Option<u32>
    ensures { result ≡ deferring_slot kind }
{
    match kind {
        Some(
            Kind::PerInstance {
                slot: Slot::Defer,
                number,
            },
        ) => Some(number),
        _ => None,
    }
}

/// `behavior` ( xt -- xt ): what a defer executes, 0 where it was never set (IEEE 1275-1994, annex A).
///
/// -4 without a cell, -260 where the current instance hasn't the defer, -263 for a number that is no word, -32 for any
/// other word.
pub fn behavior(words: &Words, board: &mut Board) -> Result<(), Throw>
    ensures { Becomes (behavior_entry words.now board.old) board.old board.new result }
{
    let xt = board.stack.peek()?;
    match deferring_slot(words.kind_at(xt)) {
        Some(number) => {
            let behavior = slot_cell(board, number)?;
            board.stack.replace_top(behavior);
            Ok(())
        }
        None => words.behavior(&mut board.stack),
    }
}
