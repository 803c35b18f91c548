//! Counted loops on a return stack, whose top stands last.
ghost use Rattle.std.specs.Prelude.{◌≡◌, reverse, slice_get};
ghost use Rattle.of_stacks.specs.Loops.{open_loops, index_of, passes_limit};

use crate::return_item::ReturnItem;
use crate::throws::Throw;
use of_cells::Cell;

/// Whether a step from the index passes the limit.
#[inline(always)]
pub fn passes_limit(index: Cell, limit: Cell, step: Cell) -> bool
    ensures { result ≡ passes_limit index limit step }
{
    let moved = i64::from(index.sub(limit).0) + i64::from(step.signed());
    moved < 0 || moved >= 1 << 32
}

/// The index of the loop of the running word that so many other ones stand in, or -26 where there is
/// none.
#[tactic(auto, using(crate::proofs::Reversed::reverse_snoc), unfolding(crate::specs::Loops::open_loops))]
pub fn index_inside(items: &[ReturnItem], inner: usize) -> Result<Cell, Throw>
    ensures { result ≡ index_of (slice_get (open_loops (reverse items.now)) inner) }
{
    let [beneath @ .., item] = items else {
        return Err(Throw::LOOP_UNAVAILABLE);
    };
    match item {
        ReturnItem::Loop(found) => {
            if inner == 0 {
                return Ok(found.index);
            }
            index_inside(beneath, inner - 1)
        }
        ReturnItem::User(_) => index_inside(beneath, inner),
        ReturnItem::Handler(_) => index_inside(beneath, inner),
        ReturnItem::Return(_) => Err(Throw::LOOP_UNAVAILABLE),
        ReturnItem::Source(_) => Err(Throw::LOOP_UNAVAILABLE),
        ReturnItem::Caller(_) => Err(Throw::LOOP_UNAVAILABLE),
    }
}
