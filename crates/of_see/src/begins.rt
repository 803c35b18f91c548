//! How many items go back to each cell of a definition.
ghost use Rattle.std.specs.Prelude.{◌≡◌, ◌<◌, ◌≤◌, ◌+◌, ◌-◌, length, slice_index, IfOk, IfSome};
ghost use Rattle.of_code.specs.Items.{capacity};
ghost use Rattle.of_see.specs.Begins.{all_begins, counted, gone_back};

use crate::definition::branch_of;
use of_code::Item;
use std::alloc::{AllocError, Global};

/// Which cell of a definition the item in one of its cells goes back to, if it does.
fn gone_back(first: u32, index: u32, cell: Option<Item>) -> Option<usize>
    requires { first + index ≤ capacity }
    ensures to { result ≡ gone_back first index cell }
    ensures back { IfSome result (λ to. to ≤ index) }
{
    let (_, to) = branch_of(cell?)?;
    if to < first || to > first + index {
        return None;
    }
    Some((to - first) as usize)
}

/// Counts one more at a place, if there is one.
fn count_one(counts: &mut [u32], at: Option<usize>)
    requires { IfSome at (λ i. (i < length counts.old) × (slice_index counts.old i ≤ capacity)) }
    ensures { counts.new ≡ counted counts.old at }
{
    if let Some(index) = at {
        counts[index] += 1;
    }
}

/// How many items go back to each cell of a definition, which begins at a cell of the code.
pub(crate) fn all_begins(
    alloc: Global,
    first: u32,
    cells: &[Option<Item>],
) -> Result<Vec<u32>, AllocError>
    requires { length cells.now ≤ capacity - first }
    ensures { IfOk result (λ counts. counts.items ≡ all_begins first cells.now) }
{
    let mut counts = vec![in alloc; 0u32; cells.len()]?;
    for (index, cell) in cells.iter().enumerate() {
        count_one(&mut counts, gone_back(first, index as u32, *cell));
    }
    Ok(counts)
}
