//! Items that wait for the end of the loop or case in which they stand.
ghost use Rattle.std.specs.Prelude.{◌≡◌, ◌≤◌, slice_set};
ghost use Rattle.of_code.specs.Items.{capacity};
ghost use Rattle.of_code.specs.Code.{item_in};
ghost use Rattle.of_compile.specs.Coding.{aimed_cell, aimed_from, waits};

use of_code::{CodeStore, Item, Place};

/// Which items wait for the end of a structure.
#[derive(Clone, Copy)]
pub enum Waiting {
    /// Each `leave` of a loop.
    Leaves,

    /// Each `endof` of a case.
    Arms,
}

impl Waiting {
    /// Whether an item waits: its target isn't known yet.
    fn waits(self, item: &Item) -> bool
        ensures { result ≡ waits self item.now }
    {
        match self {
            Waiting::Leaves => matches!(item, Item::Leave(to) if to.cell == 0),
            Waiting::Arms => matches!(item, Item::EndOf(to) if to.cell == 0),
        }
    }
}

/// Gives the item of a cell a target, if it waits for one.
fn aim<C: CodeStore>(waiting: Waiting, at: Place, to: Place, code: &mut C)
    requires { to.cell ≤ capacity }
    ensures code { C.code code.new ≡ record (C.code code.old) {
      cells = slice_set (C.code code.old).cells at.cell (aimed_cell waiting to (item_in (C.code code.old) at));
    } }
    ensures spare { C.spare code.new ≡ C.spare code.old }
{
    if let Some(item) = code.item_at(at) {
        if waiting.waits(&item) {
            code.set_target(at, to);
        }
    }
}

/// Gives each item that waits a target, from a place on.
pub(crate) fn aim_from<C: CodeStore>(waiting: Waiting, from: Place, to: Place, code: &mut C)
    requires { to.cell ≤ capacity }
    ensures code { C.code code.new ≡ aimed_from waiting from to (C.code code.old) }
    ensures spare { C.spare code.new ≡ C.spare code.old }
{
    let mut cell = code.end().cell;
    while from.cell < cell {
        cell -= 1;
        aim(waiting, Place { cell }, to, code);
    }
}
