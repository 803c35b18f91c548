//! What is open before a cell of a definition.
ghost use Rattle.std.specs.Prelude.{◌≡◌, ◌<◌, [], IfSome, OnOk};
ghost use Rattle.of_code.specs.Items.{capacity};
ghost use Rattle.of_see.specs.SeeItems.{open_after, opened, with_branch};

use crate::cases::{leave_others, pass_cases};
use crate::definition::branch_of;
use of_code::Item;
use std::alloc::{AllocError, Global};
use std::marker::Model;

/// What is open before a cell.
#[derive(Drop)]
pub(crate) struct Open {
    /// Where the branches go that no `then` has ended, the latest first.
    pub(crate) branches: Vec<u32>,
    /// Where the cases end that have an `endof`.
    pub(crate) cases: Vec<u32>,
}

impl Model for Open {
    ghost use Rattle.of_see.specs.SeeItems.{Open as Structures};

    ghost Value = { Structures };

    ghost view = { λ o. record { branches = o.branches.items; cases = o.cases.items } };
}

/// Keeps where a branch goes, if there is one and it goes forward.
fn keep_branch(
    place: u32,
    branch: Option<(bool, u32)>,
    branches: &mut Vec<u32>,
) -> Result<(), AllocError>
    ensures { OnOk result (branches.new.items ≡ with_branch place branch branches.old.items) }
{
    let Some((_, to)) = branch else {
        return Ok(());
    };
    if place < to {
        branches.insert(0, to)?;
    }
    Ok(())
}

impl Open {
    /// Nothing is open.
    pub(crate) fn new(alloc: Global) -> Open
        ensures { result ≡ record { branches = []; cases = [] } }
    {
        Open {
            branches: Vec::new(alloc),
            cases: Vec::new(alloc),
        }
    }

    /// Keeps what an item at a cell leaves open.
    fn pass_item(&mut self, place: u32, item: Item) -> Result<(), AllocError>
        requires { place < capacity }
        ensures { OnOk result (self.new ≡ opened place item self.old) }
    {
        leave_others(place, &mut self.branches);
        keep_branch(place, branch_of(item), &mut self.branches)?;
        pass_cases(place, item, &mut self.cases)
    }

    /// Keeps what a cell leaves open.
    pub(crate) fn pass(&mut self, place: u32, cell: Option<Item>) -> Result<(), AllocError>
        requires { place < capacity }
        ensures { OnOk result (self.new ≡ open_after place cell self.old) }
    {
        match cell {
            Some(item) => self.pass_item(place, item),
            None => Ok(()),
        }
    }
}
