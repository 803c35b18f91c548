ghost use Rattle.std.specs.Prelude.{◌≡◌, ◌==◌, [], find, nat_le, option_copied, reverse};
ghost use Rattle.of_code.specs.Code.{spare_calls};

use crate::{CAPACITY, CodeFault, CodeStore, Item, Place, Start};
use of_cells::Cell;
use std::alloc::{AllocError, Global};
use std::marker::Model;

/// How many cells the longest item takes.
const LONGEST_ITEM: usize = 3;

/// Code as a list of cells, each with the item that begins there.
#[derive(Drop)]
pub struct ListCode {
    cells: Vec<Option<Item>>,
    opened: Place,
    starts: Vec<Start>,
}

impl Model for ListCode {
    ghost use Rattle.std.specs.Prelude.{◌≤◌, ◌-◌, length, reverse, vec_len, vec_capacity};
    ghost use Rattle.of_code.specs.Items.{capacity};
    ghost use Rattle.of_code.specs.Code.{Roomy};

    ghost Value = { Roomy };

    ghost view = { λ c. record {
      code = record { cells = c.cells.items; opened = c.opened; starts = reverse c.starts.items };
      free_cells = vec_capacity c.cells - vec_len c.cells;
      free_starts = vec_capacity c.starts - vec_len c.starts;
    } };

    ghost invariant = { λ c. (length c.cells.items ≤ capacity) × (c.opened.cell ≤ length c.cells.items) };
}

/// The latest start of the word `xt`.
fn latest_start(starts: &[Start], xt: Cell) -> Option<&Start>
    ensures { option_copied result ≡ find (λ start. start.xt.0 == xt.0) (reverse starts.now) }
{
    starts.iter().rev().find(|start| start.xt.0 == xt.0)
}

/// The latest start at a place or before it.
fn latest_up_to(starts: &[Start], place: Place) -> Option<&Start>
    ensures { option_copied result ≡ find (λ start. nat_le start.place.cell place.cell) (reverse starts.now) }
{
    starts
        .iter()
        .rev()
        .find(|start| start.place.cell <= place.cell)
}

impl ListCode {
    /// No code, and no memory yet.
    pub fn new(alloc: Global) -> ListCode
        ensures { result.code ≡ record { cells = []; opened = record { cell = 0 }; starts = [] } }
    {
        ListCode {
            cells: Vec::new(alloc),
            opened: Place { cell: 0 },
            starts: Vec::new(alloc),
        }
    }
}

impl CodeStore for ListCode {
    ghost code = { λ c. c.code };

    ghost spare = { spare_calls };

    fn reserve(&mut self, calls: usize) -> Result<(), AllocError> {
        self.cells.reserve(LONGEST_ITEM * calls)?;
        self.starts.reserve(calls)?;
        Ok(())
    }

    fn append(&mut self, item: Item) -> Result<Place, CodeFault> {
        let cell = self.cells.len();
        let count = item.cells() as usize;
        if cell + count > CAPACITY {
            return Err(CodeFault::Full);
        }
        let new = [Some(item), None, None];
        self.cells.extend_from_slice(&new[..count])?;
        Ok(Place { cell: cell as u32 })
    }

    #[inline(always)]
    fn item_at(&self, place: Place) -> Option<Item> {
        *self.cells.get(place.cell as usize)?
    }

    #[inline(always)]
    fn item_and_next(&self, place: Place) -> Option<(Item, Place)> {
        let item = (*self.cells.get(place.cell as usize)?)?;
        let next = Place {
            cell: place.cell + item.cells(),
        };
        Some((item, next))
    }

    fn set_target(&mut self, at: Place, to: Place) {
        if let Some(item) = self.item_at(at) {
            self.cells[at.cell as usize] = Some(item.with_target(to));
        }
    }

    fn finish(&mut self, xt: Cell) -> Result<(), CodeFault> {
        if self.cells.len() + 1 > CAPACITY {
            return Err(CodeFault::Full);
        }
        self.starts.reserve(1)?;
        self.cells.push(Some(Item::Return))?;
        let place = self.opened;
        self.starts.push(Start { xt, place }).unwrap();
        self.opened = self.end();
        Ok(())
    }

    fn start_of(&self, xt: Cell) -> Option<Place> {
        Some(latest_start(&self.starts, xt)?.place)
    }

    fn word_at(&self, place: Place) -> Option<Start> {
        if place.cell >= self.opened.cell {
            return None;
        }
        Some(*latest_up_to(&self.starts, place)?)
    }

    fn opened(&self) -> Place {
        self.opened
    }

    fn end(&self) -> Place {
        Place {
            cell: self.cells.len() as u32,
        }
    }

    fn abandon(&mut self) {
        self.cells.truncate(self.opened.cell as usize);
    }
}
