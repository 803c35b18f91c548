//! Marks: items of finished colon definitions at which a run to a mark stops.
ghost use Rattle.std.specs.Prelude.{◌≡◌};
ghost use Rattle.of_steps.specs.Goals.{is_in, is_marked, is_same};

use of_cells::Cell;
use of_code::ItemPlace;

/// An item of a finished colon definition that is marked.
#[derive(Clone, Copy, Default)]
pub struct Mark {
    /// The definition's execution token.
    pub xt: Cell,
    /// The item's number in it, from 0.
    pub item: usize,
}

impl Mark {
    /// Whether two marks are of one item.
    pub fn is_same(self, other: Mark) -> bool
        ensures { result ≡ is_same self other }
    {
        self.xt.0 == other.xt.0 && self.item == other.item
    }

    /// Whether its item is one of those that are marked.
    pub fn is_in(self, marks: &[Mark]) -> bool
        ensures { result ≡ is_in self marks.now }
    {
        marks.iter().any(|other| self.is_same(*other))
    }
}

/// Whether the item at a place is marked.
pub(crate) fn is_marked(marks: &[Mark], place: Option<ItemPlace>) -> bool
    ensures { result ≡ is_marked marks.now place }
{
    match place {
        Some(place) => {
            let mark = Mark {
                xt: place.xt,
                item: place.item,
            };
            mark.is_in(marks)
        }
        None => false,
    }
}
