//! Items by the words in which they stand.
ghost use Rattle.std.specs.Prelude.{◌≡◌, drop};
ghost use Rattle.of_code.specs.Numbering.{item_count_in, item_place_in, items_between, items_to_return};

use crate::{CodeStore, Item, Place};
use of_cells::Cell;

/// An item of a finished word.
#[derive(Clone, Copy)]
pub struct ItemPlace {
    /// The word's execution token.
    pub xt: Cell,
    /// The item's number: a word's items are numbered from 0 in order, and its return is the last.
    pub item: usize,
}

/// How many items begin from one cell on and before another.
#[tactic(auto, using(crate::proofs::NumberingLemmas::between_more))]
fn items_between<C: CodeStore>(code: &C, from: u32, to: u32) -> usize
    ensures { result ≡ items_between from to (C.code code.now).cells }
{
    let mut count = 0;
    for cell in from..to {
        count += usize::from(code.item_at(Place { cell }).is_some());
    }
    count
}

/// The word and the number of the item that begins at a place, if one of a finished word does.
pub fn item_place<C: CodeStore>(code: &C, place: Place) -> Option<ItemPlace>
    ensures { result ≡ item_place_in (C.code code.now) place }
{
    if code.item_at(place).is_none() {
        return None;
    }
    let word = code.word_at(place)?;
    Some(ItemPlace {
        xt: word.xt,
        item: items_between(code, word.place.cell, place.cell),
    })
}

/// How many items begin from a place on up to the first return, with it.
fn items_to_return<C: CodeStore>(code: &C, from: Place) -> usize
    ensures { result ≡ items_to_return (drop from.cell (C.code code.now).cells) }
{
    let mut count = 0;
    for cell in from.cell..code.end().cell {
        let item = code.item_at(Place { cell });
        count += usize::from(item.is_some());
        if matches!(item, Some(Item::Return)) {
            return count;
        }
    }
    count
}

/// How many items a finished word has, its return counted; of several words `xt` the latest counts. None if no word
/// `xt` was finished.
pub fn item_count<C: CodeStore>(code: &C, xt: Cell) -> Option<usize>
    ensures { result ≡ item_count_in (C.code code.now) xt }
{
    Some(items_to_return(code, code.start_of(xt)?))
}
