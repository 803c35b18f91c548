// From the front: where each item stands, and where a closer leads there.

ghost use Rattle.std.specs.Prelude.{◌≡◌, ◌≤◌, ◌<◌, ◌+◌, [], length, map, reverse, drop, OnOk, IfOk, IfErr};
ghost use Rattle.std.specs.List.{All};
ghost use Rattle.of_source.specs.Encodable.{HasBytes};
ghost use Rattle.of_source.specs.Items.{item_shown};
ghost use Rattle.of_tok.specs.Image.{most_bytes};
ghost use Rattle.of_tok.specs.Layout.{after, end_place, placed, starts_after, CannotPlace};
ghost use Rattle.of_tok.specs.Places.{first_place};
ghost use Rattle.of_tok.specs.Shown.{placed_shown};
ghost use Rattle.of_tok.specs.Tokens.{first, others};

use crate::fault::TokFault;
use crate::place::Place;
use crate::token::{call, maker_token, plain_token};
use of_source::Item;
use std::alloc::{AllocError, Global};
use std::marker::Model;

/// The most bytes of an image.
pub const MOST_BYTES: usize = 0x4_0000;

/// An item at its place, with the position to which a closer leads there.
#[derive(Clone, Copy)]
pub struct Placed<'a> {
    /// The item.
    pub item: &'a Item,
    /// The place of its first token.
    pub place: Place,
    /// The position behind the innermost open `begin` or `do`.
    pub start: usize,
    /// The position behind the item.
    pub next: usize,
}

/// The latest position, 0 where there is none.
pub fn first(positions: &[usize]) -> usize
    ensures { result ≡ first (reverse positions.now) }
{
    match positions.last() {
        Some(position) => *position,
        None => 0,
    }
}

/// How far the items have places.
#[derive(Drop)]
pub struct Front<'a> {
    placed: Vec<Placed<'a>>,
    starts: Vec<usize>,
    place: Place,
}

// Clauses see what is open latest first.
impl<'a> Model for Front<'a> {
    ghost use Rattle.std.specs.Prelude.{map, reverse};
    ghost use Rattle.of_tok.specs.Layout.{Front as Places};
    ghost use Rattle.of_tok.specs.Shown.{placed_shown};

    ghost Value = { Places };

    ghost view = { λ f. record {
      placed = map placed_shown f.placed.items;
      starts = reverse f.starts.items;
      place = f.place;
    } };
}

/// Behind an item.
fn after(item: &Item, place: Place) -> Place
    requires near { place.position ≤ most_bytes }
    requires bytes { HasBytes (item_shown item.now) }
    ensures { result ≡ after (item_shown item.now) place }
{
    match item {
        Item::Plain(plain) => place.behind(&plain_token(plain)),
        Item::Colon(made) => place.behind(&maker_token(made)).past(1),
        Item::Defining(made, code) => place.behind(&maker_token(made)).behind(&call(*code)),
        Item::Else(_) => place.past_offset().past(1),
        Item::If(_)
        | Item::Back(_, _)
        | Item::Do(_, _)
        | Item::Loop(_, _)
        | Item::Of(_)
        | Item::EndOf(_) => place.past_offset(),
        _ => place.past(1),
    }
}

/// Goes past an item with the positions behind what is open.
fn pass(starts: &mut Vec<usize>, item: &Item, place: Place) -> Result<(), AllocError>
    requires { place.position ≤ most_bytes }
    ensures { OnOk result
        (reverse starts.new.items ≡ starts_after (item_shown item.now) place (reverse starts.old.items)) }
{
    match item {
        Item::Begin => starts.push(place.past(1).position)?,
        Item::Do(_, _) => starts.push(place.past_offset().position)?,
        Item::Back(_, _) | Item::Loop(_, _) => {
            let _ = starts.pop();
        }
        _ => {}
    }
    Ok(())
}

impl<'a> Front<'a> {
    ghost use Rattle.of_tok.specs.Layout.{front_at, placing};

    /// Nothing has a place yet, and the first is this.
    fn new(alloc: Global, place: Place) -> Self
        ensures { result ≡ front_at place }
    {
        Front {
            placed: Vec::new(alloc),
            starts: Vec::new(alloc),
            place,
        }
    }

    /// Gives the next item its place.
    fn put(&mut self, item: &'a Item) -> Result<(), AllocError>
        requires near { self.old.place.position ≤ most_bytes }
        requires bytes { HasBytes (item_shown item.now) }
        ensures { OnOk result (self.new ≡ placing (item_shown item.now) self.old) }
    {
        let next = after(item, self.place);
        self.placed.push(Placed {
            item,
            place: self.place,
            start: first(&self.starts),
            next: next.position,
        })?;
        pass(&mut self.starts, item, self.place)?;
        self.place = next;
        Ok(())
    }
}

/// The items at their places from one on, and the place behind them all.
///
/// ImageTooLong where that lies at or behind 262,144, which leaves no room for `end0`; NoMemory.
pub fn place_items(
    alloc: Global,
    items: &[Item],
    first_place: Place,
) -> Result<(Vec<Placed<'_>>, Place), TokFault>
    requires near { first_place.position < most_bytes }
    requires bytes { All (λ i. HasBytes (item_shown i)) items.now }
    ensures items { IfOk result
        (λ r. map placed_shown r.0.items ≡ placed (map item_shown items.now) first_place []) }
    ensures end { IfOk result (λ r. r.1 ≡ end_place (map item_shown items.now) first_place) }
    ensures room { IfOk result (λ r. r.1.position < most_bytes) }
    ensures fault { IfErr result (CannotPlace (map item_shown items.now) first_place) }
{
    let mut front = Front::new(alloc, first_place);
    for item in items {
        front.put(item)?;
        if front.place.position >= MOST_BYTES {
            return Err(TokFault::ImageTooLong);
        }
    }
    let Front { placed, place, .. } = front;
    Ok((placed, place))
}
