//! Where the items of a source stand in its text, and the words that begin it and end it.
ghost use Rattle.std.specs.Prelude.{◌≡◌, ◌++◌, length, IfOk, OnOk};
ghost use Rattle.of_source.specs.Places.{last_place};
ghost use Rattle.of_source.specs.Positions.{given_at, item_places, places_from};

use crate::fault::SourceFault;
use crate::parser::Parser;
use crate::source::{Beyond, last_place, past_comments};
use of_scan::Rest;
use std::alloc::{AllocError, Global};

/// Adds a position so many times.
#[tactic(auto, using(crate::proofs::PositionLemmas::at_one_place))]
fn add_times(places: &mut Vec<usize>, count: usize, place: usize) -> Result<(), AllocError>
    ensures { OnOk result (places.new.items ≡ places.old.items ++ given_at count place) }
{
    for _ in 0..count {
        places.push(place)?;
    }
    Ok(())
}

/// Adds the positions of the items of the words from here on, and of the end.
fn add_from(places: &mut Vec<usize>, mut parser: Parser<'_>, text: &[u8]) -> Result<(), AllocError>
    ensures { OnOk result (places.new.items
        ≡ places.old.items ++ places_from (last_place text.now) (length text.now) parser.entry) }
{
    let last = last_place(text);
    for _ in 0..text.len() {
        let before = parser.count();
        match parser.next(last) {
            Ok(true) => {
                let more = parser.count().saturating_sub(before);
                add_times(places, more, parser.at())?;
            }
            Ok(false) => {
                places.push(parser.at())?;
                return Ok(());
            }
            Err(SourceFault::NoMemory) => return Err(AllocError),
            Err(_) => return Ok(()),
        }
    }
    Ok(())
}

/// The positions of the word that begins a source, of its items, in their order, and of the word that ends it: each
/// item has that of the word that gave it, a position being how many bytes stand before that. In a text that isn't
/// accepted these are the items before its fault.
///
/// Fails where there is no memory for them.
#[tactic(auto, unfolding(crate::specs::Positions::item_places))]
pub fn item_places(alloc: Global, text: &[u8]) -> Result<Vec<usize>, AllocError>
    ensures { IfOk result (λ places. places.items ≡ item_places text.now) }
{
    let mut places = Vec::new(alloc);
    if let Beyond::Word(word, rest) = past_comments(Rest::new(text), text.len()) {
        places.push(word.at)?;
        add_from(&mut places, Parser::new(alloc, rest), text)?;
    }
    Ok(places)
}
