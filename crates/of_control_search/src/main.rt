//! Tries all short lists of elements, each as far as its beginning has a matching: a plain search for matchings and for
//! tight bodies, against the calls of `Control` and what is compiled from their answers; a plain layout of the items,
//! against the code that the compiler of definitions makes; and runs by the structure of the body, against runs by the
//! cells of the code. What is closed is made in a store of bytes, too.
#![tactic(auto)]

mod body;
mod calls;
mod code;
mod element;
mod item;
mod matching;
mod running;
mod tally;
mod text;

use element::{ELEMENTS, Element, LENGTH};
use std::alloc::{AllocError, Global};
use std::io;
use tally::Tally;

fn main(rt: HostRuntime) -> io::Result<()> {
    let mut tally = Tally::default();
    walk(rt.alloc(), &mut tally, [Element::Plain; LENGTH], LENGTH)?;
    println!(rt; "{tally}")
}

/// Tries a list that has room for `left` elements more, and, if it has a matching, each list that it is the beginning
/// of.
fn walk(
    alloc: Global,
    tally: &mut Tally,
    elements: [Element; LENGTH],
    left: usize,
) -> Result<(), AllocError> {
    let length = LENGTH.saturating_sub(left);
    let list = elements.get(..length).unwrap_or(&elements[..]);
    if tally.take(alloc, list)? && left > 0 {
        for element in ELEMENTS {
            let mut longer = elements;
            if let Some(place) = longer.get_mut(length) {
                *place = element;
            }
            walk(alloc, tally, longer, left - 1)?;
        }
    }
    Ok(())
}
