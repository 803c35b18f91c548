//! From which word of a source its image's header and each token come.
ghost use Rattle.std.specs.Prelude.{◌≡◌, ◌++◌, map, length, if◌then◌else◌, IfOk, OnOk};
ghost use Rattle.of_source.specs.Items.{item_shown};
ghost use Rattle.of_tok.specs.Origins.{image_origins, item_codes, origins};

use of_source::{Item, Source};
use std::alloc::{AllocError, Global};

/// Whether an item becomes two tokens, and not one.
fn is_double(item: &Item) -> bool
    ensures { length (item_codes (item_shown item.now)) ≡ (if result then 2 else 1) }
{
    matches!(item, Item::Colon(_) | Item::Defining(_, _) | Item::Else(_))
}

/// Adds where the tokens of items come from, and the last token.
fn add_origins(
    found: &mut Vec<usize>,
    mut items: &[Item],
    mut places: &[usize],
) -> Result<(), AllocError>
    ensures { OnOk result (found.new.items
        ≡ found.old.items ++ origins (map item_shown items.entry.now) places.entry.now) }
{
    while let [item, more @ ..] = items {
        let [place, rest @ ..] = places else {
            return Ok(());
        };
        found.push(*place)?;
        if is_double(item) {
            found.push(*place)?;
        }
        items = more;
        places = rest;
    }
    if let [place, ..] = places {
        found.push(*place)?;
    }
    Ok(())
}

/// The positions of the words from which the image of a source comes, which `item_places` of the text gives: that of
/// the header from the first, then those of the tokens, in the order of the image, each item's from the item's
/// position, and that of `end0` from the last.
///
/// Fails where there is no memory for them.
pub fn image_origins(
    alloc: Global,
    source: &Source,
    places: &[usize],
) -> Result<Vec<usize>, AllocError>
    ensures { IfOk result (λ found. found.items ≡ image_origins source.now.items places.now) }
{
    let mut found = Vec::new(alloc);
    if let [start, rest @ ..] = places {
        found.push(*start)?;
        add_origins(&mut found, source.items(), rest)?;
    }
    Ok(found)
}
