ghost use Rattle.std.specs.Prelude.{◌≡◌, ◌≤◌, ◌+◌, length, map, reverse, IfOk, IfErr, Ok};
ghost use Rattle.of_stream.specs.Image.{header_length};
ghost use Rattle.of_source.specs.Encodable.{defines, definitions, most_definitions};
ghost use Rattle.of_source.specs.Nest.{nest_of};
ghost use Rattle.of_source.specs.Items.{item_shown};
ghost use Rattle.of_tok.specs.Image.{AreWritable, IsRefused, bytes_of, most_bytes, tokenized};
ghost use Rattle.of_tok.specs.Shown.{written_shown};
ghost use Rattle.of_tok.specs.Tokens.{tokens_of};

use crate::fault::TokFault;
use crate::header::with_header;
use crate::layout::lay_out;
use crate::place::Place;
use crate::placing::place_items;
use crate::writing::write_tokens;
use crate::written::Written;
use of_source::{Item, Source, items_give_nest};
use std::alloc::Global;

/// The most definitions that have FCodes, 0x800 to 0xFFF.
const MOST_DEFINITIONS: usize = 2048;

/// Whether an item makes a definition.
fn defines(item: &Item) -> bool
    ensures { result ≡ defines (item_shown item.now) }
{
    matches!(item, Item::Colon(_) | Item::Defining(_, _))
}

/// How many definitions there are.
fn definitions(items: &[Item]) -> usize
    ensures { result ≡ definitions (map item_shown items.now) }
{
    let mut count = 0;
    for item in items {
        if defines(item) {
            count += 1;
        }
    }
    count
}

/// The tokens of a source, the last first.
///
/// ImageTooLong where the image has more than 262,144 bytes; NoMemory.
fn tokens_of(alloc: Global, source: &Source) -> Result<Vec<Written<'_>>, TokFault>
    requires { definitions source.now.items ≤ most_definitions }
    ensures tokens { IfOk result (λ ws.
        reverse (map written_shown ws.items) ≡ tokens_of source.now.size (nest_of source.now.items)) }
    ensures writable { IfOk result (λ ws. AreWritable (reverse (map written_shown ws.items))) }
    ensures room { IfOk result (λ ws.
        header_length + length (bytes_of (reverse (map written_shown ws.items))) ≤ most_bytes) }
    ensures err { IfErr result (λ f. IsRefused (tokenized source.now) f) }
{
    items_give_nest();
    let start = Place::first(source.size());
    let (placed, end) = match place_items(alloc, source.items(), start) {
        Ok(found) => found,
        Err(fault) => return Err(fault),
    };
    Ok(lay_out(alloc, placed, end)?)
}

/// The image of a source (IEEE 1275-1994, 5.2.2 and 5.3.3): its header, and the tokens of its nest
/// of words, each offset in the size that holds at its token.
///
/// TooManyWords where there are more than 2,048 definitions; ImageTooLong where the image has more
/// than 262,144 bytes; OffsetTooLong with the position of the first word, in the order of the image,
/// whose offset doesn't fit; in this order. NoMemory.
pub fn tokenize(alloc: Global, source: &Source) -> Result<Vec<u8>, TokFault>
    ensures ok { IfOk result (λ image. tokenized source.now ≡ Ok image.items) }
    ensures err { IfErr result (λ f. IsRefused (tokenized source.now) f) }
{
    if definitions(source.items()) > MOST_DEFINITIONS {
        return Err(TokFault::TooManyWords);
    }
    let tokens = match tokens_of(alloc, source) {
        Ok(tokens) => tokens,
        Err(fault) => return Err(fault),
    };
    let bytes = match write_tokens(alloc, tokens) {
        Ok(bytes) => bytes,
        Err(fault) => return Err(fault),
    };
    Ok(with_header(alloc, source.size(), &bytes)?)
}
