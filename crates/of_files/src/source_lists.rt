//! What is listed of sources: the words that they make, and their images.
ghost use Rattle.std.specs.Prelude.{◌≡◌, ◌++◌, map, true, IfOk, IfErr, IfSome, OnOk};
ghost use Rattle.std.specs.Io.KnownBytes.{Appends};
ghost use Rattle.std.specs.List.{flat_map};
ghost use Rattle.of_files.specs.Faults.{EndsWith, IsUnwritten, is_done};
ghost use Rattle.of_files.specs.Messages.{AppendsPart};
ghost use Rattle.of_files.specs.Saying.{Said};
ghost use Rattle.of_files.specs.Sources.{FaultsSource, HasLines, HasListing, HasSymbols, Lists, item_line, symbol_line};
ghost use Rattle.of_files.specs.Sources.{with_names};
ghost use Rattle.of_detok.specs.Listing.{listed_so_far};
ghost use Rattle.of_margin.specs.Margin.{beside_lines};
ghost use Rattle.of_source.specs.Items.{item_shown, made_shown};

use crate::fault::{Fault, no_image, no_source};
use crate::input::read_whole;
use crate::messages::Messages;
use crate::output::{report, write_whole};
use crate::sources::report_in;
use hex::encode;
use of_arguments::Status;
use of_detok::{Extras, partial_listing};
use of_margin::beside_lines;
use of_source::{Item, Made, item_places, parse};
use of_tok::{image_origins, tokenize};
use std::alloc::{AllocError, Global};
use std::io::{Read, Write};

/// What is listed of a source.
#[derive(Clone, Copy)]
pub enum SourceList {
    /// The FCode and the name of each word that it makes, in the order in which it makes them.
    Symbols,
    /// The tokens of its image, each with the line of the source beside it that it comes from.
    Tokens,
}

/// The line of a word that a source makes: its FCode in hexadecimal digits, and its name.
fn push_symbol(alloc: Global, made: &Made, out: &mut Vec<u8>) -> Result<(), AllocError>
    ensures { OnOk result (out.new.items ≡ out.old.items ++ symbol_line (made_shown made.now)) }
{
    let code = ((made.number % 0x1_0000 + 0x800) % 0x1_0000) as u16;
    let digits = encode(alloc, code.to_be_bytes())?;
    out.extend_from_slice(digits.as_bytes())?;
    out.push(b' ')?;
    out.extend_from_slice(&made.name)?;
    out.push(b'\n')?;
    Ok(())
}

/// The line of an item that makes a word; of another one nothing.
fn push_item(alloc: Global, item: &Item, out: &mut Vec<u8>) -> Result<(), AllocError>
    ensures { OnOk result (out.new.items ≡ out.old.items ++ item_line (item_shown item.now)) }
{
    match item {
        Item::Colon(made) => push_symbol(alloc, made, out),
        Item::Defining(made, _) => push_symbol(alloc, made, out),
        _ => Ok(()),
    }
}

/// The lines of the words that items make, in the order in which they make them.
#[tactic(auto, using(std::proofs::lemmas::List::append_assoc))]
fn symbol_lines(alloc: Global, items: &[Item]) -> Result<Vec<u8>, AllocError>
    ensures { IfOk result (λ lines. lines.items ≡ flat_map item_line (map item_shown items.now)) }
{
    let mut lines = Vec::new(alloc);
    let mut rest = items;
    while let [item, more @ ..] = rest {
        push_item(alloc, item, &mut lines)?;
        rest = more;
    }
    Ok(lines)
}

/// The lines of the words of a text's source.
fn symbols_of(alloc: Global, text: &[u8]) -> Result<Vec<u8>, Fault>
    ensures ok { IfOk result (λ lines. HasSymbols text.now lines.items) }
    ensures err { IfErr result (λ f. FaultsSource text.now f) }
{
    let source = match parse(alloc, text) {
        Ok(source) => source,
        Err(fault) => return Err(no_source(text, fault)),
    };
    match symbol_lines(alloc, source.items()) {
        Ok(lines) => Ok(lines),
        Err(_) => Err(Fault::NoMemory),
    }
}

/// The listing of an image, with the lines of these positions of a text beside it.
fn listing_beside(
    alloc: Global,
    text: &[u8],
    places: &[usize],
    image: &[u8],
) -> Result<Vec<u8>, AllocError>
    ensures { IfOk result (λ lines. lines.items
        ≡ beside_lines text.now places.now (listed_so_far with_names image.now).0) }
{
    let extras = Extras {
        names: true,
        indents: false,
    };
    let (listing, _) = partial_listing(alloc, image, extras)?;
    beside_lines(alloc, text, places, &listing)
}

/// The listing of the image of a text's source, with the lines of the text beside it.
fn listing_of(alloc: Global, text: &[u8]) -> Result<Vec<u8>, Fault>
    ensures ok { IfOk result (λ lines. HasListing text.now lines.items) }
    ensures err { IfErr result (λ f. FaultsSource text.now f) }
{
    let source = match parse(alloc, text) {
        Ok(source) => source,
        Err(fault) => return Err(no_source(text, fault)),
    };
    let image = match tokenize(alloc, &source) {
        Ok(image) => image,
        Err(fault) => return Err(no_image(text, fault)),
    };
    let Ok(places) = item_places(alloc, text) else {
        return Err(Fault::NoMemory);
    };
    let Ok(origins) = image_origins(alloc, &source, &places) else {
        return Err(Fault::NoMemory);
    };
    match listing_beside(alloc, text, &origins, &image) {
        Ok(lines) => Ok(lines),
        Err(_) => Err(Fault::NoMemory),
    }
}

/// What is listed of a text's source.
fn lines_of(alloc: Global, list: SourceList, text: &[u8]) -> Result<Vec<u8>, Fault>
    ensures ok { IfOk result (λ lines. HasLines list text.now lines.items) }
    ensures err { IfErr result (λ f. FaultsSource text.now f) }
{
    match list {
        SourceList::Symbols => symbols_of(alloc, text),
        SourceList::Tokens => listing_of(alloc, text),
    }
}

/// Prints lines.
fn print_lines<W: Write>(lines: &[u8], out: &mut W) -> Result<Status, Fault>
    ensures ok { IfOk result (λ s. (s ≡ Status.Done) × Appends (W.contents out.old) (W.contents out.new) lines.now) }
    ensures err { IfErr result (λ f. AppendsPart (W.contents out.old) (W.contents out.new) lines.now × IsUnwritten f) }
{
    write_whole(out, lines)?;
    Ok(Status::Done)
}

/// Prints what is listed of a text's source.
#[tactic(auto, using(crate::proofs::Texts::lists_given_up))]
fn print_list<W: Write>(
    alloc: Global,
    list: SourceList,
    text: &[u8],
    out: &mut W,
) -> Result<Status, Fault>
    ensures { Lists list text.now (W.contents out.old) (W.contents out.new) result }
{
    match lines_of(alloc, list, text) {
        Ok(lines) => print_lines(&lines, out),
        Err(fault) => Err(fault),
    }
}

/// Prints what is listed of the source of a file, and gives the status: the FCode and the name of each word that it
/// makes, or the listing of its image, in which a line comes from the line of the source that stands beside it.
///
/// A fault is said on the error output, as by `tok`.
#[tactic(auto, using(crate::proofs::Texts::lists_unread, crate::proofs::Texts::lists_ended))]
pub fn list<R: Read, W: Write, E: Write>(
    alloc: Global,
    path: &str,
    list: SourceList,
    file: &mut R,
    out: &mut W,
    errors: &mut Messages<E>,
) -> Status
    ensures answered { IfSome (R.remaining file.old) (λ bytes. EndsWith
        (Lists list bytes (W.contents out.old) (W.contents out.new)) (Said E.contents errors.old errors.new) result) }
    ensures silent { is_done result ≡ true → errors.new ≡ errors.old }
{
    let text = match read_whole(alloc, file) {
        Ok(text) => text,
        Err(fault) => return report(path, fault, errors),
    };
    match print_list(alloc, list, &text, out) {
        Ok(status) => status,
        Err(fault) => report_in(alloc, path, &text, fault, errors),
    }
}
