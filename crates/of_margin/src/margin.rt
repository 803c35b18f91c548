ghost use Rattle.std.specs.Prelude.{◌≡◌, ◌++◌, ◌∷◌, [], drop, length, map, nat_eq, reverse, take_while, OnOk, IfOk};
ghost use Rattle.std.specs.List.{count_by, repeat};
ghost use Rattle.of_source.specs.Places.{line_at};
ghost use Rattle.of_margin.specs.Margin.{beside, beside_lines, goes_on, line_beside, line_head, line_tail, said, shown};

use of_source::place_in;
use std::alloc::{AllocError, Global};

/// The column at which the lines of the source stand.
const MARGIN: usize = 40;

/// How many bytes a text has behind its last newline.
fn behind_last(text: &[u8]) -> usize
    ensures { result ≡ length (take_while goes_on (reverse text.now)) }
{
    text.iter().rev().take_while(|byte| **byte != b'\n').count()
}

/// How many bytes a text has before its first newline.
fn before_first(text: &[u8]) -> usize
    ensures { result ≡ length (take_while goes_on text.now) }
{
    text.iter().take_while(|byte| **byte != b'\n').count()
}

/// How many newlines a text has.
fn newlines(text: &[u8]) -> usize
    ensures { result ≡ count_by (λ b. nat_eq b 10) text.now }
{
    text.iter().filter(|byte| **byte == b'\n').count()
}

/// What stands before a position of a text in its line.
fn line_head(text: &[u8], place: usize) -> &[u8]
    ensures { result.now ≡ line_head text.now place }
{
    let head = text.get(..place).unwrap_or(text);
    let start = head.len().saturating_sub(behind_last(head));
    head.get(start..).unwrap_or(&[])
}

/// What stands from a position of a text on in its line.
#[tactic(auto, using(crate::proofs::MarginLemmas::tail_taken))]
fn line_tail(text: &[u8], place: usize) -> &[u8]
    ensures { result.now ≡ line_tail text.now place }
{
    let tail = text.get(place..).unwrap_or(&[]);
    tail.get(..before_first(tail)).unwrap_or(tail)
}

/// Puts bytes behind others, a blank in place of each that doesn't print.
fn push_shown(out: &mut Vec<u8>, bytes: &[u8]) -> Result<(), AllocError>
    ensures { OnOk result (out.new.items ≡ out.old.items ++ map shown bytes.now) }
{
    for byte in bytes {
        out.push(if byte.is_ascii_graphic() { *byte } else { b' ' })?;
    }
    Ok(())
}

/// Puts blanks behind bytes.
#[tactic(auto, using(crate::proofs::MarginLemmas::all_blank))]
fn push_blanks(out: &mut Vec<u8>, count: usize) -> Result<(), AllocError>
    ensures { OnOk result (out.new.items ≡ out.old.items ++ repeat count (32 ∷ [])) }
{
    for _ in 0..count {
        out.push(b' ')?;
    }
    Ok(())
}

/// The line of a position, given that of another: where it stands behind that, only what lies between is read.
#[tactic(auto, using(crate::proofs::MarginLemmas::lines))]
fn line_from(text: &[u8], at: usize, line: usize, place: usize) -> usize
    requires { line ≡ line_at text.now at }
    ensures { result ≡ line_at text.now place }
{
    match text.get(at..place) {
        Some(between) => line + newlines(between),
        None => place_in(text, place).line,
    }
}

/// Says the number of the line of a position, and the line, if it is another than that above.
fn push_said(
    alloc: Global,
    out: &mut Vec<u8>,
    text: &[u8],
    above: usize,
    place: usize,
    line: usize,
) -> Result<(), AllocError>
    requires { line ≡ line_at text.now place }
    ensures { OnOk result (out.new.items ≡ out.old.items ++ said text.now above place) }
{
    let digits = format!(in alloc; "{line}")?;
    out.extend_from_slice(digits.as_bytes())?;
    out.push(b':')?;
    if line == above {
        return Ok(());
    }
    out.push(b' ')?;
    push_shown(out, line_head(text, place))?;
    push_shown(out, line_tail(text, place))
}

/// What stands beside the lines of a listing from one on.
#[derive(Clone, Copy)]
struct Beside<'a> {
    /// The positions that they come from.
    places: &'a [usize],
    /// A position of the text.
    at: usize,
    /// The line of that position, the first being 0.
    line: usize,
    /// The line beside the one above.
    above: usize,
}

/// Puts behind a line of so many bytes what stands beside it, and answers what stands beside those below.
fn push_beside<'a>(
    alloc: Global,
    out: &mut Vec<u8>,
    text: &[u8],
    column: usize,
    here: Beside<'a>,
) -> Result<Beside<'a>, AllocError>
    requires { here.line ≡ line_at text.now here.at }
    ensures out { OnOk result
        (out.new.items ≡ out.old.items ++ beside text.now here.entry.above column here.entry.places.now) }
    ensures places { IfOk result (λ below. below.places.now ≡ drop 1 here.entry.places.now) }
    ensures above { IfOk result (λ below. below.above ≡ line_beside text.now here.entry.above here.entry.places.now) }
    ensures line { IfOk result (λ below. below.line ≡ line_at text.now below.at) }
{
    let [place, places @ ..] = here.places else {
        return Ok(here);
    };
    let line = line_from(text, here.at, here.line, *place);
    push_blanks(out, MARGIN.saturating_sub(column))?;
    out.extend_from_slice(b" \\ ")?;
    push_said(alloc, out, text, here.above, *place, line)?;
    Ok(Beside {
        places,
        at: *place,
        line,
        above: line,
    })
}

/// The lines of a listing, each with the line of the position beside it that it comes from: behind a `\`, from column
/// 41 on, its number, and where that is another than above, what stands in it, with a blank in place of each byte that
/// doesn't print. The first position belongs to the first line, and where there are fewer, lines stand as they are.
///
/// Fails where there is no memory for them.
#[tactic(auto, unfolding(crate::specs::Margin::beside_lines))]
pub fn beside_lines(
    alloc: Global,
    text: &[u8],
    places: &[usize],
    listing: &[u8],
) -> Result<Vec<u8>, AllocError>
    ensures { IfOk result (λ lines. lines.items ≡ beside_lines text.now places.now listing.now) }
{
    let mut out = Vec::new(alloc);
    let mut column = 0usize;
    let mut beside = Beside {
        places,
        at: 0,
        line: 1,
        above: 0,
    };
    for byte in listing {
        if *byte == b'\n' {
            beside = push_beside(alloc, &mut out, text, column, beside)?;
            out.push(b'\n')?;
            column = 0;
        } else {
            out.push(*byte)?;
            column += 1;
        }
    }
    Ok(out)
}
