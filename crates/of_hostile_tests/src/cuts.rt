//! Images that are cut off, at every length.
use crate::shared::{bytes_of, push_bytes};
use crate::tables::{Cases, check, halves, push_wrong};
use of_fcodes::FCode;
use of_machine::{End, ScriptMachine, run_script};
use of_refusal::Refusal;
use of_stream::StreamFault;
use std::alloc::Global;
use std::test::Fail;

/// Whole images; behind `|` the length from which on a cut image runs as the whole does; behind a second one the
/// lengths from which on texts are printed, since the token that prints is whole then, and these texts, which a `;`
/// sets apart; and behind a third one the lengths from which on numbers are assigned, and these numbers.
///
/// A token that the end of an image cuts throws -257, which ends the image, and so do the end in the place of a token
/// and a branch to the end or beyond. What a definition has by then is abandoned, and its number isn't assigned. In the
/// fifth image a package's instances keep a variable each, and a call of the parent's method throws -260: what stands
/// behind it isn't read. Then come a jump into a string, a branch with its target inside a string, and a definition
/// that calls itself without end.
pub(crate) const CUTS: &str = "\
f10806640000001cb50800b7140007a6130005b2a7b2c2a508009d00|28|27:2 |23:800
f1080d3c00000033b50800b7a69dc2b50801b70800c2b50802b7a79dc2110802a51000000800db0801b50803b70800c2080300|51|\
41:1 ;50:2 |15:800 22:801 29:802 48:803
f108097e00000028b50800b7b14714000fa61f47a73d14000613fff3b2b2c2100000000508009d00|40|39:2 |31:800
f108075c000000211204636172640201b604616464330800b7a81ec2a708009d00|33|32:5 |28:800
f10820260000008b 011f 1201700201 c0b50800b9 ca046f70656e0801b7a4c2 ca037075740802b7080072c2 ca03676f740803b708006dc2 \
0127 a5a510d000000c0205b50804b8 a5a510d000000c0205b50805b8 1000000005 12037075740804020e 1000000007 12037075740805020e \
1203676f740804020e9d 1203676f740805020e9d 1203676f740209 00|138|121:5 ;131:7 ;138:fault -260: no such instance$|\
20:800 31:801 43:802 55:803 70:804 83:805
f108016d000000101300041201a69d00|16|15:1 |
f10803c500000015b50800b71400041201b2b2c200|20|20:fault -22: control structure mismatch$|
f108024600000012b50800b70800c2080000|17|17:fault -5: return stack overflow$|15:800
";

/// A line of the table.
#[derive(Drop)]
struct Row<'a> {
    image: Vec<u8>,
    end: usize,
    prints: &'a str,
    numbers: &'a str,
}

/// The row of a line.
fn row_of<'a>(alloc: Global, line: &'a str) -> Result<Row<'a>, Fail> {
    let (digits, rest) = halves(line);
    let (end, rest) = halves(rest);
    let (prints, numbers) = halves(rest);
    Ok(Row {
        image: bytes_of(alloc, digits)?,
        end: end.parse()?,
        prints,
        numbers,
    })
}

/// What stands behind the length of an entry, if an image is cut no shorter than that.
fn entry_at<'a>(entry: &'a str, length: usize) -> Result<Option<&'a str>, Fail> {
    let (from, text) = entry.split_once(':').unwrap_or(("0", ""));
    let from: usize = from.parse()?;
    Ok(if from <= length { Some(text) } else { None })
}

/// Appends what an image prints that is cut at a length.
fn push_prints(text: &mut String, prints: &str, length: usize) -> Result<(), Fail> {
    for entry in prints.split(';') {
        if let Some(printed) = entry_at(entry, length)? {
            text.push_str(printed)?;
        }
    }
    Ok(())
}

/// Appends the numbers that are assigned behind an image that is cut at a length.
fn push_numbers(text: &mut String, numbers: &str, length: usize) -> Result<(), Fail> {
    for entry in numbers.split_whitespace() {
        if let Some(number) = entry_at(entry, length)? {
            write!(text, " {number}")?;
        }
    }
    Ok(())
}

/// What an image should leave that is cut at a length.
fn wanted(alloc: Global, row: &Row<'_>, length: usize) -> Result<String, Fail> {
    let mut text = String::new(alloc);
    if length < 8 {
        text.push_str("short")?;
        return Ok(text);
    }
    push_prints(&mut text, row.prints, length)?;
    if length < row.end {
        text.push_str("fault -257: image ended$")?;
    }
    push_numbers(&mut text, row.numbers, length)?;
    Ok(text)
}

/// Appends a number, if it is assigned.
fn push_assigned(text: &mut String, machine: &ScriptMachine, number: &str) -> Result<(), Fail> {
    let code = FCode(u16::from_str_radix(number, 16)?);
    if machine.token(code).is_some() {
        write!(text, " {number}")?;
    }
    Ok(())
}

/// Appends those of a row's numbers that are assigned.
fn push_all_assigned(
    text: &mut String,
    machine: &ScriptMachine,
    row: &Row<'_>,
) -> Result<(), Fail> {
    for entry in row.numbers.split_whitespace() {
        let (_, number) = entry.split_once(':').unwrap_or(("", "0"));
        push_assigned(text, machine, number)?;
    }
    Ok(())
}

/// Appends what a run leaves.
fn push_left(
    text: &mut String,
    machine: &ScriptMachine,
    end: End,
    row: &Row<'_>,
) -> Result<(), Fail> {
    push_bytes(text, machine.console())?;
    if end != End::Done || machine.depth() != 0 {
        text.push_str(" runs on")?;
    }
    push_all_assigned(text, machine, row)
}

/// Runs an image.
fn run(alloc: Global, image: &[u8]) -> Result<(ScriptMachine, End), Refusal> {
    run_script(alloc, image, &[], &[], &[], 999)
}

/// What an image leaves, behind which a row's numbers are asked for.
fn given(alloc: Global, image: &[u8], row: &Row<'_>) -> Result<String, Fail> {
    let mut text = String::new(alloc);
    match run(alloc, image) {
        Ok((machine, end)) => push_left(&mut text, &machine, end, row)?,
        Err(Refusal::BadStart(StreamFault::Short)) => text.push_str("short")?,
        Err(refusal) => write!(text, "{refusal}")?,
    }
    Ok(text)
}

/// Appends what is wrong with the run of a cut image.
fn push_cut(alloc: Global, wrongs: &mut String, row: &Row<'_>, image: &[u8]) -> Result<(), Fail> {
    let given = given(alloc, image, row)?;
    let wanted = wanted(alloc, row, image.len())?;
    push_wrong(wrongs, image.len(), given.as_str(), wanted.as_str())
}

/// Images that are cut.
struct CutCases;

impl Cases for CutCases {
    fn wrongs(alloc: Global, line: &str) -> Result<String, Fail> {
        let row = row_of(alloc, line)?;
        let mut wrongs = String::new(alloc);
        for length in 0..row.image.len() {
            push_cut(alloc, &mut wrongs, &row, &row.image[..length])?;
        }
        push_cut(alloc, &mut wrongs, &row, &row.image)?;
        Ok(wrongs)
    }
}

#[test]
fn images_are_cut(rt: HostRuntime) -> Result<(), Fail> {
    check::<CutCases, _>(&rt, rt.alloc(), CUTS)
}
