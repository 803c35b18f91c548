//! What is listed behind a run, and the definitions that are listed of an image.

use crate::doubles::reader_of;
use crate::shared::{Outputs, blank_outputs, code_by, code_on, left, lend, printed, words_of};
use crate::tables::{Rows, check, halves, number, replaced};
use of_runs::{Answerer, Outside};
use std::alloc::Global;
use std::test::Fail;

/// The words of a command line, an image in hexadecimal digits, how many bytes can be written, the number of the
/// status, what is said, and what is printed, with `$` for a newline: an empty program; one that prints `5 `; one that
/// gives /slot the method `five` and prints what it leaves; one that leaves -1 and 2, defines a variable and prints 3.
const RUNS: &str = "\
run a.hex --words|f10800000000000000|9999|0||$
run a.hex --see DUP|f10800000000000000|9999|0||primitive dup$
run a.hex --words --see dup|f108000000000000a7a81e9d00|9999|0||5 $$primitive dup$
run a.hex --see five|f108000000000000b60466697665 0800b7a7a81ec208009d00|9999|1|\
ofw: a.hex: no word has the name that --see asks for$|5 
run a.hex --limit 6 --words --see five|f108000000000000ca0466697665 0800b7a7a81ec208009d00|9999|3||\
five $: five 2 3 + ;$
run a.hex --limit 5 --words --see five|f108000000000000ca0466697665 0800b7a7a81ec208009d00|9999|1|\
ofw: a.hex: no word has the name that --see asks for$|$
run a.hex --tree --words --see dup|f10800000000000000|9999|0||\
/$name \"board\"$/packages$name \"packages\"$/slot$name \"slot\"$$primitive dup$
run a.hex --see nonsense --tree --explain|f10800000000000000|9999|1|\
ofw: a.hex: done after 1 steps$ofw: a.hex: stack:$ofw: a.hex: no word has the name that --see asks for$|\
/$name \"board\"$/packages$name \"packages\"$/slot$name \"slot\"$
run a.hex --see dup|f108000000000000a7a81e9d00|6|1|ofw: the output can't be written: other error$|5 $pri
run a.hex --state|f10800000000000000|9999|0||stack$return stack 00000000$here 00100000$words 00000000$
run a.hex --limit 2 --state|f108000000000000a7a81e9d00|9999|3||\
stack 00000002 00000003$return stack 00000002$here 00100000$words 00000000$
run a.hex --state --words --see x|f108000000000000a4b601780800b9a7a89d00|9999|1|\
ofw: a.hex: no word has the name that --see asks for$|\
3 $$stack ffffffff 00000002$return stack 00000000$here 00100004$words 00000001$";

/// The words of a command line, console lines with `,` for a newline, the number of the status, and what is printed, of
/// the program that gives /slot the method `five`. The words of an image are found where /slot is active.
const LINES: &str = "\
run a.hex --words --see five|dev /slot|0|5 $five $: five 2 3 + ;$
run a.hex --words --see FIVE|dev /slot,: five 5 ;|0|5 $five $: five h# 5 ;$
run a.hex --words --see five|: five 6 ;|0|5 $five $: five h# 6 ;$
run a.hex --words --see cube|: sq dup * ;,: cube dup sq * ; 5 cube .|0|5 7d $cube sq $: cube dup sq * ;$
run a.hex --words --see cube|: sq dup * ;,: cube dup sq * ; : sq drop ;|0|\
5 $cube sq $: cube dup [ h# c0000530 compile, ] * ;$
run a.hex --see nine|9 value nine cr|0|5 $value nine$
run a.hex --see sq|: sq dup|1|5 ";

/// Images, of which `detok --see` lists the definitions.
const DEFINITIONS: &str = "\
detok a.hex --see|f108000000000000ca0466697665 0800b7a7a81ec208009d00|9999|0||: five 2 3 + ;$
detok a.hex --see|f10800000000000000|9999|0||
detok a.hex --see|f108000000000000 ca027371 0800b74720c2 b50801b7a5c2 ca0463756265 0802b7470800 0801 20c2 a79d00|\
9999|0||: sq dup * ;$: h# c0000530 0 ;$: cube dup sq [ h# c0000530 compile, ] * ;$
detok a.hex --see|f108000000000000 1000000005 ca01780800b8 ca01740801b7c30800c2 00|9999|0||: t to x ;$
detok a.hex --see|f108000000000000 ca017a0800b7 140006 a6 130004 b2 a5 b2 c2 ca015a0801b70800c2 00|9999|0||\
: z if 1 ahead [ h# 1 ] cs-roll then 0 then ;$: Z [ h# c000052c compile, ] ;$
detok a.hex --see|f108000000000000 b6017a0800b7a7c200|9999|0||: z 2 ;$
detok a.hex --see|f108000000000000ca0466697665 0800b7a7a81ec210|9999|1|\
ofw: a.hex: image ended in the token at 000015$|
detok a.hex --see --partial|f108000000000000ca0466697665 0800b7a7a81ec210|9999|1|\
ofw: a.hex: image ended in the token at 000015$|: five 2 3 + ;$
detok a.hex --see --partial|f108000000000000ca0466697665 0800b7a7a81e10|9999|1|\
ofw: a.hex: image ended in the token at 000014$|
detok a.hex --see --partial|ffffffffffffffff|9999|1|ofw: bad start byte ff$|
detok a.hex --see --partial|f1080000|9999|1|ofw: a.hex: image shorter than its header$|
detok a.hex --see|f108000000000000ca0466697665 0800b7a7a81ec208009d00|6|1|\
ofw: the output can't be written: other error$|: five";

/// What is left on outputs by what words ask for of an image.
fn left_by(alloc: Global, words: &str, image: &str, outputs: &mut Outputs) -> Result<String, Fail> {
    let mut file = reader_of(image.as_bytes(), 9999);
    let code = code_on(alloc, words, &mut file, outputs)?;
    left(alloc, code, outputs)
}

/// What is to be left, behind the number of the status, by these fields of a line: what is said, and what is printed.
fn wanted(alloc: Global, code: &str, said: &str, printed: &str) -> Result<String, Fail> {
    let text = format!(in alloc; "{code}|{printed}|{said}")?;
    replaced(alloc, text.as_str(), "$", "\n")
}

/// Listings.
struct ListingRows;

impl Rows for ListingRows {
    fn given(alloc: Global, line: &str) -> Result<(String, String), Fail> {
        let (words, rest) = halves(line, '|');
        let (image, rest) = halves(rest, '|');
        let (room, rest) = halves(rest, '|');
        let (code, rest) = halves(rest, '|');
        let (said, listed) = halves(rest, '|');
        let left = lend(
            blank_outputs(alloc, number(room)?),
            |outputs| left_by(alloc, words, image, outputs),
        )?;
        Ok((left, wanted(alloc, code, said, listed)?))
    }
}

#[test]
fn listings_are_printed(rt: HostRuntime) -> Result<(), Fail> {
    check::<ListingRows, _>(&rt, rt.alloc(), RUNS)
}

#[test]
fn definitions_are_listed(rt: HostRuntime) -> Result<(), Fail> {
    check::<ListingRows, _>(&rt, rt.alloc(), DEFINITIONS)
}

/// The console lines of a text, with `,` for a newline.
fn lines_of(alloc: Global, text: &str) -> Result<Vec<Vec<u8>>, Fail> {
    let mut lines = Vec::new(alloc);
    for line in text.split(',') {
        lines.push(line.as_bytes().to_vec(alloc)?)?;
    }
    Ok(lines)
}

/// Does what the words of a line ask for with the image of LINES and console lines, and gives the number of the status.
fn code_behind(alloc: Global, words: &[String], lines: &[Vec<u8>], outputs: &mut Outputs) -> u8 {
    let mut file = reader_of(b"f108000000000000ca0466697665 0800b7a7a81ec208009d00", 9999);
    let outside = Outside {
        lines,
        answerer: Answerer::Answers(&[]),
    };
    let Outputs { out, errors } = outputs;
    code_by(alloc, words, outside, &mut file, out, errors)
}

/// What is printed by what words ask for of the image of LINES with the console lines of a text.
fn printed_behind(
    alloc: Global,
    words: &str,
    text: &str,
    outputs: &mut Outputs,
) -> Result<String, Fail> {
    let line = format!(in alloc; "ofw {words}")?;
    let words = words_of(alloc, line.as_str())?;
    let lines = lines_of(alloc, text)?;
    let code = code_behind(alloc, &words, &lines, outputs);
    printed(alloc, code, outputs)
}

/// Listings behind lines.
struct LineRows;

impl Rows for LineRows {
    fn given(alloc: Global, line: &str) -> Result<(String, String), Fail> {
        let (words, rest) = halves(line, '|');
        let (text, wanted) = halves(rest, '|');
        let printed = lend(
            blank_outputs(alloc, 9999),
            |outputs| printed_behind(alloc, words, text, outputs),
        )?;
        Ok((printed, replaced(alloc, wanted, "$", "\n")?))
    }
}

#[test]
fn listings_behind_lines(rt: HostRuntime) -> Result<(), Fail> {
    check::<LineRows, _>(&rt, rt.alloc(), LINES)
}
