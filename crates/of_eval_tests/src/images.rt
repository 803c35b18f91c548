//! Whole images, and what they make.
ghost use Rattle.std.specs.Prelude.{◌≤◌};

use crate::running::{bytes_of, made_by, number_left, shown};
use of_eval_laws::{
    catch_keeps, definitions_run, dictionary_words_keep, ends_go_back, frames_hold,
    images_are_readings, images_run, images_stand, items_go, loads_begin, memory_is_asked,
    mismatch_is_no_body, names_stay_home, questions_settle, space_stays_sound, stack_leads_back,
    states_stay_placed, steps_agree, steps_throw_listed, throw_takes, throws_settle,
    tokens_are_typed, tokens_go, words_throw_listed,
};
use of_nodes::Phandle;
use std::alloc::Global;
use std::test::Fail;

const TWO_ARMS: &str = "f10806640000001cb50800b7140007a6130005b2a7b2c2a508009d00";

const REBOUND_TOKEN: &str = "\
f1080d3c00000033b50800b7a69dc2b50801b70800c2b50802b7a79dc2110802a51000000800db0801b50803b70800c2080300";

const TWO_WHILES: &str = "\
f108097e00000028b50800b7b14714000fa61f47a73d14000613fff3b2b2c2100000000508009d00";

/// Images by name, and behind their bytes what their runs make: the steps, the depths of both stacks, and the console.
const IMAGES: &str = "\
five|f108020a0000000da7a81e9d00|5 0/0 5 
empty-program|f10800000000000900|1 0/0 
least-number|f10801f2000000111080000000a4219d00|5 0/0 -80000000 
division-by-zero|f108016c0000000ca6a52100|3 0/0 fault -10: division by zero$
branch-over|f10803f700000012a5140005a69db2a79d00|5 0/0 2 
branch-out-of-image|f10801910000000c137fff00|1 0/0 fault -257: image ended$
heap-address|f108013e0000001010000000088b9b00|4 0/0 400000 
catch-and-throw|f108064900000021b50800b7464610000000070218c2a6a711080002179d9d9d00|19 0/0 7 0 0 
byte-load-spread|f10806ab0000002ead10000000f2487510000000a44810000000101e75100000009d4810000000121e75a6023e00\
|20 0/0 -1 
offset-sizes-apart|fd08000000000000 1215fd08000000000000 1302a6a79d cc 130003a6a89d00 46a6023e 1302a6 a59d00\
|16 0/0 2 3 0 
two-arms|f10806640000001cb50800b7140007a6130005b2a7b2c2a508009d00|16 0/0 2 
two-arms-early-targets|f10806640000001cb50800b7140006a6130004b2a7b2c2a508009d00|16 0/0 2 
cut-in-definition|f10806640000001cb50800b7140007a61300|5 0/0 fault -257: image ended$
rebound-token|f1080d3c00000033b50800b7a69dc2 b50801b70800c2 b50802b7a79dc2 110802a51000000800db 0801 \
b50803b70800c2 080300|35 0/0 1 2 
macro-before-resolve|f1080cc100000034b50800b7a69dc2 b50801b7110800ddc2 110801a41000000801db \
b50802b71400050801b2c2 a50802a4080200|36 0/0 1 
branch-into-loop|f108066600000017b50800b7140004b1b2a514fffdc200|8 0/0 fault -22: control structure mismatch$
counted-do|f108043200000013a8a5170007199d15fffd00|13 0/0 0 1 2 
jump-into-string|f108016d000000101300041201a69d00|4 0/0 1 
target-inside-string|f10803c500000015b50800b71400041201b2b2c200|6 0/0 fault -22: control structure mismatch$
endless-recursion|f108024600000012b50800b70800c2080000|259 0/0 fault -5: return stack overflow$
version1-branch|fd0804c300000013cca5140005a69db2a79d00|6 0/0 2 
two-whiles|f108097e00000028b50800b7b14714000fa61f47a73d14000613fff3b2b2c2100000000508009d00|46 0/0 2 
";

#[test]
fn images(rt: HostRuntime) -> Result<(), Fail> {
    for line in IMAGES.lines() {
        let mut board = line.split('|');
        let name = board.next().unwrap_or("");
        let image = bytes_of(rt.alloc(), board.next().unwrap_or(""))?;
        let wanted = board.next().unwrap_or("");
        assert_eq!(rt; shown(rt.alloc(), &image, 999)?.as_str(), wanted, "{name}");
    }
    Ok(())
}

/// An image whose definition has so many branches open at once: each goes to a resolve, the last one to the first.
fn nested_branches(alloc: Global, count: u16) -> Result<Vec<u8>, Fail>
    requires { count ≤ 33 }
{
    let mut image = bytes_of(alloc, "f10800000000ffff b50800b7")?;
    for number in 1..=count {
        let [high, low] = (3 + (count - number) * 4).to_be_bytes();
        image.extend_from_slice(&[0x14, high, low])?;
    }
    for _ in 0..count {
        image.push(0xb2)?;
    }
    image.extend_from_slice(&[0xc2, 0x00])?;
    Ok(image)
}

/// A definition has at most 32 structures open at once.
#[test]
fn thirty_two_branches(rt: HostRuntime) -> Result<(), Fail> {
    let most = nested_branches(rt.alloc(), 32)?;
    assert_eq!(rt; shown(rt.alloc(), &most, 999)?.as_str(), "68 0/0 ");
    let more = nested_branches(rt.alloc(), 33)?;
    let wanted = "69 0/0 fault -22: control structure mismatch$";
    assert_eq!(rt; shown(rt.alloc(), &more, 999)?.as_str(), wanted);
    Ok(())
}

/// An image that defines a word of so many items of a cell each, and of a string, whose item has three.
fn long_definition(alloc: Global, items: usize) -> Result<Vec<u8>, Fail> {
    let mut image = bytes_of(alloc, "f108000000000000 b50800 b7")?;
    for _ in 0..items {
        image.push(0xa5)?;
    }
    image.extend_from_slice(b"\x12\x01A\xc2\0")?;
    Ok(image)
}

/// There are 65,536 code cells: so many items leave room for a string and the return, for the string alone, or for
/// two cells of it.
#[test]
fn a_string_at_the_last_code_cells(rt: HostRuntime) -> Result<(), Fail> {
    let both = long_definition(rt.alloc(), 65_532)?;
    assert_eq!(rt; shown(rt.alloc(), &both, 99_999)?.as_str(), "65537 0/0 ");
    let wanted = "65537 0/0 fault -8: dictionary overflow$";
    let string = long_definition(rt.alloc(), 65_533)?;
    assert_eq!(rt; shown(rt.alloc(), &string, 99_999)?.as_str(), wanted);
    let neither = long_definition(rt.alloc(), 65_534)?;
    assert_eq!(rt; shown(rt.alloc(), &neither, 99_999)?.as_str(), wanted);
    Ok(())
}

/// A run of one step less than an image takes still runs, and so does each shorter one: what has ended makes no step.
#[test]
fn limits(rt: HostRuntime) -> Result<(), Fail> {
    let image = bytes_of(rt.alloc(), TWO_WHILES)?;
    assert_eq!(rt; shown(rt.alloc(), &image, 0)?.as_str(), "0+ 0/2 ");
    assert_eq!(rt; shown(rt.alloc(), &image, 45)?.as_str(), "45+ 0/2 2 ");
    assert_eq!(rt; shown(rt.alloc(), &image, 46)?.as_str(), "46 0/0 2 ");
    Ok(())
}

/// The node that an image runs for is the active package until its run has ended.
#[test]
fn packages(rt: HostRuntime) -> Result<(), Fail> {
    let image = bytes_of(rt.alloc(), TWO_WHILES)?;
    let running = made_by(rt.alloc(), &image, 45)?;
    assert_eq!(rt; running.active, Some(Phandle::of(2)));
    let ended = made_by(rt.alloc(), &image, 46)?;
    assert_eq!(rt; ended.active, None);
    Ok(())
}

/// A throw that none takes brings back the active package that was before the image, whose `new-device` it finishes.
#[test]
fn packages_behind_a_throw(rt: HostRuntime) -> Result<(), Fail> {
    let image = bytes_of(rt.alloc(), "f108000000000000 011f 1e")?;
    let running = made_by(rt.alloc(), &image, 1)?;
    assert_eq!(rt; running.active, Some(Phandle::of(3)));
    let thrown = made_by(rt.alloc(), &image, 2)?;
    assert_eq!(rt; thrown.active, None);
    Ok(())
}

/// How long the least cut of an image is that doesn't print a part of what the whole prints, and then throw -257, with
/// nothing on either stack; none where each cut does.
fn cut_that_differs(alloc: Global, digits: &str) -> Result<Option<usize>, Fail> {
    let image = bytes_of(alloc, digits)?;
    let whole = made_by(alloc, &image, 999)?;
    for length in 8..image.len() {
        let cut = made_by(alloc, &image[..length], 999)?;
        let printed = cut.console.strip_suffix(b"fault -257: image ended\n");
        let is_part = printed.is_some_and(|part| whole.console.starts_with(part));
        if !is_part || cut.cells != 0 || cut.items != 0 {
            return Ok(Some(length));
        }
    }
    Ok(None)
}

/// An image cut at each length behind its header prints a part of what the whole prints, and then throws -257.
#[test]
fn cuts(rt: HostRuntime) -> Result<(), Fail> {
    for digits in [TWO_ARMS, REBOUND_TOKEN, TWO_WHILES] {
        assert_eq!(rt; cut_that_differs(rt.alloc(), digits)?, None, "{digits}");
    }
    Ok(())
}

/// Tokens behind a header, and what their image leaves a number with: an execution token, or none.
const NUMBERS: &str = "\
b50800 b7 c2 00|800|c000052c
b50800 b7 00|800|none
b50800 b7 c2 b50801 b7 00|800|c000052c
b50800 b7 c2 b50801 b7 00|801|none
b50800 b7 140007 a6 1300|800|none
b50800 b7 140004 b1 b2 a5 14fffd c2 00|800|none
b50800 b7 c2 b50801 b7 c2 110800 a5 1000000801 db 00|801|c000052c
a6 b50fff b8 b50ffe ba|fff|c000052c
a6 b50fff b8 b50ffe ba|ffe|none
b50801 b7 1000000800 da 46 1d c2 110801 a4 1000000801 db b50800 b7 0801|800|none
";

/// The first line whose image leaves its number with something else; nothing where there is none.
fn other_number(alloc: Global, lines: &str) -> Result<String, Fail> {
    for line in lines.lines() {
        let mut board = line.split('|');
        let tokens = board.next().unwrap_or("");
        let code = u16::from_str_radix(board.next().unwrap_or(""), 16)?;
        let wanted = u32::from_str_radix(board.next().unwrap_or(""), 16).ok();
        let image = bytes_of(alloc, &format!(in alloc; "f108000000000000{tokens}")?)?;
        if number_left(alloc, &image, code)? != wanted {
            return Ok(line.to_string(alloc)?);
        }
    }
    Ok(String::new(alloc))
}

/// What the end of an image, or a throw, leaves of an open definition's number.
#[test]
fn numbers(rt: HostRuntime) -> Result<(), Fail> {
    assert_eq!(rt; other_number(rt.alloc(), NUMBERS)?.as_str(), "");
    Ok(())
}

/// The laws of the evaluator.
#[test]
fn laws() {
    words_throw_listed();
    steps_throw_listed();
    steps_agree();
    states_stay_placed();
    mismatch_is_no_body();
    frames_hold();
    images_stand();
    throws_settle();
    images_run();
    items_go();
    definitions_run();
    catch_keeps();
    ends_go_back();
    loads_begin();
    memory_is_asked();
    names_stay_home();
    questions_settle();
    space_stays_sound();
    stack_leads_back();
    images_are_readings();
    tokens_are_typed();
    tokens_go();
    throw_takes();
    dictionary_words_keep();
}
