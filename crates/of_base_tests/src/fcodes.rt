use crate::rows::{Rows, check, hexadecimal, word};
use of_fcodes::*;
use std::alloc::Global;

/// FCodes with their numbers, names and operands, from annex A of IEEE 1275-1994; others have none.
const LISTED: &str = "\
000 end0 Nothing
010 b(lit) Literal
012 b(\") String
014 b?branch Offset
01e + Nothing
0b5 new-token FCode
0ca external-token Named
0ff end1 Nothing
11f new-device Nothing
240 left-parse-string Nothing
002 - Nothing
00f - Nothing
0fe - Nothing
241 - Nothing
800 - Nothing
fff - Nothing
";

/// Whether an operand is called so.
fn is_operand(alloc: Global, operand: Operand, name: &str) -> Option<bool> {
    Some(format!(in alloc; "{operand:?}").ok()?.as_str() == name)
}

/// FCodes.
#[derive(Clone, Copy)]
struct ListedRows;

impl Rows for ListedRows {
    fn holds(&mut self, alloc: Global, line: &str) -> Option<bool> {
        let code = FCode(u16::try_from(hexadecimal(word(line, 0))?).ok()?);
        let is_named = name_of(code).unwrap_or("-") == word(line, 1);
        Some(is_named && is_operand(alloc, operand_of(code), word(line, 2))?)
    }
}

#[test]
fn listed(rt: HostRuntime) {
    check(&rt, rt.alloc(), &mut ListedRows, LISTED);
}

/// The number of a name's FCode, or 0xffff.
fn number_of(name: &[u8]) -> u16 {
    match fcode_of(name) {
        Some(code) => code.0,
        None => 0xffff,
    }
}

#[test]
fn names(rt: HostRuntime) {
    assert!(rt; number_of(b"B(LIT)") == 0x10 && number_of(b"b(lit") == 0xffff);
    assert!(rt; word_of(FCode(0x9d)).is_some());
    assert!(rt; word_of(FCode(0x800)).is_none());
    names_and_numbers();
}

/// WrittenRows words with their execution tokens and classes; other numbers name none.
const WRITTEN: &str = "\
c0000000 end0 Stream
c000007c offset16 Stream
c0000080 + Ordinary
c000018c execute Ordinary
c0000230 alloc-mem Ordinary
c00003fc ms Ordinary
c0000400 1+ Ordinary
c0000470 words Ordinary
c0000474 : Parsing
c00004c0 \\ Parsing
c00004c4 ; CompileOnly
c0000528 to, CompileOnly
0 -
bffffffc -
c0000002 -
c000052c -
fffffffc -
";

/// Whether a class is called so.
fn is_class(alloc: Global, class: Class, name: &str) -> Option<bool> {
    Some(format!(in alloc; "{class:?}").ok()?.as_str() == name)
}

/// Written words.
#[derive(Clone, Copy)]
struct WrittenRows;

impl Rows for WrittenRows {
    fn holds(&mut self, alloc: Global, line: &str) -> Option<bool> {
        let xt = hexadecimal(word(line, 0))?;
        let Some(found) = word_with_xt(xt) else {
            return Some(word(line, 1) == "-");
        };
        let is_named = found.xt() == xt && found.name() == word(line, 1);
        Some(is_named && is_class(alloc, found.class(), word(line, 2))?)
    }
}

#[test]
fn written(rt: HostRuntime) {
    check(&rt, rt.alloc(), &mut WrittenRows, WRITTEN);
}

/// The execution token of the written word of a name, or 0.
fn xt_with(name: &[u8]) -> u32 {
    match word_with_name(name) {
        Some(word) => word.xt(),
        None => 0,
    }
}

#[test]
fn written_names(rt: HostRuntime) {
    assert!(rt; FIRST_WRITTEN + 4 * 331 == FIRST_OWN);
    assert!(rt; xt_with(b"EXECUTE") == 0xc000_018c);
    assert!(rt; xt_with(b"to,") == 0xc000_0528 && xt_with(b"nothing") == 0);
    written_words_are_found();
}
