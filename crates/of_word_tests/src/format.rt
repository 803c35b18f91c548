use crate::rows::{Rows, check, hexadecimal, natural, word};
use of_cells::{Cell, Double};
use of_format::{
    Pictured, base, digit, digit_byte, double_text, read_number, signed_text, texts_read_back,
    unsigned_text,
};
use of_memory::Memory;
use of_stacks::Throw;
use std::alloc::Global;
use std::test::Fail;

/// A cell in hexadecimal, a base, and the cell's text unsigned and signed.
const TEXTS: &str = "\
0 10 0 0
ff 16 ff ff
23 36 z z
24 36 10 10
4d2 10 1234 1234
ffffffff 10 4294967295 -1
7fffffff 10 2147483647 2147483647
80000000 16 80000000 -80000000
80000000 2 10000000000000000000000000000000 -10000000000000000000000000000000
";

/// A double's high and low cell in hexadecimal, a base, and its text.
const DOUBLES: &str = "\
0 0 10 0
ffffffff ffffffff 10 18446744073709551615
ffffffff ffffffff 2 1111111111111111111111111111111111111111111111111111111111111111
1 0 16 100000000
";

/// A character in hexadecimal, a base, and the value as a digit or `none`.
const DIGITS: &str = "\
30 10 0
39 10 9
39 9 none
2f 16 none
3a 16 none
41 16 10
66 16 15
67 16 none
5a 36 35
7a 36 35
5b 99 none
60 99 none
7b 99 none
130 16 none
30 0 none
";

/// A base, a text, and the cell that it reads as, in hexadecimal, or `none`.
const READ: &str = "\
10 - none
2 0 0
2 2 none
10 1234 4d2
10 -5 fffffffb
10 -0 0
10 --1 none
10 1- none
10 +1 none
10 12. none
16 fF ff
10 4294967295 ffffffff
10 4294967296 none
10 -2147483648 80000000
10 -2147483649 none
16 0000000000000000000000ffffffff ffffffff
16 100000000000000000000000000000 none
";

/// A cell's number, and the base that the cell `base` then gives, or `none`.
const BASES: &str = "\
1 none
2 2
10 16
24 36
25 none
10000010 none
";

/// Texts of cells.
#[derive(Clone, Copy)]
struct TextRows;

impl Rows for TextRows {
    fn holds(&mut self, _alloc: Global, line: &str) -> Option<bool> {
        let x = Cell(hexadecimal(word(line, 0))?);
        let base = natural(word(line, 1))?.clamp(2, 36);
        let is_unsigned = unsigned_text(x, base).as_bytes() == word(line, 2).as_bytes();
        Some(is_unsigned && signed_text(x, base).as_bytes() == word(line, 3).as_bytes())
    }
}

#[test]
fn cells_as_text(rt: HostRuntime) {
    check(&rt, rt.alloc(), &mut TextRows, TEXTS);
}

/// Texts of doubles.
#[derive(Clone, Copy)]
struct DoubleRows;

impl Rows for DoubleRows {
    fn holds(&mut self, _alloc: Global, line: &str) -> Option<bool> {
        let high = u64::from(hexadecimal(word(line, 0))?);
        let low = u64::from(hexadecimal(word(line, 1))?);
        let number = Double::new(high * 0x1_0000_0000 + low);
        let base = natural(word(line, 2))?.clamp(2, 36);
        Some(double_text(number, base).as_bytes() == word(line, 3).as_bytes())
    }
}

#[test]
fn doubles_as_text(rt: HostRuntime) {
    check(&rt, rt.alloc(), &mut DoubleRows, DOUBLES);
}

/// Whether a number is what a word says, in decimal digits, or `none`.
fn is_said(number: Option<u32>, wanted: &str) -> bool {
    match number {
        Some(_) => number == natural(wanted),
        None => wanted == "none",
    }
}

/// Characters as digits.
#[derive(Clone, Copy)]
struct DigitRows;

impl Rows for DigitRows {
    fn holds(&mut self, _alloc: Global, line: &str) -> Option<bool> {
        let char = hexadecimal(word(line, 0))?;
        Some(is_said(digit(char, natural(word(line, 1))?), word(line, 2)))
    }
}

/// Texts as numbers.
#[derive(Clone, Copy)]
struct ReadRows;

impl Rows for ReadRows {
    fn holds(&mut self, _alloc: Global, line: &str) -> Option<bool> {
        let base = natural(word(line, 0))?.clamp(2, 36);
        match read_number(word(line, 1).as_bytes(), base) {
            Some(cell) => Some(hexadecimal(word(line, 2)) == Some(cell.0)),
            None => Some(word(line, 2) == "none"),
        }
    }
}

#[test]
fn digits_and_numbers_read(rt: HostRuntime) {
    check(&rt, rt.alloc(), &mut DigitRows, DIGITS);
    check(&rt, rt.alloc(), &mut ReadRows, READ);
    assert!(rt; read_number(b"", 10) == None);
    assert!(rt; digit_byte(9) == b'9' && digit_byte(10) == b'a');
    texts_read_back();
}

/// What a memory has as its base once that is stored.
#[derive(Drop)]
struct BaseRows {
    memory: Memory,
}

impl Rows for BaseRows {
    fn holds(&mut self, _alloc: Global, line: &str) -> Option<bool> {
        let x = Cell(hexadecimal(word(line, 0))?);
        self.memory.write32(Cell(0x50_0000), x).ok()?;
        Some(is_said(base(&self.memory).ok(), word(line, 1)))
    }
}

#[test]
fn bases(rt: HostRuntime) -> Result<(), Fail> {
    let memory = Memory::new(rt.alloc())?;
    assert!(rt; base(&memory) == Ok(16));
    let mut rows = BaseRows { memory };
    check(&rt, rt.alloc(), &mut rows, BASES);
    check(&rt, rt.alloc(), &mut rows, "25 none");
    assert!(rt; base(&rows.memory) == Err(Throw(-24)));
    Ok(())
}

/// Bytes and texts that are held in turn, a line each, and the whole text then.
const HELD: &str = "\
a a
b ba
xyz xyzba
";

/// A pictured text and its memory.
#[derive(Drop)]
struct HeldRows {
    memory: Memory,
    pictured: Pictured,
}

impl HeldRows {
    /// Holds one byte, or a text of other lengths.
    fn hold(&mut self, new: &[u8]) -> Result<(), Throw> {
        match new {
            [byte] => self.pictured.hold(&mut self.memory, *byte),
            bytes => self.pictured.hold_text(&mut self.memory, bytes),
        }
    }

    /// Whether this is the text.
    fn has_text(&self, wanted: &str) -> bool {
        let (addr, len) = self.pictured.text();
        let ends = addr.0.wrapping_add(len.0) == 0x50_0100;
        ends && self.memory.slice(addr, len) == Ok(wanted.as_bytes())
    }
}

impl Rows for HeldRows {
    fn holds(&mut self, _alloc: Global, line: &str) -> Option<bool> {
        self.hold(word(line, 0).as_bytes()).ok()?;
        Some(self.has_text(word(line, 1)))
    }
}

/// Nothing held yet.
fn nothing_held(alloc: Global) -> Result<HeldRows, Fail> {
    let memory = Memory::new(alloc)?;
    let pictured = Pictured::new();
    Ok(HeldRows { memory, pictured })
}

/// Bytes are held before those that are held, and end at 0x500100.
#[test]
fn pictured_text(rt: HostRuntime) -> Result<(), Fail> {
    let mut rows = nothing_held(rt.alloc())?;
    check(&rt, rt.alloc(), &mut rows, HELD);
    rows.pictured.start();
    assert!(rt; rows.pictured.text() == (Cell(0x50_0100), Cell(0)));
    Ok(())
}

/// Holds 127 characters.
fn hold_127(rows: &mut HeldRows) -> Result<(), Throw> {
    for _ in 0..127 {
        rows.hold(b"x")?;
    }
    Ok(())
}

/// Whether one more character finds room then, and no two do, nor does one behind it.
fn one_more_fits(rows: &mut HeldRows) -> bool {
    rows.hold(b"ab") == Err(Throw(-17))
        && rows.pictured.len() == 127
        && rows.pictured.hold_text(&mut rows.memory, b"a") == Ok(())
        && rows.hold(b"b") == Err(Throw(-17))
}

#[test]
fn pictured_text_of_128_bytes(rt: HostRuntime) -> Result<(), Fail> {
    let mut rows = nothing_held(rt.alloc())?;
    assert!(rt; hold_127(&mut rows) == Ok(()));
    assert!(rt; one_more_fits(&mut rows));
    let first = rows.memory.slice(Cell(0x50_007f), Cell(3));
    assert!(rt; first == Ok(b"\0ax".as_slice()));
    Ok(())
}
