use crate::rows::{Rows, check, field, hexadecimal, natural, word};
use of_cells::Cell;
use of_scan::{
    Number, Rest, Word, number_in, parts_are_read, quoted_parts_are_read, strings_are_read,
    words_are_read,
};
use std::alloc::{AllocError, Global};

/// A call, a text, what the call gives, the position behind it, and the next word with its position then, or `none`.
///
/// The calls: a word, a string up to a quote, a comment, the rest of a line, and the string of a word `"`; and, for
/// texts whose strings no line ends, a part up to a quote and the string of a word `"`, both behind one byte. In texts
/// `~` is the end of a line, `^` a tab and `@` a zero byte.
const READ: &str = r#"w||none|0|none
w|~ ^@|none|4|none
w|dup swap|dup 0|3|swap 4
w|  dup|dup 2|5|none
w|^@~dup~swap|dup 3|6|swap 7
w|a(b)"c d|a(b)"c 0|6|d 7
s| hello" swap|hello|7|swap 8
s|"" swap||2|swap 3
s|  a (b)" x| a (b)|8|x 9
s|^a^b"x|a^b|5|x 5
s| hello|none|0|hello 1
s| hello~"|none|0|hello 1
s|~"|none|0|" 1
s||none|0|none
c| a comment) dup|true|11|dup 12
c| a (b) c)|true|6|c) 7
c| no end~)|false|0|no 1
l| rest of it~dup|done|11|dup 12
l|~dup|done|0|dup 1
l| rest|done|5|none
q| plain" x|plain|7|x 8
q| a"(41 42)b" x|aABb|12|x 13
q| "(4142)" x|AB|9|x 10
q| "(4a4B)"|JK|9|none
q| "(0a 00)"( 09 )z"|~@^z|18|none
q| a"()b"|ab|7|none
q| a" (41)"|a|3|(41)" 4
q| "(4)"||2|(4)" 2
q| "(41||2|(41 2
q| "(41~42)"||2|(41 2
q| "(4g)"||2|(4g)" 2
q| no end|none|0|no 1
q| no~end"|none|0|no 1
q| a"(41)b|none|0|a"(41)b 1
q|~a"|none|0|a" 1
p| hello" swap|hello|7|swap 8
p| hello|hello|6|none
p| a~b"x|a~b|5|x 5
p|~a"x|a|3|x 3
p|"||1|none
p|||0|none
g| a"(41 42)b" x|aABb|12|x 13
g| "(41~42)"|AB|10|none
g| "(41"(42)" x||2|(41"(42)" 2
g| "(4)" x||2|(4)" 2
g| "(4g)" x||2|(4g)" 2
g| "()"(4A)"(4b)x|JKx|15|none
g| no end|no end|7|none
g|"a" x|a|3|x 4
g|||0|none
"#;

/// A text, a position, and the next word behind it with its own, or `none`.
const POSITIONS: &str = "\
dup swap|0|dup 0
dup swap|1|up 1
dup swap|3|swap 4
dup swap|8|none
dup swap|9|none
";

/// A base, a word, and the cell that it says in hexadecimal, `range` where no cell holds it, or `none`.
const NUMBERS: &str = "\
16 0 0
16 ff ff
16 FF ff
16 -1 ffffffff
16 ffffffff ffffffff
16 0ffffffff ffffffff
16 100000000 range
16 -80000000 80000000
16 -80000001 range
16 +1 none
16 +100000000 none
16 --100000000 none
16 - none
16 -- none
16 fg none
16 1-1 none
10 4294967295 ffffffff
10 4294967296 range
10 -2147483648 80000000
10 -2147483649 range
10 99999999999999999999999999 range
10 12a none
10 1. none
2 102 none
36 z 23
";

/// A byte of a row's text.
fn byte_of(byte: u8) -> u8 {
    match byte {
        b'~' => b'\n',
        b'^' => b'\t',
        b'@' => 0,
        _ => byte,
    }
}

/// A text of a row.
fn text_of(alloc: Global, row: &str) -> Result<Vec<u8>, AllocError> {
    let mut bytes = Vec::new(alloc);
    for byte in row.as_bytes() {
        bytes.push(byte_of(*byte))?;
    }
    Ok(bytes)
}

/// Whether a row's text has these bytes.
fn is_text(alloc: Global, found: &[u8], row: &str) -> Option<bool> {
    Some(text_of(alloc, row).ok()?.as_slice() == found)
}

/// Whether a row says this word with its position, or `none`.
fn is_word(alloc: Global, found: Option<Word<'_>>, row: &str) -> Option<bool> {
    let Some(found) = found else {
        return Some(row == "none");
    };
    let (bytes, at) = row.rsplit_once(' ')?;
    Some(natural(at)? as usize == found.at && is_text(alloc, found.bytes, bytes)?)
}

/// Whether a call gives what a row says, where that is a text.
fn is_string(alloc: Global, found: Option<&[u8]>, row: &str) -> Option<bool> {
    match found {
        Some(bytes) => is_text(alloc, bytes, row),
        None => Some(row == "none"),
    }
}

/// Whether the string of a word `"` is what a row says.
fn is_quoted(alloc: Global, rest: &mut Rest<'_>, row: &str) -> Option<bool> {
    match rest.quoted_string(alloc).ok()? {
        Some(bytes) => is_text(alloc, &bytes, row),
        None => Some(row == "none"),
    }
}

/// Whether a call gives what a row says.
fn is_given(alloc: Global, call: &str, rest: &mut Rest<'_>, row: &str) -> Option<bool> {
    match call {
        "w" => is_word(alloc, rest.word(), row),
        "s" => is_string(alloc, rest.string(b'"'), row),
        "c" => Some(rest.skip_comment() == (row == "true")),
        "l" => {
            rest.skip_line();
            Some(row == "done")
        }
        "p" => {
            rest.skip_byte();
            is_text(alloc, rest.part(b'"'), row)
        }
        "g" => {
            rest.skip_byte();
            let bytes = rest.quoted_bytes()?;
            rest.skip_quoted();
            is_text(alloc, &bytes, row)
        }
        _ => is_quoted(alloc, rest, row),
    }
}

/// Whether a position is what a row says, and the next word then.
fn is_behind(alloc: Global, rest: &mut Rest<'_>, line: &str) -> Option<bool> {
    let at = natural(field(line, 3))? as usize;
    Some(rest.at() == at && is_word(alloc, rest.word(), field(line, 4))?)
}

/// Calls on texts.
#[derive(Clone, Copy)]
struct ReadRows;

impl Rows for ReadRows {
    fn holds(&mut self, alloc: Global, line: &str) -> Option<bool> {
        let text = text_of(alloc, field(line, 1)).ok()?;
        let mut rest = Rest::new(text.as_slice());
        let is_given = is_given(alloc, field(line, 0), &mut rest, field(line, 2))?;
        Some(is_given && is_behind(alloc, &mut rest, line)?)
    }
}

#[test]
fn words_and_strings(rt: HostRuntime) {
    check(&rt, rt.alloc(), &mut ReadRows, READ);
    words_are_read();
    strings_are_read();
    parts_are_read();
    quoted_parts_are_read();
}

/// How many bytes a string begins with, the text behind them, and how many bytes the string has, or `none` where they
/// are too many.
const LONG: &str = "\
0|\"|0|
255|\" x|255|
255||255|
256|\"|none|
254|\"(41)b\"|none|
254|\"(41)\"|255|
254|\"(41 42)\"|none|
255|\"()\"|255|
255|\"(41)\"|none|
";

/// Long strings.
#[derive(Clone, Copy)]
struct LongRows;

impl Rows for LongRows {
    fn holds(&mut self, alloc: Global, line: &str) -> Option<bool> {
        let count = natural(field(line, 0))? as usize;
        let mut text = vec![in alloc; b'a'; count].ok()?;
        text.extend_from_slice(field(line, 1).as_bytes()).ok()?;
        match Rest::new(&text).quoted_bytes() {
            Some(bytes) => Some(bytes.len() == natural(field(line, 2))? as usize),
            None => Some(field(line, 2) == "none"),
        }
    }
}

#[test]
fn long_strings(rt: HostRuntime) {
    check(&rt, rt.alloc(), &mut LongRows, LONG);
}

/// Positions.
#[derive(Clone, Copy)]
struct PositionRows;

impl Rows for PositionRows {
    fn holds(&mut self, alloc: Global, line: &str) -> Option<bool> {
        let at = natural(field(line, 1))? as usize;
        let mut rest = Rest::behind(field(line, 0).as_bytes(), at);
        is_word(alloc, rest.word(), field(line, 2))
    }
}

#[test]
fn positions(rt: HostRuntime) {
    check(&rt, rt.alloc(), &mut PositionRows, POSITIONS);
}

/// Whether a row says this number: a cell in hexadecimal, `range` or `none`.
fn is_number(number: Number, wanted: &str) -> bool {
    match number {
        Number::Value(Cell(x)) => hexadecimal(wanted) == Some(x),
        Number::OutOfRange => wanted == "range",
        Number::NoNumber => wanted == "none",
    }
}

/// Words as numbers.
#[derive(Clone, Copy)]
struct NumberRows;

impl Rows for NumberRows {
    fn holds(&mut self, _alloc: Global, line: &str) -> Option<bool> {
        let base = natural(word(line, 0))?.clamp(2, 36);
        Some(is_number(number_in(word(line, 1).as_bytes(), base), word(line, 2)))
    }
}

#[test]
fn numbers(rt: HostRuntime) {
    check(&rt, rt.alloc(), &mut NumberRows, NUMBERS);
}
