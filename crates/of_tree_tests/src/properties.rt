//! Property values: calls that encode and decode them, one a line, and what they answer.

use crate::rows::{Rows, check};
use crate::running::number;
use of_cells::Cell;
use of_memory::Memory;
use of_props::{
    Array, PropFault, arrays_adjoin, bytes_read_back, cells_read_back, decode_int, decode_phys,
    decode_string, decodings_are_refused, encode_bytes, encode_int, encode_phys, encode_string,
    encodings_are_refused, ints_read_back, join, strings_read_back,
};
use std::alloc::{AllocError, Global};
use std::test::Fail;

/// A call by its name and at most four numbers behind it.
#[derive(Clone, Copy)]
struct Call<'a> {
    call: &'a str,
    first: Cell,
    second: Cell,
    third: Cell,
    fourth: Cell,
}

impl Call<'_> {
    /// The call of a line.
    fn read(line: &str) -> Call<'_> {
        let mut words = line.split_whitespace();
        Call {
            call: words.next().unwrap_or(""),
            first: Cell(number(words.next().unwrap_or(""))),
            second: Cell(number(words.next().unwrap_or(""))),
            third: Cell(number(words.next().unwrap_or(""))),
            fourth: Cell(number(words.next().unwrap_or(""))),
        }
    }

    /// The array that it is given.
    fn array(&self) -> Array {
        Array {
            address: self.first,
            length: self.second,
        }
    }

    /// The second array that it is given.
    fn other(&self) -> Array {
        Array {
            address: self.third,
            length: self.fourth,
        }
    }
}

/// What a call answers; what is decoded comes before the array behind it.
#[derive(Clone, Copy)]
enum Answer {
    Done,
    Number(Cell),
    Array(Array),
    Cell(Cell, Array),
    Text(Array, Array),
    Cells(Cell, Cell, Array),
}

/// Where an array stands, and how long it is.
fn shown_array(alloc: Global, array: Array) -> Result<String, AllocError> {
    format!(in alloc; "{:x} {:x}", array.address.0, array.length.0)
}

/// An answer as text.
fn shown(alloc: Global, answer: Answer) -> Result<String, AllocError> {
    let (before, array) = match answer {
        Answer::Done => return String::from_str(alloc, "done"),
        Answer::Number(number) => return format!(in alloc; "{:x}", number.0),
        Answer::Array(array) => return shown_array(alloc, array),
        Answer::Cell(cell, array) => (format!(in alloc; "{:x}", cell.0)?, array),
        Answer::Text(text, array) => (shown_array(alloc, text)?, array),
        Answer::Cells(high, low, array) => (format!(in alloc; "{:x} {:x}", high.0, low.0)?, array),
    };
    let behind = shown_array(alloc, array)?;
    format!(in alloc; "{before} {behind}")
}

/// A physical address of two cells.
fn two_cells(memory: &Memory, array: Array) -> Result<Answer, PropFault> {
    let (cells, behind) = decode_phys(memory, array, 2)?;
    match cells.as_slice() {
        [high, low] => Ok(Answer::Cells(*high, *low, behind)),
        _ => Err(PropFault::Short),
    }
}

/// What is read or decoded.
fn found(memory: &Memory, call: &Call<'_>) -> Result<Answer, PropFault> {
    match call.call {
        "decode_int" => {
            let (number, behind) = decode_int(memory, call.array())?;
            Ok(Answer::Cell(number, behind))
        }
        "decode_string" => {
            let (text, behind) = decode_string(memory, call.array())?;
            Ok(Answer::Text(text, behind))
        }
        "decode_phys" => two_cells(memory, call.array()),
        "read8" => Ok(Answer::Number(Cell(memory.read8(call.first)? as u32))),
        "read32" => Ok(Answer::Number(memory.read32(call.first)?)),
        _ => Ok(Answer::Number(memory.here())),
    }
}

/// What a call answers; `phys` has two cells.
fn answered(memory: &mut Memory, call: &Call<'_>) -> Result<Answer, PropFault> {
    let array = match call.call {
        "int" => encode_int(memory, call.first)?,
        "bytes" => encode_bytes(memory, call.first, call.second)?,
        "string" => encode_string(memory, call.first, call.second)?,
        "phys" => encode_phys(memory, &[call.first, call.second])?,
        "join" => join(call.array(), call.other())?,
        "allot" => {
            memory.allot(call.first)?;
            return Ok(Answer::Done);
        }
        _ => return found(memory, call),
    };
    Ok(Answer::Array(array))
}

/// What a call answers, or why it is refused.
fn given(alloc: Global, memory: &mut Memory, call: &Call<'_>) -> Result<String, AllocError> {
    match answered(memory, call) {
        Ok(answer) => shown(alloc, answer),
        Err(fault) => format!(in alloc; "{fault}"),
    }
}

/// Calls in turn in one memory, in which property values stand. A line has a call, and behind `=` what it answers in
/// the memory that the lines before it have made of the first.
#[derive(Drop)]
struct ValueRows {
    memory: Memory,
}

impl Rows for ValueRows {
    fn new(alloc: Global) -> Result<ValueRows, Fail> {
        let memory = Memory::new(alloc)?;
        Ok(ValueRows { memory })
    }

    fn halves(line: &str) -> (&str, &str) {
        line.split_once('=').unwrap_or(("", "none"))
    }

    fn given(&mut self, alloc: Global, call: &str) -> Result<String, Fail> {
        Ok(given(alloc, &mut self.memory, &Call::read(call))?)
    }
}

/// A number and what follows it.
const NUMBERS: &str = "\
int 1020304 = 100000 4
bytes 100002 2 = 100004 2
join 100000 4 100004 2 = 100000 6
decode_int 100000 6 = 1020304 100004 2
read8 100000 = 1
decode_int 100004 2 = property value too short
";

/// A string ends at the first zero byte.
const STRINGS: &str = "\
int 61626364 = 100000 4
string 100000 4 = 100004 5
join 100000 4 100004 5 = 100000 9
decode_string 100000 9 = 100000 8 100009 0
decode_string 100000 4 = property value too short
";

/// The cells of a physical address, and arrays that adjoin or don't.
const CELLS: &str = "\
phys 1 80000000 = 100000 8
read32 100004 = 80000000
decode_phys 100000 8 = 1 80000000 100008 0
join 100000 8 100000 8 = arrays not adjacent
join 100004 0 100000 8 = arrays not adjacent
join 100004 0 100004 0 = 100004 0
";

/// Addresses count before lengths.
const FAULTS: &str = "\
decode_int 0 2 = invalid memory address
decode_string 140000 0 = property value too short
allot 3fffd = done
int 1 = no room in the region
string 13ffff 2 = invalid memory address
here = 13fffd
";

#[test]
fn calls(rt: HostRuntime) -> Result<(), Fail> {
    check::<ValueRows, _>(&rt, rt.alloc(), &[NUMBERS, STRINGS, CELLS, FAULTS])
}

#[test]
fn laws() {
    bytes_read_back();
    ints_read_back();
    strings_read_back();
    cells_read_back();
    arrays_adjoin();
    decodings_are_refused();
    encodings_are_refused();
}
