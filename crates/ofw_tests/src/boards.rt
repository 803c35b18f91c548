//! Texts of devices: which devices they say, and which word fits nowhere.

use crate::tables::{Rows, check, halves, replaced};
use of_asking::{Answer, Query};
use of_calls::{TextFault, parse_board};
use of_cells::Cell;
use of_devices::{Part, Rack, ask};
use of_memory::Width;
use std::alloc::{AllocError, Global};
use std::test::Fail;

/// Texts that have no fault, with `,` for a newline, and behind `|` what their devices answer to reads of a byte at
/// 80000000, 80000001, 80000002 and ffffffff, to `key`, `key?`, `get-msecs` and `get-msecs`.
const BOARDS: &str = "\
|fault fault fault fault 0 0 0 0
memory 80000000 2 a1b2,|a1 b2 fault fault 0 0 0 0
memory 80000000 2 a1|a1 0 fault fault 0 0 0 0
memory 80000000 2|0 0 fault fault 0 0 0 0
  memory\\t80000000  0003  AbCdEf |ab cd ef fault 0 0 0 0
memory ffffffff 1 7f,clock|fault fault fault 7f 0 0 0 1
memory FFFFFFFF 1000000 7f|fault fault fault 7f 0 0 0 0
memory 80000000 0,memory 80000000 3 010203|1 2 3 fault 0 0 0 0
fault 80000001 1,memory 80000000 3 010203|1 fault 3 fault 0 0 0 0
memory 80000000 3 010203,fault 80000001 1|1 2 3 fault 0 0 0 0
fault 80000001 0,memory 80000000 3 010203|1 2 3 fault 0 0 0 0
fault 80000000 1000000,memory 80000000 3|fault fault fault fault 0 0 0 0
keys 6162|fault fault fault fault 61 1 0 0
keys 61,clock,keys 62|fault fault fault fault 61 0 0 1
clock,clock|fault fault fault fault 0 0 0 1
";

/// Texts that have a fault: its line and column, and which it is, behind `|`.
const FAULTS: &str = "\
memory|1:7 number
memory 80000000|1:16 number
memory 80000000 |1:17 number
memory 100000000 1|1:8 number
memory 8000000g 1|1:8 number
memory -1 1|1:8 number
memory 0x1 1|1:8 number
memory 80000000 1000001|1:17 number
memory 80000000 100000000|1:17 number
memory 80000000 x|1:17 number
memory 80000000 2 a|1:19 number
memory 80000000 2 a1b|1:19 number
memory 80000000 2 a1g2|1:19 number
memory 80000000 2 a1b2c3|1:19 number
memory 80000000 0 00|1:19 number
memory 80000000 2 a1\\r|1:19 number
memory 80000000 2 a1 b2|1:22 many
memory x y z|1:8 number
fault|1:6 number
fault 80000000|1:15 number
fault 80000000 1000001|1:16 number
fault 80000000 2 0|1:18 many
keys|1:5 number
keys  |1:7 number
keys 6|1:6 number
keys 6z|1:6 number
keys 61 62|1:9 many
clock 0|1:7 many
clock\\r|1:1 unknown
Clock|1:1 unknown
clocks|1:1 unknown
key 61|1:1 unknown
done|1:1 unknown
  |1:3 unknown
clock,,clock|2:1 unknown
clock, disk|2:2 unknown
memory 80000000 2 a1b2,keys 616|2:6 number
";

/// A text, whose newlines are written `,`, tabs `\t` and carriage returns `\r`.
fn text_of(alloc: Global, written: &str) -> Result<String, Fail> {
    let lines = replaced(alloc, written, ",", "\n")?;
    let tabbed = replaced(alloc, lines.as_str(), "\\t", "\t")?;
    replaced(alloc, tabbed.as_str(), "\\r", "\r")
}

/// Appends an answer.
fn push_answer(text: &mut String, answer: Answer) -> Result<(), AllocError> {
    match answer {
        Answer::Value(x) => write!(text, "{x:x} "),
        Answer::Done => text.push_str("done "),
        Answer::BusFault => text.push_str("fault "),
    }
}

/// What devices answer to a question.
fn answer_to(rack: &mut Rack, query: Query) -> Answer {
    ask(rack, query)
}

/// Appends what devices answer to the questions of the table, in turn.
fn push_answers(text: &mut String, rack: &mut Rack) -> Result<(), AllocError> {
    for address in [0x8000_0000, 0x8000_0001, 0x8000_0002, 0xffff_ffff] {
        let query = Query::Read(Width::One, Cell(address));
        push_answer(text, answer_to(rack, query))?;
    }
    let others = [
        Query::Key,
        Query::KeyReady,
        Query::Milliseconds,
        Query::Milliseconds,
    ];
    for query in others {
        push_answer(text, answer_to(rack, query))?;
    }
    Ok(())
}

/// What the devices of a rack answer.
fn answers_of(alloc: Global, rack: &mut Rack) -> Result<String, Fail> {
    let mut text = String::new(alloc);
    push_answers(&mut text, rack)?;
    Ok(String::from_str(alloc, text.trim_end())?)
}

/// What devices answer.
fn answers(alloc: Global, parts: Vec<Part>) -> Result<String, Fail> {
    let mut rack: Rack = Vec::new(alloc);
    for part in parts {
        rack.push(Box::new(alloc, part)?)?;
    }
    answers_of(alloc, &mut rack)
}

/// Line and column of a fault, and which it is.
fn shown(alloc: Global, fault: TextFault) -> Result<String, Fail> {
    let (place, name) = match fault {
        TextFault::Unknown(place) => (place, "unknown"),
        TextFault::BadName(place) => (place, "name"),
        TextFault::BadNumber(place) => (place, "number"),
        TextFault::TooMany(place) => (place, "many"),
        TextFault::TooLong(place) => (place, "long"),
        TextFault::NoMemory => return Ok(String::from_str(alloc, "no memory")?),
    };
    Ok(format!(in alloc; "{}:{} {name}", place.line, place.column)?)
}

/// The devices of a text.
fn parts_of(alloc: Global, text: &str) -> Result<Vec<Part>, TextFault> {
    parse_board(alloc, text.as_bytes())
}

/// What the devices of a text answer, or the text's fault.
fn answers_in(alloc: Global, text: &str) -> Result<String, Fail> {
    match parts_of(alloc, text) {
        Ok(parts) => answers(alloc, parts),
        Err(fault) => shown(alloc, fault),
    }
}

/// Texts of devices.
struct BoardRows;

impl Rows for BoardRows {
    fn given(alloc: Global, line: &str) -> Result<(String, String), Fail> {
        let (written, wanted) = halves(line, '|');
        let text = text_of(alloc, written)?;
        let given = answers_in(alloc, text.as_str())?;
        Ok((given, String::from_str(alloc, wanted)?))
    }
}

#[test]
fn texts(rt: HostRuntime) -> Result<(), Fail> {
    check::<BoardRows, _>(&rt, rt.alloc(), BOARDS)?;
    check::<BoardRows, _>(&rt, rt.alloc(), FAULTS)
}
