//! The devices of a board, alone and in a rack: what they answer in turn.

use crate::rows::{Rows, check};
use crate::running::number;
use of_asking::{Answer, Query, is_fitting};
use of_cells::Cell;
use of_devices::{
    AddressRange, Clock, DeviceMemory, Keyboard, Part, Rack, ask, broken_addresses_fault,
    clock_counts, keys_come_in_order, memory_holds, standard_board,
};
use of_memory::Width;
use std::alloc::{AllocError, Global};
use std::test::Fail;

/// Device memory: the first bytes are as given and the others 0, the highest byte of a number stands first, and only
/// an access is taken all of whose bytes lie in it.
const MEMORIES: &str = "\
memory 80000000 8 0102|read 4 80000000|1020000
memory 80000000 8 01020304|read 1 80000000, read 1 80000003, read 1 80000004, read 1 80000007|1 4 0 0
memory 80000000 8 01020304|read 2 80000000, read 2 80000002, peek 2 80000002, peek 1 80000001|102 304 304 2
memory 80000000 8|write 4 80000004 12345678, read 1 80000004, read 1 80000007, read 2 80000006|done 12 78 5678
memory 80000000 8|write 2 80000002 12345678, read 4 80000000, read 4 80000004|done 5678 0
memory 80000000 8|write 1 80000001 12345678, poke 2 80000006 ffff, read 4 80000000, peek 4 80000004|\
done done 780000 ffff
memory 80000000 8 ffffffff|poke 1 80000000 0, poke 4 80000004 80000001, read 4 80000000, read 4 80000004|\
done done ffffff 80000001
memory 80000000 8|read 4 80000005, read 4 80000008, read 1 7fffffff, read 2 7fffffff, write 2 80000007 ffff|\
fault fault fault fault fault
memory 80000000 8|write 2 80000007 ffff, read 4 80000004, peek 4 7ffffffe, poke 1 80000008 1|fault 0 fault fault
memory 80000000 4|read 4 80000000, read 4 80000001, read 2 80000003, read 1 80000003|0 fault fault 0
memory 80000000 0|read 1 80000000, write 1 80000000 1, peek 1 7fffffff|fault fault fault
memory 80000000 8|key, key?, get-msecs, ms 5|0 0 0 done
";

/// The first and the last addresses. A memory may go on behind the last.
const EDGES: &str = "\
memory fffffffc 4 01020304|read 4 fffffffc, read 1 ffffffff, read 2 ffffffff, write 4 fffffffe 5|1020304 4 fault fault
memory fffffffc 4|write 2 fffffffe abcd, read 4 fffffffc, read 1 0, read 4 0|done abcd fault fault
memory ffffffff 3 010203|read 1 ffffffff, read 2 ffffffff, read 4 ffffffff, read 1 0|1 102 fault fault
memory 0 4 01020304|read 4 0, read 1 3, read 1 4, read 1 ffffffff, read 4 fffffffe|1020304 4 fault fault fault
fault fffffffc 4; memory fffffff0 20|read 1 fffffffb, read 4 fffffff9, read 1 ffffffff, read 1 0|0 fault fault fault
fault fffffffc 100; memory fffffff0 20|read 1 fffffffb, read 1 fffffffc, read 1 0|0 fault fault
";

/// The first of two devices answers where both take a question. A broken range takes each access that touches it, and
/// one without addresses none.
const OVERLAPS: &str = "\
memory 80000000 4 01020304; memory 80000002 4 a1a2a3a4|read 2 80000002, read 2 80000004, read 4 80000002|\
304 a3a4 a1a2a3a4
memory 80000000 4; memory 80000002 4|write 2 80000002 ffff, write 4 80000002 12345678, read 4 80000000|done done ffff
memory 80000000 4; memory 80000002 4|write 4 80000002 12345678, read 2 80000002, read 2 80000004|done 0 5678
fault 80000004 2; memory 80000000 10|read 4 80000000, read 4 80000001, read 1 80000005, read 1 80000006|0 fault fault 0
fault 80000004 2; memory 80000000 10|peek 2 80000003, poke 2 80000005 1, write 4 80000002 1, read 4 80000006|\
fault fault fault 0
fault 80000004 2; memory 80000000 10|poke 4 80000006 1, write 1 80000003 1, read 4 80000000, read 4 80000006|\
done done 1 1
memory 80000000 10; fault 80000004 2|read 4 80000004, write 4 80000004 1, read 4 80000004|0 done 1
fault 80000001 0; memory 80000000 4|read 4 80000000, read 2 80000000, read 1 80000001|0 0 0
fault 80000001 1; memory 80000000 4|read 4 80000000, read 1 80000000, read 1 80000001, read 2 80000002|fault 0 fault 0
fault 80000000 4|read 4 80000000, key, key?, get-msecs, ms 1|fault 0 0 0 done
keys 61; keys 62|key, key?, key|61 0 0
clock; clock|get-msecs, get-msecs|0 1
";

/// Keys in the order of typing, times that count, and where no device takes a question.
const OTHERS: &str = "\
keys 616263|key?, key, key, key?, key?, key, key?, key, key?|1 61 62 1 1 63 0 0 0
keys 00ff|key, key?, key, key?, key|0 1 ff 0 0
keys|key?, key, key?|0 0 0
keys 61; clock|get-msecs, key, get-msecs, ms ffffffff, get-msecs, key?|0 61 1 done 2 0
clock; keys 61|key, read 1 0, get-msecs, write 1 0 0, peek 4 0, poke 4 0 0, get-msecs|61 fault 0 fault fault fault 1
clock; memory 80000000 4; keys 6162|write 4 80000000 5, get-msecs, key, read 4 80000000, get-msecs, key|\
done 0 61 5 1 62
none|read 1 80000000, write 1 80000000 0, peek 1 80000000, poke 1 80000000 0, key, key?, get-msecs, ms 0|\
fault fault fault fault 0 0 0 done
standard|read 4 80000000, read 4 80000ffc, read 1 80001000, read 1 7fffffff, key, get-msecs, get-msecs|\
0 0 fault fault 0 0 1
standard|write 4 80000ffc 12345678, read 4 80000ffc, read 4 80000000, read 4 80000ffd, get-msecs, ms 1|\
done 12345678 0 fault 0 done
";

/// The word at a place of a text, or an empty one.
fn word(text: &str, place: usize) -> &str {
    text.split_whitespace().nth(place).unwrap_or("")
}

/// Device memory at an address, of at least so many bytes, the first of them in hexadecimal digits.
fn memory(alloc: Global, address: Cell, length: usize, digits: &str) -> Result<Part, Fail> {
    let first = hex::decode(alloc, digits)?;
    let size = usize::max(length, first.len());
    Ok(Part::Memory(DeviceMemory::new(alloc, address, size, &first)?))
}

/// A keyboard on which bytes in hexadecimal digits were typed.
fn keyboard(alloc: Global, digits: &str) -> Result<Part, Fail> {
    let keys = hex::decode(alloc, digits)?;
    Ok(Part::Keyboard(Keyboard::new(alloc, &keys)?))
}

/// The part that a text stands for: `memory` with address, length and first bytes, `fault` with address and length,
/// `keys` with bytes, or `clock`.
fn part(alloc: Global, text: &str) -> Result<Part, Fail> {
    let address = Cell(number(word(text, 1)));
    let length = number(word(text, 2)) as usize;
    match word(text, 0) {
        "memory" => memory(alloc, address, length, word(text, 3)),
        "fault" => Ok(Part::Broken(AddressRange { address, length })),
        "keys" => keyboard(alloc, word(text, 1)),
        _ => Ok(Part::Clock(Clock::new())),
    }
}

/// The parts that a text stands for, with `;` between them: none, or those of the standard board.
fn parts(alloc: Global, text: &str) -> Result<Vec<Part>, Fail> {
    if text == "standard" {
        return Ok(standard_board(alloc)?);
    }
    let mut parts = Vec::new(alloc);
    if text != "none" {
        for each in text.split(';') {
            parts.push(part(alloc, each)?)?;
        }
    }
    Ok(parts)
}

/// The width of so many bytes.
fn width(bytes: &str) -> Width {
    match bytes {
        "1" => Width::One,
        "2" => Width::Two,
        _ => Width::Four,
    }
}

/// The question that a text stands for, with a width in bytes, an address and a number.
fn query(text: &str) -> Query {
    let width = width(word(text, 1));
    let address = Cell(number(word(text, 2)));
    let x = Cell(number(word(text, 3)));
    match word(text, 0) {
        "read" => Query::Read(width, address),
        "write" => Query::Write(width, address, x),
        "peek" => Query::Peek(width, address),
        "poke" => Query::Poke(width, address, x),
        "key" => Query::Key,
        "key?" => Query::KeyReady,
        "get-msecs" => Query::Milliseconds,
        _ => Query::Wait(Cell(number(word(text, 1)))),
    }
}

/// Shows an answer behind others.
fn show(text: &mut String, answer: Answer) -> Result<(), AllocError> {
    match answer {
        Answer::Value(x) => write!(text, "{x:x} "),
        Answer::Done => text.push_str("done "),
        Answer::BusFault => text.push_str("fault "),
    }
}

/// Shows the answer to a question behind others, and whether it doesn't fit.
fn show_fitting(text: &mut String, query: Query, answer: Answer) -> Result<(), AllocError> {
    show(text, answer)?;
    if !is_fitting(query, answer) {
        text.push_str("misfit ")?;
    }
    Ok(())
}

/// What a rack of parts answers to questions in turn.
fn answers(alloc: Global, parts: Vec<Part>, questions: &str) -> Result<String, Fail> {
    let mut rack: Rack = Vec::new(alloc);
    for part in parts {
        rack.push(Box::new(alloc, part)?)?;
    }
    let mut text = String::new(alloc);
    for question in questions.split(',') {
        let query = query(question);
        let answer = ask(&mut rack, query);
        show_fitting(&mut text, query, answer)?;
    }
    Ok(text)
}

/// Lines with parts, questions, and the answers to these in turn: a number, `done` or `fault`.
#[derive(Drop)]
struct RackRows;

impl Rows for RackRows {
    fn new(_alloc: Global) -> Result<RackRows, Fail> {
        Ok(RackRows)
    }

    fn halves(line: &str) -> (&str, &str) {
        line.rsplit_once('|').unwrap_or(("", "none"))
    }

    fn given(&mut self, alloc: Global, call: &str) -> Result<String, Fail> {
        let (board, questions) = call.split_once('|').unwrap_or(("", ""));
        answers(alloc, parts(alloc, board)?, questions)
    }
}

#[test]
fn memories(rt: HostRuntime) -> Result<(), Fail> {
    check::<RackRows, _>(&rt, rt.alloc(), &[MEMORIES, EDGES])
}

#[test]
fn racks(rt: HostRuntime) -> Result<(), Fail> {
    check::<RackRows, _>(&rt, rt.alloc(), &[OVERLAPS, OTHERS])
}

#[test]
fn laws() {
    memory_holds();
    broken_addresses_fault();
    keys_come_in_order();
    clock_counts();
}
