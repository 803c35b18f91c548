//! What a step asks, and what it is answered.
use of_asking::{Answer, Query};
use of_cells::Cell;
use of_memory::Width;
use std::io::{self, Write};

/// Writes a question about an address, and the number that is to be written there, if one is.
fn say_access(
    what: &str,
    width: Width,
    address: Cell,
    number: Option<Cell>,
    line: &mut Vec<u8>,
) -> io::Result<()> {
    write!(
        line,
        "{{\"what\":\"{what}\",\"width\":{width},\"address\":{address}",
        width = width.bytes(),
        address = address.0
    )?;
    if let Some(Cell(number)) = number {
        write!(line, ",\"number\":{number}")?;
    }
    write!(line, "}}")
}

/// Writes a question.
pub(crate) fn say_query(query: Query, line: &mut Vec<u8>) -> io::Result<()> {
    match query {
        Query::Read(width, address) => say_access("read", width, address, None, line),
        Query::Write(width, address, number) => {
            say_access("write", width, address, Some(number), line)
        }
        Query::Peek(width, address) => say_access("peek", width, address, None, line),
        Query::Poke(width, address, number) => {
            say_access("poke", width, address, Some(number), line)
        }
        Query::Key => write!(line, "{{\"what\":\"key\"}}"),
        Query::KeyReady => write!(line, "{{\"what\":\"key?\"}}"),
        Query::Milliseconds => write!(line, "{{\"what\":\"milliseconds\"}}"),
        Query::Wait(Cell(time)) => write!(line, "{{\"what\":\"wait\",\"number\":{time}}}"),
    }
}

/// Writes an answer.
pub(crate) fn say_answer(answer: Answer, line: &mut Vec<u8>) -> io::Result<()> {
    match answer {
        Answer::Value(number) => write!(line, "{number}"),
        Answer::Done => write!(line, "\"done\""),
        Answer::BusFault => write!(line, "\"fault\""),
    }
}
