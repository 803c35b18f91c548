//! What is seen of machines, compared.
use crate::fault::{Fault, View, agree};
use of_asking::Query;
use of_cells::Cell;
use of_client::ClientReply;
use of_code::CodeStore;
use of_fcodes::FIRST_OWN;
use of_machine::Machine;
use std::alloc::Global;

/// How many own words are listed.
const MOST_WORDS: u32 = 12;

/// Where so many bytes are compared, and how many.
const PLACES: [u32; 3] = [0x10_0000, 0x60_0000, 0x20_0000];

const LENGTH: u32 = 96;

/// Whether two questions are the same.
fn is_same_query(one: Query, other: Query) -> bool {
    match (one, other) {
        (Query::Read(v, a), Query::Read(w, b)) | (Query::Peek(v, a), Query::Peek(w, b)) => {
            v.bytes() == w.bytes() && a == b
        }
        (Query::Write(v, a, x), Query::Write(w, b, y))
        | (Query::Poke(v, a, x), Query::Poke(w, b, y)) => {
            v.bytes() == w.bytes() && a == b && x == y
        }
        (Query::Wait(x), Query::Wait(y)) => x == y,
        (Query::Key, Query::Key)
        | (Query::KeyReady, Query::KeyReady)
        | (Query::Milliseconds, Query::Milliseconds) => true,
        _ => false,
    }
}

/// Whether the same was asked in turn.
fn are_same_queries(one: &[Query], other: &[Query]) -> bool {
    one.len() == other.len()
        && one
            .iter()
            .zip(other.iter())
            .all(|(a, b)| is_same_query(*a, *b))
}

/// Whether the same was answered in turn.
fn are_same_replies(one: &[ClientReply], other: &[ClientReply]) -> bool {
    one.len() == other.len()
        && one.iter().zip(other.iter()).all(|(a, b)| {
            a.number == b.number && a.bytes.as_slice() == b.bytes.as_slice()
        })
}

/// Looks whether two machines have printed the same, and have the same on their data stacks.
pub fn compare_shown<A: CodeStore, B: CodeStore>(
    one: &Machine<A>,
    other: &Machine<B>,
) -> Result<(), Fault> {
    agree(View::Console, one.console() == other.console())?;
    agree(View::Stack, one.stack() == other.stack())
}

/// Looks whether two machines have made as many steps, and show the same behind them.
pub fn compare_states<A: CodeStore, B: CodeStore>(
    one: &Machine<A>,
    other: &Machine<B>,
) -> Result<(), Fault> {
    agree(View::Steps, one.steps() == other.steps())?;
    agree(View::Depth, one.depth() == other.depth())?;
    agree(View::Made, one.made() == other.made())?;
    agree(View::Asked, are_same_queries(one.asked(), other.asked()))?;
    compare_shown(one, other)
}

/// The same, and whether something runs, with what clients were answered.
pub fn compare_all<A: CodeStore, B: CodeStore>(
    one: &Machine<A>,
    other: &Machine<B>,
) -> Result<(), Fault> {
    compare_states(one, other)?;
    agree(View::Running, one.is_running() == other.is_running())?;
    agree(
        View::Asked,
        one.question().is_some() == other.question().is_some(),
    )?;
    agree(
        View::Replies,
        are_same_replies(one.replies(), other.replies()),
    )
}

/// Whether so many bytes from an address on are the same.
fn is_same_memory<A: CodeStore, B: CodeStore>(
    one: &Machine<A>,
    other: &Machine<B>,
    start: u32,
) -> bool {
    (0..LENGTH).all(|offset| {
        let address = Cell(start.wrapping_add(offset));
        one.byte(address) == other.byte(address)
    })
}

/// Looks whether `see` prints the same of an own word.
fn compare_word<A: CodeStore, B: CodeStore>(
    alloc: Global,
    one: &Machine<A>,
    other: &Machine<B>,
    number: u32,
) -> Result<(), Fault> {
    let xt = Cell(FIRST_OWN.wrapping_add(number.wrapping_mul(4)));
    let (seen, wanted) = (one.see(alloc, xt)?, other.see(alloc, xt)?);
    agree(View::Words, seen.as_slice() == wanted.as_slice())
}

/// Looks whether two machines hold the same bytes and words.
pub fn compare_held<A: CodeStore, B: CodeStore>(
    alloc: Global,
    one: &Machine<A>,
    other: &Machine<B>,
) -> Result<(), Fault> {
    for start in PLACES {
        agree(View::Memory, is_same_memory(one, other, start))?;
    }
    let (listed, wanted) = (one.words(alloc)?, other.words(alloc)?);
    agree(View::Words, listed.as_slice() == wanted.as_slice())?;
    for number in 0..MOST_WORDS {
        compare_word(alloc, one, other, number)?;
    }
    Ok(())
}
