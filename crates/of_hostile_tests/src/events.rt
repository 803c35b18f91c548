//! Events that happen to machines over both stores of code, and the questions of steps that ask.
use crate::shared::bytes_of;
use crate::tables::{Cases, check, halves, push_wrong};
use of_asking::{Answer, Query};
use of_cell_code::CellCode;
use of_client::ClientCall;
use of_code::{CodeStore, ListCode};
use of_machine::{Machine, Progress};
use of_nodes::Phandle;
use of_refusal::Refusal;
use std::alloc::{AllocError, Global};
use std::test::Fail;

/// Machines over both stores of code, to which the same happens.
#[derive(Drop)]
pub(crate) struct Pair {
    pub(crate) list: Machine<ListCode>,
    pub(crate) cells: Machine<CellCode>,
}

/// A machine over a list of items, on which nothing ran yet.
fn over_list(alloc: Global) -> Result<Machine<ListCode>, AllocError> {
    Machine::new(alloc, ListCode::new(alloc))
}

/// A machine over cells of bytes, on which nothing ran yet.
fn over_cells(alloc: Global) -> Result<Machine<CellCode>, AllocError> {
    let code = CellCode::new(alloc)?;
    Machine::new(alloc, code)
}

/// Two values, if both were made. They are any values here: where a function has a machine as its own, its proof goes
/// through all that a machine holds wherever the function may end.
fn both<A: Drop, B: Drop>(
    first: Result<A, AllocError>,
    second: Result<B, AllocError>,
) -> Result<(A, B), AllocError> {
    Ok((first?, second?))
}

/// Such machines on which nothing ran yet.
pub(crate) fn new_pair(alloc: Global) -> Result<Pair, Fail> {
    let (list, cells) = both(over_list(alloc), over_cells(alloc))?;
    Ok(Pair { list, cells })
}

/// Appends a question: its kind; and its width in bytes, its address and its number, where it has them.
fn push_query(text: &mut String, query: Query) -> Result<(), Fail> {
    match query {
        Query::Read(width, a) => write!(text, "read {} {:x}", width.bytes(), a.0)?,
        Query::Write(width, a, x) => write!(text, "write {} {:x} {:x}", width.bytes(), a.0, x.0)?,
        Query::Peek(width, a) => write!(text, "peek {} {:x}", width.bytes(), a.0)?,
        Query::Poke(width, a, x) => write!(text, "poke {} {:x} {:x}", width.bytes(), a.0, x.0)?,
        Query::Key => text.push_str("key")?,
        Query::KeyReady => text.push_str("key?")?,
        Query::Milliseconds => text.push_str("get-msecs")?,
        Query::Wait(n) => write!(text, "ms {:x}", n.0)?,
    }
    Ok(())
}

/// The answer that a word stands for: `done`, `fault`, or a number in hexadecimal digits.
fn answer_of(word: &str) -> Result<Answer, Fail> {
    Ok(match word {
        "done" => Answer::Done,
        "fault" => Answer::BusFault,
        digits => Answer::Value(u32::from_str_radix(digits, 16)?),
    })
}

/// What is said of a call that may be refused.
fn said(answer: Result<(), Refusal>) -> &'static str {
    match answer {
        Ok(()) => "done",
        Err(Refusal::Busy) => "busy",
        Err(Refusal::NotAsked) => "not asked",
        Err(Refusal::WrongAnswer) => "wrong answer",
        Err(Refusal::NoNode) => "no such node",
        Err(_) => "refused",
    }
}

/// Appends what a step comes to.
fn push_step<C: CodeStore>(text: &mut String, machine: &mut Machine<C>) -> Result<(), Fail> {
    match machine.step()? {
        Progress::Done => text.push_str("step")?,
        Progress::Asks(query) => push_query(text, query)?,
        Progress::Ended => text.push_str("none")?,
    }
    Ok(())
}

/// Hands in an event that may be refused: a load of an image for `/slot`, or for a node that isn't there, a line, a
/// client's call, or an answer.
fn hand_in<C: CodeStore>(
    machine: &mut Machine<C>,
    image: &[u8],
    event: &str,
) -> Result<&'static str, Fail> {
    Ok(said(match event {
        "load" => machine.load(image, "/slot"),
        "lost" => machine.load(image, "/none"),
        "line" => machine.line(b"get-msecs"),
        "client" => machine.client(&ClientCall::Child(Phandle::of(2))),
        word => machine.answer(answer_of(word)?),
    }))
}

/// Appends what an event comes to.
fn push_event<C: CodeStore>(
    text: &mut String,
    machine: &mut Machine<C>,
    image: &[u8],
    event: &str,
) -> Result<(), Fail> {
    if event == "step" {
        return push_step(text, machine);
    }
    text.push_str(hand_in(machine, image, event)?)?;
    Ok(())
}

/// What is seen of a machine: the steps made, the depth of the return stack, how much was asked, replied and printed,
/// whether something runs, which question is open, and the data stack.
fn seen_of<C: CodeStore>(alloc: Global, machine: &Machine<C>) -> Result<String, Fail> {
    let mut text = format!(in alloc;
        "{} {} {} ",
        machine.steps(),
        machine.depth(),
        machine.is_running()
    )?;
    write!(text, "{} ", machine.asked().len())?;
    write!(
        text,
        "{} {} ",
        machine.replies().len(),
        machine.console().len()
    )?;
    for cell in machine.stack() {
        write!(text, "{:x} ", cell.0)?;
    }
    if let Some(query) = machine.question() {
        push_query(&mut text, query)?;
    }
    Ok(text)
}

/// What an event comes to, and what is seen of the machine behind it.
#[derive(Drop)]
struct Outcome {
    said: String,
    seen: String,
}

/// Lets an event happen to a machine. What it comes to is said behind a `=` where it changes nothing that is seen.
fn happen<C: CodeStore>(
    alloc: Global,
    machine: &mut Machine<C>,
    image: &[u8],
    event: &str,
) -> Result<Outcome, Fail> {
    let before = seen_of(alloc, machine)?;
    let mut said = String::new(alloc);
    push_event(&mut said, machine, image, event)?;
    let seen = seen_of(alloc, machine)?;
    let mark = if before.as_str() == seen.as_str() {
        "="
    } else {
        ""
    };
    let said = format!(in alloc; "{mark}{said}")?;
    Ok(Outcome { said, seen })
}

/// What an event comes to on both machines; or, where these differ, both and what is seen of them.
fn agreed(alloc: Global, list: Outcome, cells: Outcome) -> Result<String, Fail> {
    if list.said.as_str() == cells.said.as_str() && list.seen.as_str() == cells.seen.as_str() {
        return Ok(list.said);
    }
    Ok(format!(in alloc;
        "{} {} and {} {}",
        list.said, list.seen, cells.said, cells.seen
    )?)
}

/// What an event comes to on both machines.
pub(crate) fn happen_to_both(
    alloc: Global,
    pair: &mut Pair,
    image: &[u8],
    event: &str,
) -> Result<String, Fail> {
    let list = happen(alloc, &mut pair.list, image, event)?;
    let cells = happen(alloc, &mut pair.cells, image, event)?;
    agreed(alloc, list, cells)
}

/// Tokens; behind `|` events; and behind a second one what they come to, with a `=` where nothing changes. A step that
/// asks makes its question open, and the next one gives it again. An answer is refused where no question is open, and
/// where it doesn't fit the one that is.
const QUESTIONS: &str = "\
1080000003 0230 00|ff load ff step ff step step 100 done ff ff step step|\
=not asked, done, =not asked, step, =not asked, read 1 80000003, =read 1 80000003, =wrong answer, =wrong answer, done, \
=not asked, step, =none, 
1080000002 0232 00|load step step 10000 done step ffff ffff step|\
done, step, read 2 80000002, =wrong answer, =wrong answer, =read 2 80000002, done, =not asked, step, 
1012345678 1080000002 0233 00|load step step 5 step ff 0 step done done step step|\
done, step, step, =not asked, write 2 80000002 5678, =wrong answer, =wrong answer, =write 2 80000002 5678, done, \
=not asked, step, =none, 
1080000004 0222 00|load step step done step fault fault step step|\
done, step, peek 4 80000004, =wrong answer, =peek 4 80000004, done, =not asked, step, =none, 
10fedcba98 1080000003 0223 00|load step step step 98 0 step fault step step|\
done, step, step, poke 1 80000003 98, =wrong answer, =wrong answer, =poke 1 80000003 98, done, step, =none, 
8e 00|load 41 step done fault 100 step 41 41 step step|\
done, =not asked, key, =wrong answer, =wrong answer, =wrong answer, =key, done, =not asked, step, =none, 
8d 00|load 1 step done fault 2 step 1 1 step step|\
done, =not asked, key?, =wrong answer, =wrong answer, =wrong answer, =key?, done, =not asked, step, =none, 
0125 00|load 1 step done fault step ffffffff 1 step step|\
done, =not asked, get-msecs, =wrong answer, =wrong answer, =get-msecs, done, =not asked, step, =none, 
a8 0126 00|load step step fault 3 step done done step step|\
done, step, ms 3, =wrong answer, =wrong answer, =ms 3, done, =not asked, step, =none, 
1080000001 0234 00|load step step step 5|done, step, step, =none, =not asked, 
8e 00|load load line lost step load line lost client step 41 load line lost step load step|\
done, =busy, =busy, =busy, key, =busy, =busy, =busy, done, =key, done, =busy, =busy, =busy, step, done, key, 
";

/// Appends what events come to on both machines.
fn push_events(
    alloc: Global,
    text: &mut String,
    pair: &mut Pair,
    image: &[u8],
    events: &str,
) -> Result<(), Fail> {
    for event in events.split_whitespace() {
        let said = happen_to_both(alloc, pair, image, event)?;
        write!(text, "{said}, ")?;
    }
    Ok(())
}

/// What events come to on new machines for an image of tokens.
fn given(alloc: Global, tokens: &str, events: &str) -> Result<String, Fail> {
    let digits = format!(in alloc; "f108000000000000{tokens}")?;
    let image = bytes_of(alloc, digits.as_str())?;
    let mut pair = new_pair(alloc)?;
    let mut text = String::new(alloc);
    push_events(alloc, &mut text, &mut pair, &image, events)?;
    Ok(text)
}

/// Events around questions.
struct QuestionCases;

impl Cases for QuestionCases {
    fn wrongs(alloc: Global, line: &str) -> Result<String, Fail> {
        let (tokens, rest) = halves(line);
        let (events, wanted) = halves(rest);
        let given = given(alloc, tokens, events)?;
        let mut wrongs = String::new(alloc);
        push_wrong(&mut wrongs, 0, given.as_str(), wanted)?;
        Ok(wrongs)
    }
}

#[test]
fn questions_stay_open(rt: HostRuntime) -> Result<(), Fail> {
    check::<QuestionCases, _>(&rt, rt.alloc(), QUESTIONS)
}
