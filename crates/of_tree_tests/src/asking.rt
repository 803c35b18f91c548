//! The words that ask the outside: what they ask, and what they leave with an answer at hand.

use crate::rows::{Rows, check};
use crate::running::{Trial, left, number};
use of_asking::{
    Answer, Halt, Query, answers_settle, asking_words_throw_listed, images_stay_asked, is_fitting,
    questions_are_said, run_devices_word, run_keys_word,
};
use of_board::Board;
use of_fcodes::{DevicesWord, KeysWord, Word, word_with_name};
use of_stacks::{Stop, Throw};
use std::alloc::{AllocError, Global};
use std::test::Fail;

/// What is asked of devices, keys and time. All operands stay.
const ASKED: &str = "\
%1 %80000001|rb@|-|1 80000001 asks read 1 80000001
%1 %80000002|rw@|-|1 80000002 asks read 2 80000002
%1 %80000004|rl@|-|1 80000004 asks read 4 80000004
%12345678 %80000001|rb!|-|12345678 80000001 asks write 1 80000001 78
%12345678 %80000002|rw!|-|12345678 80000002 asks write 2 80000002 5678
%12345678 %80000004|rl!|-|12345678 80000004 asks write 4 80000004 12345678
%80000003|cpeek|-|80000003 asks peek 1 80000003
%80000006|wpeek|-|80000006 asks peek 2 80000006
%80000008|lpeek|-|80000008 asks peek 4 80000008
%fedcba98 %80000003|cpoke|-|fedcba98 80000003 asks poke 1 80000003 98
%fedcba98 %80000006|wpoke|-|fedcba98 80000006 asks poke 2 80000006 ba98
%fedcba98 %80000008|lpoke|-|fedcba98 80000008 asks poke 4 80000008 fedcba98
%1|key|-|1 asks key
%1|key?|-|1 asks key?
%1|get-msecs|-|1 asks get-msecs
%1 %fffffffe|ms|-|1 fffffffe asks ms fffffffe
";

/// What answers make of the stack.
const ANSWERED: &str = "\
%1 %80000001|rb@|ff|1 ff
%80000001|rb@|0|0
%1 %80000002|rw@|fedc|1 fedc
%1 %80000004|rl@|fedcba98|1 fedcba98
%80000001|rb@|fault|80000001 throws -258
%80000002|rw@|fault|80000002 throws -258
%80000004|rl@|fault|80000004 throws -258
%1 %2 %80000001|rb!|done|1
%1 %2 %80000002|rw!|done|1
%1 %2 %80000004|rl!|done|1
%2 %80000001|rb!|fault|2 80000001 throws -258
%2 %80000002|rw!|fault|2 80000002 throws -258
%2 %80000004|rl!|fault|2 80000004 throws -258
%1 %80000001|cpeek|7f|1 7f ffffffff
%1 %80000002|wpeek|0|1 0 ffffffff
%1 %80000004|lpeek|ffffffff|1 ffffffff ffffffff
%1 %80000001|cpeek|fault|1 0
%1 %80000002|wpeek|fault|1 0
%1 %80000004|lpeek|fault|1 0
%1 %2 %80000001|cpoke|done|1 ffffffff
%1 %2 %80000002|wpoke|done|1 ffffffff
%1 %2 %80000004|lpoke|done|1 ffffffff
%1 %2 %80000001|cpoke|fault|1 0
%1 %2 %80000002|wpoke|fault|1 0
%1 %2 %80000004|lpoke|fault|1 0
%1|key|41|1 41
%1|key?|1|1 ffffffff
%1|key?|0|1 0
%1|get-msecs|ffffffff|1 ffffffff
%1 %2|ms|done|1
";

/// Faults that come before the question, also where an answer is at hand: -4, -23 and -3.
const REFUSED: &str = "\
|rb@|-|throws -4
|rw!|-|throws -4
%80000001|rl!|-|80000001 throws -4
|wpeek|-|throws -4
|lpoke|-|throws -4
%80000001|cpoke|-|80000001 throws -4
|ms|-|throws -4
|ms|done|throws -4
%80000001|rw@|-|80000001 throws -23
%80000001|rw@|ff|80000001 throws -23
%80000002|rl@|-|80000002 throws -23
%1 %80000001|rw!|-|1 80000001 throws -23
%1 %80000002|rl!|-|1 80000002 throws -23
%80000001|wpeek|-|80000001 throws -23
%80000001|wpeek|fault|80000001 throws -23
%80000002|lpeek|-|80000002 throws -23
%1 %80000001|wpoke|-|1 80000001 throws -23
%1 %80000002|lpoke|-|1 80000002 throws -23
*100|key|-|256 cells throws -3
*100|key|41|256 cells throws -3
*100|key?|-|256 cells throws -3
*100|get-msecs|-|256 cells throws -3
";

/// A stack that has room for one cell, or none: -3 comes behind the question only where a peek finds a number.
const FULL: &str = "\
*ff|key|-|255 cells asks key
*ff|key|41|256 cells
*ff|key?|1|256 cells
*ff|get-msecs|0|256 cells
*100|ms|-|256 cells asks ms 0
*ff %80000001|rb@|ff|256 cells
*ff %80000001|cpeek|-|256 cells asks peek 1 80000001
*ff %80000001|cpeek|ff|256 cells throws -3
*ff %80000001|cpeek|fault|256 cells
*fe %80000001|cpeek|ff|256 cells
*fe %80000002|wpeek|fault|255 cells
*ff %100000|cpeek|-|256 cells throws -3
*ff %140000|cpeek|-|256 cells
";

/// An access is a device's only where all its bytes lie from 0x80000000 to 0xBFFFFFFF.
const EDGES: &str = "\
%7fffffff|rb@|-|7fffffff throws -9
%80000000|rb@|-|80000000 asks read 1 80000000
%bfffffff|rb@|-|bfffffff asks read 1 bfffffff
%c0000000|rb@|-|c0000000 throws -9
%bffffffe|rw@|-|bffffffe asks read 2 bffffffe
%7fffffff|rw@|-|7fffffff throws -9
%bfffffff|rw@|-|bfffffff throws -9
%bffffffc|rl@|-|bffffffc asks read 4 bffffffc
%7ffffffe|rl@|-|7ffffffe throws -9
%bffffffd|rl@|-|bffffffd throws -9
%bffffffe|rl@|-|bffffffe throws -9
%ffffffff|rl@|-|ffffffff throws -9
%1 %bffffffe|rl!|-|1 bffffffe throws -9
%1 %c0000000|rb!|-|1 c0000000 throws -9
%bffffffe|lpeek|-|0
%ffffffff|cpeek|-|0
%1 %bfffffff|wpoke|-|0
%1 %7fffffff|cpoke|-|0
";

/// Addresses of the data space ask nothing, and no answer is looked at.
const SPACE: &str = "\
%12345678 %100000 ! %100000|rl@|-|12345678
%12345678 %100000 ! %100002|rw@|-|5678
%12345678 %100000 ! %100003|rb@|41|78
%12345678 %100000|rl!|- %100000 l@|12345678
%12345678 %100000|rw!|- %100000 l@|56780000
%12345678 %100001|rb!|fault %100000 l@|780000
%100001|rw@|-|100001 throws -23
%1 %100002|rl!|-|1 100002 throws -23
%fffff|rb@|-|fffff throws -9
%13ffff|rb@|-|0
%140000|rb@|-|140000 throws -9
%13fffe|rl@|-|13fffe throws -9
%200000|rl@|-|0
%1 %200000|rl!|-|1 200000 throws -20
%1 %600000|rb!|-|1 600000 throws -20
%1 %600001|rw!|-|1 600001 throws -23
%400000|rb@|-|400000 throws -9
%8 alloc-mem|rb@|-|0
%1 %8 alloc-mem|rb!|- %400000 c@|1
";

/// Peeks and pokes there answer false for -9 and -20, and throw -23.
const TRIED: &str = "\
%12345678 %100000 ! %100000|lpeek|-|12345678 ffffffff
%12345678 %100000 ! %100000|wpeek|-|1234 ffffffff
%12345678 %100000 ! %100001|cpeek|-|34 ffffffff
%100001|wpeek|-|100001 throws -23
%100002|lpeek|-|100002 throws -23
%13ffff|cpeek|-|0 ffffffff
%140000|cpeek|-|0
%13ffff|wpeek|-|0
%13fffe|lpeek|-|0
%0|cpeek|-|0
%400000|cpeek|-|0
%8 alloc-mem|cpeek|-|0 ffffffff
%600000|cpeek|-|0 ffffffff
%12345678 %100000|lpoke|- %100000 l@|ffffffff 12345678
%12345678 %100000|wpoke|- %100000 l@|ffffffff 56780000
%12345678 %100001|cpoke|done %100000 l@|ffffffff 780000
%1 %100001|wpoke|-|1 100001 throws -23
%1 %140000|cpoke|-|0
%1 %13fffe|lpoke|-|0
%1 %200000|lpoke|- %200000 l@|0 0
%1 %600000|cpoke|-|0
%1 %600001|wpoke|-|1 600001 throws -23
%1 %600002|lpoke|-|1 600002 throws -23
%1 %400000|cpoke|-|0
%1 %8 alloc-mem|cpoke|- %400000 c@|ffffffff 1
";

/// Which answers fit what a word asks.
const FITTING: &str = "\
%80000001|rb@|ff|fits
%80000001|rb@|100|doesn't
%80000001|rb@|fault|fits
%80000001|rb@|done|doesn't
%80000002|rw@|ffff|fits
%80000002|rw@|10000|doesn't
%80000004|rl@|ffffffff|fits
%1 %80000001|rb!|done|fits
%1 %80000001|rb!|fault|fits
%1 %80000001|rb!|0|doesn't
%80000001|cpeek|ff|fits
%80000001|cpeek|100|doesn't
%80000001|cpeek|fault|fits
%80000001|cpeek|done|doesn't
%80000002|wpeek|10000|doesn't
%80000004|lpeek|ffffffff|fits
%1 %80000001|cpoke|done|fits
%1 %80000001|cpoke|fault|fits
%1 %80000001|cpoke|1|doesn't
|key|ff|fits
|key|100|doesn't
|key|done|doesn't
|key|fault|doesn't
|key?|0|fits
|key?|1|fits
|key?|2|doesn't
|key?|done|doesn't
|key?|fault|doesn't
|get-msecs|ffffffff|fits
|get-msecs|done|doesn't
|get-msecs|fault|doesn't
%5|ms|done|fits
%5|ms|0|doesn't
%5|ms|fault|doesn't
";

/// The answer that a text stands for: a number in hexadecimal digits, `done`, `fault`, or `-` for none.
fn answer(text: &str) -> Option<Answer> {
    match text {
        "-" => None,
        "done" => Some(Answer::Done),
        "fault" => Some(Answer::BusFault),
        digits => Some(Answer::Value(number(digits))),
    }
}

/// Runs a word over devices. It has no contract, nor has the next one, so that `ask` carries nothing of the words' own.
fn ask_devices(word: DevicesWord, reply: Option<Answer>, board: &mut Board) -> Result<(), Halt> {
    run_devices_word(word, reply, board)
}

/// Runs a word over keys and time.
fn ask_keys(word: KeysWord, reply: Option<Answer>, board: &mut Board) -> Result<(), Halt> {
    run_keys_word(word, reply, board)
}

/// Runs the word of a name with the answer at hand.
fn ask(board: &mut Board, name: &str, reply: Option<Answer>) -> Result<(), Halt> {
    match word_with_name(name.as_bytes()) {
        Some(Word::Devices(word)) => ask_devices(word, reply, board),
        Some(Word::Keys(word)) => ask_keys(word, reply, board),
        _ => Err(Halt::Thrown(Throw::NOT_ASSIGNED)),
    }
}

/// What is asked, with widths in bytes.
fn show_query(text: &mut String, query: Query) -> Result<(), AllocError> {
    match query {
        Query::Read(width, a) => write!(text, "asks read {} {:x}", width.bytes(), a.0),
        Query::Write(width, a, x) => {
            write!(text, "asks write {} {:x} {:x}", width.bytes(), a.0, x.0)
        }
        Query::Peek(width, a) => write!(text, "asks peek {} {:x}", width.bytes(), a.0),
        Query::Poke(width, a, x) => {
            write!(text, "asks poke {} {:x} {:x}", width.bytes(), a.0, x.0)
        }
        Query::Key => text.push_str("asks key"),
        Query::KeyReady => text.push_str("asks key?"),
        Query::Milliseconds => text.push_str("asks get-msecs"),
        Query::Wait(n) => write!(text, "asks ms {:x}", n.0),
    }
}

/// How a word stopped that asks nothing further.
fn stop_of(ended: &Result<(), Halt>) -> Result<(), Stop> {
    match ended {
        Ok(()) | Err(Halt::Asks(_)) => Ok(()),
        Err(Halt::Thrown(fault)) => Err(Stop::Thrown(*fault)),
        Err(Halt::NoMemory) => Err(Stop::NoMemory),
    }
}

/// The cells of the stack, and what was thrown or asked.
fn shown(alloc: Global, board: &Board, ended: &Result<(), Halt>) -> Result<String, AllocError> {
    let mut text = left(alloc, board, stop_of(ended))?;
    if let Err(Halt::Asks(query)) = ended {
        show_query(&mut text, *query)?;
    }
    Ok(text)
}

/// How a word ended behind other words, and before those that stand behind the answer.
fn ended(
    trial: &mut Trial,
    words: &str,
    name: &str,
    reply: &str,
) -> Result<Result<(), Halt>, Stop> {
    trial.run_all(words)?;
    let (reply, behind) = reply.split_once(' ').unwrap_or((reply, ""));
    let ended = ask(&mut trial.board, name, answer(reply));
    trial.run_all(behind)?;
    Ok(ended)
}

/// What it leaves.
fn left_by(
    alloc: Global,
    trial: &mut Trial,
    words: &str,
    name: &str,
    reply: &str,
) -> Result<String, Fail> {
    let ended = ended(trial, words, name, reply)?;
    Ok(shown(alloc, &trial.board, &ended)?)
}

/// The same on a new board.
fn given(alloc: Global, words: &str, name: &str, reply: &str) -> Result<String, Fail> {
    let mut trial = Trial::begun(alloc)?;
    left_by(alloc, &mut trial, words, name, reply)
}

/// The question that a word asks, if it asks one.
fn question(board: &mut Board, name: &str) -> Option<Query> {
    match ask(board, name, None) {
        Err(Halt::Asks(query)) => Some(query),
        _ => None,
    }
}

/// Whether an answer fits what a word asks, behind other words.
fn is_answered(trial: &mut Trial, words: &str, name: &str, reply: &str) -> Result<bool, Fail> {
    trial.run_all(words)?;
    match (question(&mut trial.board, name), answer(reply)) {
        (Some(query), Some(answer)) => Ok(is_fitting(query, answer)),
        _ => Ok(false),
    }
}

/// The same on a new board.
fn fits(alloc: Global, words: &str, name: &str, reply: &str) -> Result<bool, Fail> {
    let mut trial = Trial::begun(alloc)?;
    is_answered(&mut trial, words, name, reply)
}

/// The parts of a call: words, the word that may ask, and an answer with the words that stand behind it.
fn parts(call: &str) -> (&str, &str, &str) {
    let (words, rest) = call.split_once('|').unwrap_or(("", ""));
    let (name, reply) = rest.split_once('|').unwrap_or(("", ""));
    (words, name, reply)
}

/// Lines with words, the word that may ask, an answer and words that stand behind it, and what all leave.
#[derive(Drop)]
struct AskingRows;

impl Rows for AskingRows {
    fn new(_alloc: Global) -> Result<AskingRows, Fail> {
        Ok(AskingRows)
    }

    fn halves(line: &str) -> (&str, &str) {
        line.rsplit_once('|').unwrap_or(("", "none"))
    }

    fn given(&mut self, alloc: Global, call: &str) -> Result<String, Fail> {
        let (words, name, reply) = parts(call);
        given(alloc, words, name, reply)
    }
}

/// Lines with words, the word that asks, and an answer, and whether this fits.
#[derive(Drop)]
struct FittingRows;

impl Rows for FittingRows {
    fn new(_alloc: Global) -> Result<FittingRows, Fail> {
        Ok(FittingRows)
    }

    fn halves(line: &str) -> (&str, &str) {
        line.rsplit_once('|').unwrap_or(("", "none"))
    }

    fn given(&mut self, alloc: Global, call: &str) -> Result<String, Fail> {
        let (words, name, reply) = parts(call);
        let fits = fits(alloc, words, name, reply)?;
        Ok(String::from_str(alloc, if fits { "fits" } else { "doesn't" })?)
    }
}

#[test]
fn questions(rt: HostRuntime) -> Result<(), Fail> {
    check::<AskingRows, _>(&rt, rt.alloc(), &[ASKED, ANSWERED])
}

#[test]
fn faults(rt: HostRuntime) -> Result<(), Fail> {
    check::<AskingRows, _>(&rt, rt.alloc(), &[REFUSED, FULL])
}

#[test]
fn addresses(rt: HostRuntime) -> Result<(), Fail> {
    check::<AskingRows, _>(&rt, rt.alloc(), &[EDGES, SPACE, TRIED])
}

#[test]
fn answers(rt: HostRuntime) -> Result<(), Fail> {
    check::<FittingRows, _>(&rt, rt.alloc(), &[FITTING])
}

#[test]
fn laws() {
    answers_settle();
    questions_are_said();
    asking_words_throw_listed();
    images_stay_asked();
}
