//! The dictionary by worked examples: names in their places, numbers counted by hand.

use crate::rows::{Rows, check, decimal, word};
use of_cells::Cell;
use of_dict::{
    CAPACITY, Dict, DictFault, Kind, OwnWord, Slot, changes_are_found, names_are_listed_once,
    newest_is_found,
};
use std::alloc::{AllocError, Global};
use std::test::Fail;

/// A word that no line looks at closer.
const PLAIN: Kind = Kind::Constant { value: Cell(7) };

/// The number of a word, or -1.
fn number_of(word: Option<OwnWord>) -> i64 {
    match word {
        Some(word) => i64::from(word.0),
        None => -1,
    }
}

/// The number of a word that was made, or the throw of what it was refused for; 0 for memory.
fn made(answer: Result<OwnWord, DictFault>) -> i64 {
    match answer {
        Ok(word) => i64::from(word.0),
        Err(DictFault::Full) => -8,
        Err(DictFault::EmptyName) => -16,
        Err(DictFault::LongName) => -19,
        Err(DictFault::NoMemory) => 0,
    }
}

/// Makes a call, with a name or a number, and answers its number.
fn call(dict: &mut Dict, name: &str, text: &str, n: u32) -> i64 {
    match name {
        "add" => made(dict.add(Some(text.as_bytes()), PLAIN)),
        "find" => number_of(dict.find(text.as_bytes())),
        "hide" => {
            dict.hide(OwnWord(n));
            0
        }
        "reveal" => {
            dict.reveal(OwnWord(n));
            0
        }
        "immediate" => {
            dict.set_immediate(OwnWord(n));
            0
        }
        _ => other_call(dict, name, n),
    }
}

fn other_call(dict: &mut Dict, name: &str, n: u32) -> i64 {
    match name {
        "add-empty" => made(dict.add(Some(b""), PLAIN)),
        "add-nameless" => made(dict.add(None, PLAIN)),
        "remove" => {
            dict.remove();
            0
        }
        "newest" => number_of(dict.newest()),
        "is-immediate" => i64::from(dict.is_immediate(OwnWord(n))),
        "made" => dict.made() as i64,
        _ => -2,
    }
}

/// Calls in turn on one dictionary: the call, its name or number, what it answers, and then the
/// names that are listed, newest place first.
const CALLS: &str = "\
newest 0 -1
find dup -1
add dup 0 dup
add Swap 1 Swap dup
find DUP 0 Swap dup
find swap 1 Swap dup
find swa -1 Swap dup
add DuP 2 Swap DuP
find dup 2 Swap DuP
hide 2 0 Swap dup
find dup 0 Swap dup
reveal 2 0 Swap DuP
find dup 2 Swap DuP
hide 0 0 DuP Swap
find dup 2 DuP Swap
hide 2 0 Swap
find dup -1 Swap
reveal 0 0 Swap dup
add-empty 0 -16 Swap dup
add-nameless 0 3 Swap dup
newest 0 3 Swap dup
immediate 1 0 Swap dup
is-immediate 1 1 Swap dup
is-immediate 0 0 Swap dup
remove 0 0 Swap dup
newest 0 2 Swap dup
made 0 4 Swap dup
add over 4 over Swap dup
remove 0 0 Swap dup
find over -1 Swap dup
remove 0 0 Swap dup
remove 0 0 dup
find swap -1 dup
find dup 0 dup
add swap 5 swap dup
hide 9 0 swap dup
add abcdefghijklmnopqrstuvwxyz12345 6 abcdefghijklmnopqrstuvwxyz12345 swap dup
find abcdefghijklmnopqrstuvwxyz123456 -1 abcdefghijklmnopqrstuvwxyz12345 swap dup
add abcdefghijklmnopqrstuvwxyz123456 -19 abcdefghijklmnopqrstuvwxyz12345 swap dup
";

/// Makes the call of a line.
fn answer(dict: &mut Dict, line: &str) -> i64 {
    let text = word(line, 1);
    call(dict, word(line, 0), text, text.parse().unwrap_or(0))
}

/// Appends a name behind a space.
fn push_name(text: &mut Vec<u8>, name: &[u8]) -> Result<(), AllocError> {
    text.push(b' ')?;
    text.extend_from_slice(name)
}

/// The names that are listed, newest place first, with a space before each.
fn listing(alloc: Global, dict: &Dict) -> Result<Vec<u8>, AllocError> {
    let mut text = Vec::new(alloc);
    for number in 0..dict.made() as u32 {
        let word = OwnWord(dict.made() as u32 - 1 - number);
        if let Some(name) = dict.listed(word) {
            push_name(&mut text, name)?;
        }
    }
    Ok(text)
}

/// Whether the names of a line, behind its call and its answer, are those that are listed.
fn is_listed(names: &[u8], line: &str) -> bool {
    let count = names.iter().filter(|byte| **byte == b' ').count();
    line.as_bytes().ends_with(names) && line.split_whitespace().skip(3).count() == count
}

impl Rows for Dict {
    fn holds(&mut self, alloc: Global, line: &str) -> Option<bool> {
        if answer(self, line) != decimal(word(line, 2))? {
            return Some(false);
        }
        let names = listing(alloc, self).ok()?;
        Some(is_listed(&names, line))
    }
}

#[test]
fn calls(rt: HostRuntime) {
    check(&rt, rt.alloc(), &mut Dict::new(rt.alloc()), CALLS);
}

/// The kinds, each with its number.
const KINDS: [Kind; 9] = [
    Kind::Colon { start: 5 },
    Kind::Constant { value: Cell(6) },
    Kind::Value { value: Cell(7) },
    Kind::Variable {
        address: Cell(0x10_0008),
    },
    Kind::Create {
        address: Cell(0x10_000c),
    },
    Kind::Defer { xt: Cell::ZERO },
    Kind::Buffer {
        address: Cell(0x10_0010),
    },
    Kind::Field { offset: Cell(4) },
    Kind::PerInstance {
        slot: Slot::Defer,
        number: 3,
    },
];

/// Makes a word of each kind, and gives the one before it that kind, too.
fn make_kinds(dict: &mut Dict) -> Result<(), DictFault> {
    for kind in &KINDS {
        let word = dict.add(None, *kind)?;
        dict.set_kind(OwnWord(word.0.saturating_sub(1)), *kind);
    }
    Ok(())
}

/// Whether the word before the one that was made of a kind has that kind now, too.
fn is_kind(dict: &Dict, number: u32, kind: Kind) -> bool {
    dict.kind_of(OwnWord(number)) == Some(kind)
}

#[test]
fn kinds(rt: HostRuntime) -> Result<(), Fail> {
    let mut dict = Dict::new(rt.alloc());
    make_kinds(&mut dict)?;
    for number in 0..8u32 {
        assert!(rt; is_kind(&dict, number, KINDS[number as usize + 1]));
    }
    assert!(rt; is_kind(&dict, 8, KINDS[8]));
    assert!(rt; dict.kind_of(OwnWord(9)) == None);
    Ok(())
}

/// Whether a hidden word keeps its name as it was spelt, and a word that isn't there has none.
fn keeps_name(dict: &mut Dict) -> Result<bool, DictFault> {
    let word = dict.add(Some(b"Add3"), PLAIN)?;
    dict.hide(word);
    Ok(dict.name_of(word) == Some(&b"Add3"[..]) && dict.name_of(OwnWord(1)) == None)
}

#[test]
fn names_as_spelt(rt: HostRuntime) {
    assert!(rt; keeps_name(&mut Dict::new(rt.alloc())) == Ok(true));
}

/// Makes words without a name, as many as can be.
fn fill(dict: &mut Dict) -> Result<(), DictFault> {
    for _ in 0..CAPACITY {
        dict.add(None, PLAIN)?;
    }
    Ok(())
}

/// Calls where all words are made; a removed one leaves no room.
const FULL: &str = "\
remove 0 0
add-empty 0 -16
add aaaaaaaaaaaaaaaaaaaaaaaaaaaaaaaa -19
add aaaaaaaaaaaaaaaaaaaaaaaaaaaaaaa -8
add-nameless 0 -8
newest 0 8190
";

#[test]
fn holds_8192_words(rt: HostRuntime) {
    let mut dict = Dict::new(rt.alloc());
    assert!(rt; fill(&mut dict).is_ok());
    check(&rt, rt.alloc(), &mut dict, FULL);
}

/// Makes words whose names are their numbers, of four bytes, as many as can be.
fn fill_with_names(dict: &mut Dict) -> Result<(), DictFault> {
    for number in 0..CAPACITY {
        dict.add(Some(&(number as u32).to_be_bytes()), PLAIN)?;
    }
    Ok(())
}

#[test]
fn holds_8192_names(rt: HostRuntime) {
    let mut dict = Dict::new(rt.alloc());
    assert!(rt; fill_with_names(&mut dict).is_ok());
    assert!(rt; number_of(dict.find(&[0, 0, 0x13, 0x88])) == 5000);
}

/// The number of the word of an execution token, or -1.
fn number_with(xt: u32) -> i64 {
    number_of(OwnWord::with_xt(Cell(xt)))
}

#[test]
fn execution_tokens(rt: HostRuntime) {
    assert!(rt; OwnWord(0).xt() == Cell(0xc000_052c) && OwnWord(8191).xt() == Cell(0xc000_8528));
    assert!(rt; number_with(0xc000_0530) == 1);
    assert!(rt; number_with(0xc000_0528) == -1);
    assert!(rt; number_with(0xc000_052d) == -1);
    assert!(rt; number_with(0xc000_852c) == -1);
}

/// Whether two faults have these texts.
fn are_said(alloc: Global, first: DictFault, second: DictFault, texts: &str) -> Result<bool, Fail> {
    Ok(format!(in alloc; "{first}; {second}")?.as_str() == texts)
}

#[test]
fn faults(rt: HostRuntime) -> Result<(), Fail> {
    let (full, empty) = (DictFault::Full, DictFault::EmptyName);
    assert!(rt;
        are_said(
            rt.alloc(),
            full,
            empty,
            "the dictionary is full; the name is empty"
        )?
    );
    let (long, memory) = (DictFault::LongName, DictFault::NoMemory);
    assert!(rt;
        are_said(
            rt.alloc(),
            long,
            memory,
            "the name is too long; out of memory"
        )?
    );
    Ok(())
}

/// The laws hold.
#[test]
fn laws() {
    newest_is_found();
    changes_are_found();
    names_are_listed_once();
}
