//! Items that come next, and how many items words have: numbers counted by hand from what the tokens compile.
use crate::rows::{MachineRows, check_on_machines};
use crate::shared::{load_tokens, on_machine, run_on};
use of_cells::Cell;
use of_machine::ScriptMachine;
use std::alloc::Global;
use std::test::Fail;

/// Tokens, and the item that comes next before each step and after the last: its word's execution token and its number,
/// or `-` where none does. A word with two arms is run with 0, then with 1; then a word calls another one.
const PLACES: &str = "\
b50800b7140007a6130005b2a7b2c2a508009d00|- - - - - - - - - - - c000052c:0 c000052c:3 c000052c:4 - - - 
b50800b7140007a6130005b2a7b2c2a608009d00|- - - - - - - - - - - c000052c:0 c000052c:1 c000052c:2 c000052c:4 - - - 
b50800b7a6c2b50801b70800a7c2080100|- - - - - - - - - - c0000530:0 c000052c:0 c000052c:1 c0000530:1 c0000530:2 - - 
";

/// Appends the item that comes next.
fn push_place(text: &mut String, machine: &ScriptMachine) -> Result<(), Fail> {
    match machine.place() {
        Some(place) => write!(text, "{xt:x}:{item} ", xt = place.xt.0, item = place.item)?,
        None => text.push_str("- ")?,
    }
    Ok(())
}

/// Makes a step, and appends the item that comes next then. False, and nothing else, where nothing runs.
fn push_next_place(text: &mut String, machine: &mut ScriptMachine) -> Result<bool, Fail> {
    if !machine.is_running() {
        return Ok(false);
    }
    machine.step()?;
    push_place(text, machine)?;
    Ok(true)
}

/// Appends the items that come next in a run.
fn push_places(text: &mut String, machine: &mut ScriptMachine) -> Result<(), Fail> {
    push_place(text, machine)?;
    for _ in 0..99 {
        if !push_next_place(text, machine)? {
            break;
        }
    }
    Ok(())
}

/// Items that come next in a run of tokens.
struct PlaceRows;

impl MachineRows for PlaceRows {
    fn given(alloc: Global, machine: &mut ScriptMachine, call: &str) -> Result<String, Fail> {
        load_tokens(alloc, machine, call, "/slot")?;
        let mut text = String::new(alloc);
        push_places(&mut text, machine)?;
        Ok(text)
    }
}

#[test]
fn items_come_next(rt: HostRuntime) -> Result<(), Fail> {
    check_on_machines::<PlaceRows, _>(&rt, rt.alloc(), PLACES)
}

/// Tokens, how many steps are made of them, an execution token, and how many items its word has then. A definition that
/// is open has none, nor have a number that is no word, a written word, and a constant.
const COUNTS: &str = "\
b50800b7140007a6130005b2a7b2c2a508009d00 8 c000052c none
b50800b7140007a6130005b2a7b2c2a508009d00 9 c000052c 5
b50800b7140007a6130005b2a7b2c2a508009d00 16 c000052c 5
b50800b7140007a6130005b2a7b2c2a508009d00 16 c0000530 none
b50800b7140007a6130005b2a7b2c2a508009d00 16 c0000080 none
b50800b7a6c2b50801b70800a7c2080100 16 c000052c 2
b50800b7a6c2b50801b70800a7c2080100 16 c0000530 3
b50800b7c200 4 c000052c 1
a6b50800ba00 4 c000052c none
";

/// How many items the word of an execution token has after so many steps.
fn count_after(machine: &mut ScriptMachine, steps: &str, xt: &str) -> Result<Option<usize>, Fail> {
    run_on(machine, steps.parse()?)?;
    Ok(machine.items(Cell(u32::from_str_radix(xt, 16)?)))
}

/// The first word of a line, and what stands behind it.
fn first_word<'a>(line: &'a str) -> (&'a str, &'a str) {
    line.split_once(' ').unwrap_or(("", ""))
}

/// Whether a line of counts holds.
fn is_counted(alloc: Global, machine: &mut ScriptMachine, line: &str) -> Result<bool, Fail> {
    let (tokens, rest) = first_word(line);
    let (steps, rest) = first_word(rest);
    let (xt, wanted) = first_word(rest);
    load_tokens(alloc, machine, tokens, "/slot")?;
    let count = count_after(machine, steps, xt)?;
    Ok(count == wanted.parse().ok())
}

/// The same on a new machine.
fn is_counted_on_new(alloc: Global, line: &str) -> Result<bool, Fail> {
    on_machine(alloc, |machine| is_counted(alloc, machine, line))
}

#[test]
fn words_have_items(rt: HostRuntime) -> Result<(), Fail> {
    for line in COUNTS.lines() {
        assert!(rt; is_counted_on_new(rt.alloc(), line)?, "{line}");
    }
    Ok(())
}
