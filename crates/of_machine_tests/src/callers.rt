//! Where words go on that were called, and the names of words: items counted by hand from what the tokens compile.
use crate::rows::{MachineRows, check_on_machines};
use crate::shared::{load_tokens, run_on};
use of_fcodes::FCode;
use of_machine::ScriptMachine;
use of_stacks::ReturnItem;
use std::alloc::Global;
use std::test::Fail;

/// Tokens, how many steps are made of them, and the items at which definitions go on, the latest first: in a word that
/// was called once, behind it, and in one that is called by a word that is called.
const CALLERS: &str = "\
b50800b7a6c2b50801b70800a7c2080100 10|
b50800b7a6c2b50801b70800a7c2080100 11|c0000530:1 
b50800b7a6c2b50801b70800a7c2080100 12|c0000530:1 
b50800b7a6c2b50801b70800a7c2080100 13|
b50800b7a6c2b50801b70800a7c2b50802b7a60801c2080200 15|
b50800b7a6c2b50801b70800a7c2b50802b7a60801c2080200 17|c0000534:2 
b50800b7a6c2b50801b70800a7c2b50802b7a60801c2080200 18|c0000530:1 c0000534:2 
";

/// Appends where a definition goes on behind an item of the return stack, if one does.
fn push_caller(text: &mut String, machine: &ScriptMachine, item: ReturnItem) -> Result<(), Fail> {
    let ReturnItem::Return(next) = item else {
        return Ok(());
    };
    let Some(place) = machine.resumed(next) else {
        return Ok(());
    };
    write!(text, "{xt:x}:{item} ", xt = place.xt.0, item = place.item)?;
    Ok(())
}

/// The first word of a line, and what stands behind it.
fn first_word<'a>(line: &'a str) -> (&'a str, &'a str) {
    line.split_once(' ').unwrap_or(("", ""))
}

/// Where definitions go on, after so many steps of tokens.
struct CallerRows;

impl MachineRows for CallerRows {
    fn given(alloc: Global, machine: &mut ScriptMachine, call: &str) -> Result<String, Fail> {
        let (tokens, steps) = first_word(call);
        load_tokens(alloc, machine, tokens, "/slot")?;
        run_on(machine, steps.parse()?)?;
        let mut text = String::new(alloc);
        for item in machine.returns().iter().rev() {
            push_caller(&mut text, machine, *item)?;
        }
        Ok(text)
    }
}

#[test]
fn callers_go_on(rt: HostRuntime) -> Result<(), Fail> {
    check_on_machines::<CallerRows, _>(&rt, rt.alloc(), CALLERS)
}

/// Tokens, an FCode, and the name of its word once the tokens are run: one with a name and one without, a written one,
/// and a number that names nothing.
const NAMES: &str = "\
ca0253710800b747c2b50801b7a6c200 800|Sq
ca0253710800b747c2b50801b7a6c200 801|-
ca0253710800b747c2b50801b7a6c200 802|none
00 47|dup
";

/// The name of the word of an FCode.
fn name_of(machine: &ScriptMachine, code: FCode) -> &[u8] {
    let Some(xt) = machine.token(code) else {
        return b"none";
    };
    machine.name(xt).unwrap_or(b"-")
}

/// Names of words that tokens make.
struct NameRows;

impl MachineRows for NameRows {
    fn given(alloc: Global, machine: &mut ScriptMachine, call: &str) -> Result<String, Fail> {
        let (tokens, code) = first_word(call);
        load_tokens(alloc, machine, tokens, "/slot")?;
        run_on(machine, 99)?;
        let name = name_of(machine, FCode(u16::from_str_radix(code, 16)?));
        Ok(String::from_str(alloc, std::str::from_utf8(name)?)?)
    }
}

#[test]
fn words_have_names(rt: HostRuntime) -> Result<(), Fail> {
    check_on_machines::<NameRows, _>(&rt, rt.alloc(), NAMES)
}
