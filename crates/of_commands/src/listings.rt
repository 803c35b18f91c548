//! What is listed behind what a run printed: the device tree, the words, the word of a name, and the state.
ghost use Rattle.std.specs.Prelude.{◌≡◌, IfOk, IfErr, OnOk, OnErr};
ghost use Rattle.std.specs.Io.KnownBytes.{Appends};
ghost use Rattle.of_arguments.specs.Asked.{appendix_of, no_appendix, path_of};
ghost use Rattle.of_commands.specs.Listings.{ends_line, lacks_word, lines_behind, listed_behind, listings_text};
ghost use Rattle.of_commands.specs.Listings.{see_named, see_word, state_if, tree_if, words_if};
ghost use Rattle.std.specs.String.{string_bytes};
ghost use Rattle.of_files.specs.Messages.{AppendsPart};
ghost use Rattle.of_commands.specs.Runs.{IsCut, run_end};

use crate::state::state_text;
use of_arguments::{Listings, Status};
use of_cells::Cell;
use of_console::tree_text;
use of_files::{Fault, write_whole};
use of_machine::ScriptMachine;
use std::alloc::Global;
use std::io::Write;

/// Nothing is listed.
pub(crate) fn no_listings<'a>() -> Listings<'a>
    ensures { appendix_of result ≡ no_appendix }
{
    Listings {
        tree: false,
        words: false,
        see: None,
        state: false,
    }
}

/// Whether no line is open at the end of a text.
pub(crate) fn ends_line(text: &[u8]) -> bool
    ensures { result ≡ ends_line text.now }
{
    match text.get(text.len().saturating_sub(1)) {
        Some(byte) => *byte == b'\n',
        None => true,
    }
}

/// The device tree of a machine, where that is asked for.
fn tree_if(alloc: Global, tree: bool, machine: &ScriptMachine) -> Result<Vec<u8>, Fault>
    ensures ok { IfOk result (λ text. text.items ≡ tree_if tree machine.now) }
    ensures err { IfErr result (λ f. f ≡ Fault.NoMemory) }
{
    if !tree {
        return Ok(Vec::new(alloc));
    }
    match tree_text(alloc, machine.memory(), machine.tree()) {
        Ok(text) => Ok(text),
        Err(_) => Err(Fault::NoMemory),
    }
}

/// What `words` would print, where that is asked for.
fn words_if(alloc: Global, words: bool, machine: &ScriptMachine) -> Result<Vec<u8>, Fault>
    ensures ok { IfOk result (λ text. text.items ≡ words_if words machine.now) }
    ensures err { IfErr result (λ f. f ≡ Fault.NoMemory) }
{
    if !words {
        return Ok(Vec::new(alloc));
    }
    match machine.words(alloc) {
        Ok(text) => Ok(text),
        Err(_) => Err(Fault::NoMemory),
    }
}

/// What `see` would print of a word, if there is one.
fn see_word(alloc: Global, word: Option<Cell>, machine: &ScriptMachine) -> Result<Vec<u8>, Fault>
    ensures ok { IfOk result (λ text. text.items ≡ see_word word machine.now) }
    ensures err { IfErr result (λ f. f ≡ Fault.NoMemory) }
{
    let Some(xt) = word else {
        return Ok(Vec::new(alloc));
    };
    match machine.see(alloc, xt) {
        Ok(text) => Ok(text),
        Err(_) => Err(Fault::NoMemory),
    }
}

/// What `see` would print of the word of a name, where one is asked for.
fn see_named(alloc: Global, name: Option<&str>, machine: &ScriptMachine) -> Result<Vec<u8>, Fault>
    ensures ok { IfOk result (λ text. text.items ≡ see_named (path_of name.entry) machine.now) }
    ensures err { IfErr result (λ f. f ≡ Fault.NoMemory) }
{
    match name {
        Some(name) => see_word(alloc, machine.word(name.as_bytes()), machine),
        None => Ok(Vec::new(alloc)),
    }
}

/// The state of a machine, where that is asked for.
fn state_if(alloc: Global, state: bool, machine: &ScriptMachine) -> Result<String, Fault>
    ensures ok { IfOk result (λ text. string_bytes text ≡ state_if state machine.now) }
    ensures err { IfErr result (λ f. f ≡ Fault.NoMemory) }
{
    if state {
        state_text(alloc, machine)
    } else {
        Ok(String::new(alloc))
    }
}

/// What is listed of a machine.
fn listings_text(
    alloc: Global,
    listings: Listings<'_>,
    machine: &ScriptMachine,
) -> Result<Vec<u8>, Fault>
    ensures ok { IfOk result (λ text. text.items ≡ listings_text (appendix_of listings.entry) machine.now) }
    ensures err { IfErr result (λ f. f ≡ Fault.NoMemory) }
{
    let mut text = tree_if(alloc, listings.tree, machine)?;
    let words = words_if(alloc, listings.words, machine)?;
    let seen = see_named(alloc, listings.see, machine)?;
    let state = state_if(alloc, listings.state, machine)?;
    if text.extend_from_slice(&words).is_err()
        || text.extend_from_slice(&seen).is_err()
        || text.extend_from_slice(state.as_bytes()).is_err()
    {
        return Err(Fault::NoMemory);
    }
    Ok(text)
}

/// Lines of their own behind a text.
fn lines_behind(alloc: Global, text: &[u8], lines: &[u8]) -> Result<Vec<u8>, Fault>
    ensures ok { IfOk result (λ behind. behind.items ≡ lines_behind text.now lines.now) }
    ensures err { IfErr result (λ f. f ≡ Fault.NoMemory) }
{
    let mut behind = Vec::new(alloc);
    if !lines.is_empty() && !ends_line(text) && behind.push(b'\n').is_err() {
        return Err(Fault::NoMemory);
    }
    match behind.extend_from_slice(lines) {
        Ok(()) => Ok(behind),
        Err(_) => Err(Fault::NoMemory),
    }
}

/// Prints what is listed of a machine, on lines of its own behind what was printed.
pub(crate) fn print_listings<W: Write>(
    alloc: Global,
    listings: Listings<'_>,
    machine: &ScriptMachine,
    out: &mut W,
) -> Result<(), Fault>
    ensures ok { OnOk result (Appends (W.contents out.old) (W.contents out.new)
        (listed_behind (appendix_of listings.entry) machine.now)) }
    ensures err { OnErr result (AppendsPart (W.contents out.old) (W.contents out.new)
        (listed_behind (appendix_of listings.entry) machine.now)) }
    ensures fault { IfErr result IsCut }
{
    let lines = listings_text(alloc, listings, machine)?;
    let behind = lines_behind(alloc, machine.console(), &lines)?;
    write_whole(out, &behind)
}

/// Whether a word is asked for by a name that none has.
fn lacks_word(name: Option<&str>, machine: &ScriptMachine) -> bool
    ensures { result ≡ lacks_word (path_of name.entry) machine.now }
{
    match name {
        Some(name) => machine.word(name.as_bytes()).is_none(),
        None => false,
    }
}

/// How a run ends of which all was printed: with its status, unless a word is asked for by a name that none has.
pub(crate) fn run_end(
    listings: Listings<'_>,
    machine: &ScriptMachine,
    status: Status,
) -> Result<Status, Fault>
    ensures { result ≡ run_end (appendix_of listings.entry) machine.now status }
{
    if lacks_word(listings.see, machine) {
        return Err(Fault::NoWord);
    }
    Ok(status)
}
