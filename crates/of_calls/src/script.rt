ghost use Rattle.std.specs.Prelude.{◌≡◌, ◌⊎◌, Ok, Err, IfOk, IfErr, OnOk, map};
ghost use Rattle.of_calls.specs.Said.{and_next};
ghost use Rattle.of_calls.specs.Scripts.{break_in, clear_in, code_of, command_of, named_at, named_of, parsed_script};
ghost use Rattle.of_calls.specs.Scripts.{script_in};

use crate::fault::TextFault;
use crate::line::{Line, is_same, number_of};
use crate::text::{first_line, left_behind};
use of_cells::Cell;
use std::alloc::Global;

/// A word, as a script names it.
#[derive(Drop)]
pub enum ScriptWord {
    /// Its name.
    Name(Vec<u8>),
    /// The FCode that names it.
    Code(u32),
}

/// What a script tells a debugger.
#[derive(Drop)]
pub enum ScriptCommand {
    /// `in`: make one step.
    In,
    /// `over`: make steps until the return stack is no deeper than now.
    Over,
    /// `out`: make steps until the return stack is shallower than now.
    Out,
    /// `break`: mark an item of a word.
    Break(ScriptWord, u32),
    /// `clear`: take the mark of an item of a word away.
    Clear(ScriptWord, u32),
    /// `go`: make so many steps at most, up to a marked item.
    Go(u32),
}

/// The number of a word that is `#` and hexadecimal digits.
fn code_of(word: &[u8]) -> Option<Cell>
    ensures { result ≡ code_of word.now }
{
    match word {
        [b'#', digits @ ..] => number_of(digits),
        _ => None,
    }
}

/// What the word behind so many names: a number, or else a name.
///
/// BadName where a carriage return stands in it.
fn named_at(alloc: Global, line: Line<'_>, count: usize) -> Result<ScriptWord, TextFault>
    ensures ok { IfOk result (λ w. named_at line.entry.number count line.entry.text.now ≡ Ok (named_of w)) }
    ensures err { IfErr result (λ f. (f ≡ TextFault.NoMemory)
        ⊎ (named_at line.entry.number count line.entry.text.now ≡ Err f)) }
{
    match code_of(line.word(count)) {
        Some(code) => Ok(ScriptWord::Code(code.0)),
        None => {
            let name = Vec::from_slice(alloc, line.text(count)?)?;
            Ok(ScriptWord::Name(name))
        }
    }
}

/// The command of a line that marks an item.
#[tactic(auto, unfolding(crate::specs::Scripts::break_in))]
fn break_in(alloc: Global, line: Line<'_>) -> Result<ScriptCommand, TextFault>
    ensures ok { IfOk result (λ c. break_in line.entry.number line.entry.text.now ≡ Ok (command_of c)) }
    ensures err { IfErr result (λ f. (f ≡ TextFault.NoMemory)
        ⊎ (break_in line.entry.number line.entry.text.now ≡ Err f)) }
{
    let word = named_at(alloc, line, 1)?;
    let item = line.decimal(2)?;
    line.ended(3, ScriptCommand::Break(word, item.0))
}

/// The command of a line that takes a mark away.
#[tactic(auto, unfolding(crate::specs::Scripts::clear_in))]
fn clear_in(alloc: Global, line: Line<'_>) -> Result<ScriptCommand, TextFault>
    ensures ok { IfOk result (λ c. clear_in line.entry.number line.entry.text.now ≡ Ok (command_of c)) }
    ensures err { IfErr result (λ f. (f ≡ TextFault.NoMemory)
        ⊎ (clear_in line.entry.number line.entry.text.now ≡ Err f)) }
{
    let word = named_at(alloc, line, 1)?;
    let item = line.decimal(2)?;
    line.ended(3, ScriptCommand::Clear(word, item.0))
}

/// The command of a line.
#[tactic(auto, unfolding(crate::specs::Scripts::script_in))]
fn script_in(alloc: Global, line: Line<'_>) -> Result<ScriptCommand, TextFault>
    ensures ok { IfOk result (λ c. script_in line.entry.number line.entry.text.now ≡ Ok (command_of c)) }
    ensures err { IfErr result (λ f. (f ≡ TextFault.NoMemory)
        ⊎ (script_in line.entry.number line.entry.text.now ≡ Err f)) }
{
    let word = line.word(0);
    if is_same(word, "in") {
        line.ended(1, ScriptCommand::In)
    } else if is_same(word, "over") {
        line.ended(1, ScriptCommand::Over)
    } else if is_same(word, "out") {
        line.ended(1, ScriptCommand::Out)
    } else if is_same(word, "break") {
        break_in(alloc, line)
    } else if is_same(word, "clear") {
        clear_in(alloc, line)
    } else if is_same(word, "go") {
        let steps = line.decimal(1)?;
        line.ended(2, ScriptCommand::Go(steps.0))
    } else {
        Err(TextFault::Unknown(line.place(0)))
    }
}

/// Appends the command of a line.
fn take_command(
    alloc: Global,
    line: Line<'_>,
    commands: &mut Vec<ScriptCommand>,
) -> Result<(), TextFault>
    ensures ok { OnOk result (and_next (map command_of commands.old.items)
        (script_in line.entry.number line.entry.text.now) ≡ Ok (map command_of commands.new.items)) }
    ensures err { IfErr result (λ f. (f ≡ TextFault.NoMemory)
        ⊎ (script_in line.entry.number line.entry.text.now ≡ Err f)) }
{
    let command = script_in(alloc, line)?;
    match commands.push(command) {
        Ok(()) => Ok(()),
        Err(_) => Err(TextFault::NoMemory),
    }
}

/// The commands of a debugger that a text says, a line for each: `in`, `over`, `out`, `break` or `clear` with a word
/// and the number of an item, or `go` with a number of steps, with blanks between. A word is `#` and a number in
/// hexadecimal digits, up to ffffffff, or else a name; one that is left out is an empty name. The other numbers have
/// decimal digits, up to 4294967295. The lines are those of `parse`.
///
/// An error is for the first word that fits nowhere, or for memory: Unknown where a line begins with another word or
/// has none, BadName at a name with a carriage return in it, BadNumber where an item or steps can't be read or are
/// missing, TooMany where a word stands behind these.
#[tactic(auto, using(crate::proofs::Reading::none_read))]
pub fn parse_script(alloc: Global, text: &[u8]) -> Result<Vec<ScriptCommand>, TextFault>
    ensures ok { IfOk result (λ commands. parsed_script text.now ≡ Ok (map command_of commands.items)) }
    ensures err { IfErr result (λ f. (f ≡ TextFault.NoMemory) ⊎ (parsed_script text.now ≡ Err f)) }
{
    let mut commands = Vec::new(alloc);
    let mut number = 1usize;
    let mut left = text;
    while left.len() > 0 {
        let line = Line {
            number,
            text: first_line(left),
        };
        match take_command(alloc, line, &mut commands) {
            Ok(()) => {}
            Err(fault) => return Err(fault),
        }
        number += 1;
        left = left_behind(left);
    }
    Ok(commands)
}
