ghost use Rattle.std.specs.Prelude.{◌≡◌, Ok, Err, IfErr, IfOk};
ghost use Rattle.std.specs.String.{string_bytes};
ghost use Rattle.of_calls.specs.Scripts.{command_of, named_of};
ghost use Rattle.of_script.specs.Scripts.{Carries, marked_text, stepped_text, word_of};

use crate::shown::state_line;
use of_calls::{ScriptCommand, ScriptFault, ScriptWord};
use of_cells::Cell;
use of_code::CodeStore;
use of_debug::{DebugFault, Debugger};
use of_fcodes::FCode;
use of_machine::Machine;
use std::alloc::Global;

/// The highest number of an FCode.
const LAST_FCODE: u32 = 0xFFF;

/// The execution token of a word, by its name or its FCode.
fn word_of<C: CodeStore>(machine: &Machine<C>, word: &ScriptWord) -> Option<Cell>
    ensures { result ≡ word_of (named_of word.now) machine.now }
{
    match word {
        ScriptWord::Name(name) => machine.word(name),
        ScriptWord::Code(number) if *number <= LAST_FCODE => machine.token(FCode(*number as u16)),
        ScriptWord::Code(_) => None,
    }
}

/// What a stepping command prints, by what it came to.
fn stepped_text<C: CodeStore>(
    alloc: Global,
    debugger: &Debugger<'_, C>,
    stepped: Result<(), DebugFault>,
) -> Result<String, ScriptFault>
    ensures ok { IfOk result (λ line. Ok (string_bytes line) ≡ stepped_text stepped debugger.now) }
    ensures err { IfErr result (λ f. f ≡ ScriptFault.NoMemory) }
{
    if let Err(DebugFault::NoMemory) = stepped {
        return Err(ScriptFault::NoMemory);
    }
    match state_line(alloc, debugger) {
        Ok(line) => Ok(line),
        Err(_) => Err(ScriptFault::NoMemory),
    }
}

/// What a command in a line prints that marks or clears an item, by what it came to.
fn marked_text(
    alloc: Global,
    line: usize,
    marked: Result<(), DebugFault>,
) -> Result<String, ScriptFault>
    ensures ok { IfOk result (λ text. Ok (string_bytes text) ≡ marked_text line marked) }
    ensures err { IfErr result (λ f. Err f ≡ marked_text line marked) }
{
    match marked {
        Ok(()) => Ok(String::new(alloc)),
        Err(DebugFault::NoWord) => Err(ScriptFault::NoWord(line)),
        Err(DebugFault::NoItem) => Err(ScriptFault::NoItem(line)),
        Err(DebugFault::TooMany) => Err(ScriptFault::TooMany(line)),
        Err(DebugFault::Idle) => Ok(String::new(alloc)),
        Err(DebugFault::NoMemory) => Err(ScriptFault::NoMemory),
    }
}

/// Carries out the command in a line, and answers what is printed.
pub(crate) fn carry_out<C: CodeStore>(
    alloc: Global,
    debugger: &mut Debugger<'_, C>,
    line: usize,
    command: &ScriptCommand,
) -> Result<String, ScriptFault>
    ensures ok { IfOk result (λ text. Carries line (command_of command.now) debugger.old debugger.new
        (Ok (string_bytes text))) }
    ensures err { IfErr result (λ f. Carries line (command_of command.now) debugger.old debugger.new (Err f)) }
{
    match command {
        ScriptCommand::In => {
            let stepped = debugger.step_in();
            stepped_text(alloc, debugger, stepped)
        }
        ScriptCommand::Over => {
            let stepped = debugger.step_over();
            stepped_text(alloc, debugger, stepped)
        }
        ScriptCommand::Out => {
            let stepped = debugger.step_out();
            stepped_text(alloc, debugger, stepped)
        }
        ScriptCommand::Go(limit) => {
            let stepped = debugger.go(u64::from(*limit));
            stepped_text(alloc, debugger, stepped)
        }
        ScriptCommand::Break(word, item) => {
            let Some(xt) = word_of(debugger.shown().1, word) else {
                return Err(ScriptFault::Unknown(line));
            };
            let marked = debugger.break_at(xt, *item as usize);
            marked_text(alloc, line, marked)
        }
        ScriptCommand::Clear(word, item) => {
            let Some(xt) = word_of(debugger.shown().1, word) else {
                return Err(ScriptFault::Unknown(line));
            };
            let cleared = debugger.clear(xt, *item as usize);
            marked_text(alloc, line, cleared)
        }
    }
}
