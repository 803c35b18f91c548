//! `run --state`: the stacks of a machine, `here`, and how many words were made.
ghost use Rattle.std.specs.Prelude.{◌≡◌, ◌%◌, ◌^◌, IfOk, IfErr, reverse};
ghost use Rattle.std.specs.String.{string_bytes};
ghost use Rattle.of_commands.specs.States.{cells_shown, number_line, number_shown, stack_line, state_text};

use hex::encode;
use of_cells::Cell;
use of_files::Fault;
use of_machine::ScriptMachine;
use std::alloc::Global;

/// A number in 8 hexadecimal digits.
fn number_shown(alloc: Global, number: u32) -> Result<String, Fault>
    ensures ok { IfOk result (λ digits. string_bytes digits ≡ number_shown number) }
    ensures err { IfErr result (λ f. f ≡ Fault.NoMemory) }
{
    match encode(alloc, number.to_be_bytes()) {
        Ok(digits) => Ok(digits),
        Err(_) => Err(Fault::NoMemory),
    }
}

/// Cells, each behind a space.
fn cells_shown(alloc: Global, cells: &[Cell]) -> Result<String, Fault>
    ensures ok { IfOk result (λ text. string_bytes text ≡ cells_shown cells.now) }
    ensures err { IfErr result (λ f. f ≡ Fault.NoMemory) }
{
    let mut text = String::new(alloc);
    let mut rest = cells;
    while let [cell, more @ ..] = rest {
        let digits = number_shown(alloc, cell.0)?;
        if text.push(' ').is_err() || text.push_str(&digits).is_err() {
            return Err(Fault::NoMemory);
        }
        rest = more;
    }
    Ok(text)
}

/// The data stack as a line, the bottom first.
fn stack_line(alloc: Global, machine: &ScriptMachine) -> Result<String, Fault>
    ensures ok { IfOk result (λ line. string_bytes line ≡ stack_line (reverse machine.now.eval.board.stack)) }
    ensures err { IfErr result (λ f. f ≡ Fault.NoMemory) }
{
    let cells = cells_shown(alloc, machine.stack())?;
    let mut line = String::new(alloc);
    if line.push_str("stack").is_err()
        || line.push_str(&cells).is_err()
        || line.push('\n').is_err()
    {
        return Err(Fault::NoMemory);
    }
    Ok(line)
}

/// A number as a line, behind what it is of.
fn number_line(alloc: Global, what: &str, number: u32) -> Result<String, Fault>
    ensures ok { IfOk result (λ line. string_bytes line ≡ number_line what.now number) }
    ensures err { IfErr result (λ f. f ≡ Fault.NoMemory) }
{
    let digits = number_shown(alloc, number)?;
    let mut line = String::new(alloc);
    if line.push_str(what).is_err() || line.push_str(&digits).is_err() || line.push('\n').is_err() {
        return Err(Fault::NoMemory);
    }
    Ok(line)
}

/// A number modulo 2^32, which none of a machine's reaches.
fn counted(number: usize) -> u32
    ensures { result ≡ number % 2 ^ 32 }
{
    (number % 0x1_0000_0000) as u32
}

/// The state of a machine, a line for each of its parts.
pub(crate) fn state_text(alloc: Global, machine: &ScriptMachine) -> Result<String, Fault>
    ensures ok { IfOk result (λ text. string_bytes text ≡ state_text machine.now) }
    ensures err { IfErr result (λ f. f ≡ Fault.NoMemory) }
{
    let mut text = stack_line(alloc, machine)?;
    let items = number_line(alloc, "return stack ", counted(machine.depth()))?;
    let here = number_line(alloc, "here ", machine.memory().here().0)?;
    let words = number_line(alloc, "words ", counted(machine.made()))?;
    if text.push_str(&items).is_err()
        || text.push_str(&here).is_err()
        || text.push_str(&words).is_err()
    {
        return Err(Fault::NoMemory);
    }
    Ok(text)
}
