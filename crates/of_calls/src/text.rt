ghost use Rattle.std.specs.Prelude.{◌≡◌, ◌⊎◌, ◌≤◌, ◌<◌, length, Ok, Err, IfOk, IfErr, OnOk, map};
ghost use Rattle.of_client.specs.Services.{service_of};
ghost use Rattle.of_calls.specs.Lines.{first_line, left_behind, line_length};
ghost use Rattle.of_calls.specs.Said.{and_next};
ghost use Rattle.of_calls.specs.Calls.{call_in, parsed};
ghost use Rattle.of_calls.specs.Answers.{answer_in, parsed_answers};
ghost use Rattle.of_calls.specs.Boards.{parsed_board, part_in};
ghost use Rattle.of_calls.specs.ConsoleLines.{line_in, parsed_lines};

use crate::answer::answer_in;
use crate::call::call_in;
use crate::console_line::line_in;
use crate::fault::TextFault;
use crate::line::Line;
use crate::part::part_in;
use of_asking::Answer;
use of_client::ClientCall;
use of_devices::Part;
use std::alloc::Global;

/// How many bytes the first line of a text has.
fn line_length(text: &[u8]) -> usize
    ensures { result ≡ line_length text.now }
{
    text.iter().take_while(|byte| **byte != b'\n').count()
}

/// A text up to its first newline.
pub(crate) fn first_line(text: &[u8]) -> &[u8]
    ensures { result.now ≡ first_line text.now }
{
    &text[..line_length(text)]
}

/// What stands behind the first newline of a text; empty where there is no newline.
pub(crate) fn left_behind(text: &[u8]) -> &[u8]
    ensures left { result.now ≡ left_behind text.now }
    ensures few { 0 < length text.now → length result.now < length text.now }
{
    match &text[line_length(text)..] {
        [_, rest @ ..] => rest,
        [] => &[],
    }
}

/// Appends the call of a line.
fn take_call(alloc: Global, line: Line<'_>, calls: &mut Vec<ClientCall>) -> Result<(), TextFault>
    ensures ok { OnOk result (and_next (map service_of calls.old.items) (call_in line.entry.number line.entry.text.now)
        ≡ Ok (map service_of calls.new.items)) }
    ensures err { IfErr result (λ f. (f ≡ TextFault.NoMemory)
        ⊎ (call_in line.entry.number line.entry.text.now ≡ Err f)) }
{
    let call = call_in(alloc, line)?;
    match calls.push(call) {
        Ok(()) => Ok(()),
        Err(_) => Err(TextFault::NoMemory),
    }
}

/// The calls that a text says, a line for each: the name of a service and what it takes, with blanks between. Numbers
/// have hexadecimal digits. A path or a name that is left out is empty. Each line ends with a newline, which the last
/// may lack; a text without bytes has no line. A carriage return is a byte of a word, and no word has one.
///
/// An error is for the first word that fits nowhere, or for memory: Unknown where a line names no service or has no
/// word, BadName at a path or a name with a carriage return in it, BadNumber where a number can't be read or is
/// missing, TooMany where a word stands behind the last that the service takes.
#[tactic(auto, using(crate::proofs::Reading::none_read))]
pub fn parse(alloc: Global, text: &[u8]) -> Result<Vec<ClientCall>, TextFault>
    ensures ok { IfOk result (λ calls. parsed text.now ≡ Ok (map service_of calls.items)) }
    ensures err { IfErr result (λ f. (f ≡ TextFault.NoMemory) ⊎ (parsed text.now ≡ Err f)) }
{
    let mut calls = Vec::new(alloc);
    let mut number = 1usize;
    let mut left = text;
    while left.len() > 0 {
        let line = Line {
            number,
            text: first_line(left),
        };
        match take_call(alloc, line, &mut calls) {
            Ok(()) => {}
            Err(fault) => return Err(fault),
        }
        number += 1;
        left = left_behind(left);
    }
    Ok(calls)
}

/// Appends the answer of a line.
fn take_answer(line: Line<'_>, answers: &mut Vec<Answer>) -> Result<(), TextFault>
    ensures ok { OnOk result (and_next answers.old.items (answer_in line.entry.number line.entry.text.now)
        ≡ Ok answers.new.items) }
    ensures err { IfErr result (λ f. (f ≡ TextFault.NoMemory)
        ⊎ (answer_in line.entry.number line.entry.text.now ≡ Err f)) }
{
    let answer = answer_in(line)?;
    match answers.push(answer) {
        Ok(()) => Ok(()),
        Err(_) => Err(TextFault::NoMemory),
    }
}

/// The answers that a text says, a line for each: `v` and a number in hexadecimal digits, up to ffffffff, `done`, or
/// `fault`, with blanks between the words. The lines are those of `parse`.
///
/// An error is for the first word that fits nowhere, or for memory: Unknown where a line begins with another word or
/// has none, BadNumber where the number can't be read or is missing, TooMany where a word stands behind these.
#[tactic(auto, using(crate::proofs::Reading::none_read))]
pub fn parse_answers(alloc: Global, text: &[u8]) -> Result<Vec<Answer>, TextFault>
    ensures ok { IfOk result (λ answers. parsed_answers text.now ≡ Ok answers.items) }
    ensures err { IfErr result (λ f. (f ≡ TextFault.NoMemory) ⊎ (parsed_answers text.now ≡ Err f)) }
{
    let mut answers = Vec::new(alloc);
    let mut number = 1usize;
    let mut left = text;
    while left.len() > 0 {
        let line = Line {
            number,
            text: first_line(left),
        };
        match take_answer(line, &mut answers) {
            Ok(()) => {}
            Err(fault) => return Err(fault),
        }
        number += 1;
        left = left_behind(left);
    }
    Ok(answers)
}

/// Appends the device of a line.
fn take_part(alloc: Global, line: Line<'_>, parts: &mut Vec<Part>) -> Result<(), TextFault>
    ensures ok { OnOk result (and_next parts.old.items (part_in line.entry.number line.entry.text.now)
        ≡ Ok parts.new.items) }
    ensures err { IfErr result (λ f. (f ≡ TextFault.NoMemory)
        ⊎ (part_in line.entry.number line.entry.text.now ≡ Err f)) }
{
    let part = part_in(alloc, line)?;
    match parts.push(part) {
        Ok(()) => Ok(()),
        Err(_) => Err(TextFault::NoMemory),
    }
}

/// The devices that a text says, a line for each: `memory` with an address, a length and its first bytes, which may be
/// left out, `fault` with an address and a length, `keys` with the keys that were typed, or `clock`. Addresses have
/// hexadecimal digits, up to ffffffff, lengths too, up to 1000000, and bytes two each. The lines are those of `parse`.
///
/// An error is for the first word that fits nowhere, or for memory: Unknown where a line begins with another word or
/// has none, BadNumber where an address, a length or bytes can't be read or are too many, or are missing where they
/// may not be left out, TooMany where a word stands behind these.
#[tactic(auto, using(crate::proofs::Reading::none_read))]
pub fn parse_board(alloc: Global, text: &[u8]) -> Result<Vec<Part>, TextFault>
    ensures ok { IfOk result (λ parts. parsed_board text.now ≡ Ok parts.items) }
    ensures err { IfErr result (λ f. (f ≡ TextFault.NoMemory) ⊎ (parsed_board text.now ≡ Err f)) }
{
    let mut parts = Vec::new(alloc);
    let mut number = 1usize;
    let mut left = text;
    while left.len() > 0 {
        let line = Line {
            number,
            text: first_line(left),
        };
        match take_part(alloc, line, &mut parts) {
            Ok(()) => {}
            Err(fault) => return Err(fault),
        }
        number += 1;
        left = left_behind(left);
    }
    Ok(parts)
}

/// Appends a line.
fn take_line(alloc: Global, line: Line<'_>, lines: &mut Vec<Vec<u8>>) -> Result<(), TextFault>
    ensures ok { OnOk result (and_next (map (λ l. l.items) lines.old.items)
        (line_in line.entry.number line.entry.text.now) ≡ Ok (map (λ l. l.items) lines.new.items)) }
    ensures err { IfErr result (λ f. (f ≡ TextFault.NoMemory)
        ⊎ (line_in line.entry.number line.entry.text.now ≡ Err f)) }
{
    let bytes = line_in(alloc, line)?;
    match lines.push(bytes) {
        Ok(()) => Ok(()),
        Err(_) => Err(TextFault::NoMemory),
    }
}

/// The console lines that a text says: its lines, which are those of `parse`, as they stand.
///
/// An error is for the first line that is too long, or for memory: TooLong where a line has more than 255 bytes.
#[tactic(auto, using(crate::proofs::Reading::none_read))]
pub fn parse_lines(alloc: Global, text: &[u8]) -> Result<Vec<Vec<u8>>, TextFault>
    ensures ok { IfOk result (λ lines. parsed_lines text.now ≡ Ok (map (λ l. l.items) lines.items)) }
    ensures err { IfErr result (λ f. (f ≡ TextFault.NoMemory) ⊎ (parsed_lines text.now ≡ Err f)) }
{
    let mut lines = Vec::new(alloc);
    let mut number = 1usize;
    let mut left = text;
    while left.len() > 0 {
        let line = Line {
            number,
            text: first_line(left),
        };
        match take_line(alloc, line, &mut lines) {
            Ok(()) => {}
            Err(fault) => return Err(fault),
        }
        number += 1;
        left = left_behind(left);
    }
    Ok(lines)
}
