//! Where a step is made.
use crate::json::say_text;
use of_cells::Cell;
use of_code::ItemPlace;
use of_fcodes::{FCode, name_of};
use of_machine::ScriptMachine;
use of_stacks::{Input, Reading, ReturnItem};
use std::io::{self, Write};

/// The number of the first FCode that an image can give a word, and that behind the last.
const OWN_CODES: (u16, u16) = (0x800, 0x1000);

/// What is read by an item of the return stack when it goes on, if it is an image or a text.
fn reading_behind(item: ReturnItem) -> Option<Reading> {
    match item {
        ReturnItem::Source(reading) => match reading.input {
            Input::Image { .. } | Input::Text { .. } => Some(reading),
            Input::Nothing => None,
        },
        ReturnItem::Return(_)
        | ReturnItem::Loop(_)
        | ReturnItem::User(_)
        | ReturnItem::Handler(_)
        | ReturnItem::Caller(_) => None,
    }
}

/// How far the console line is read within which all else is read; nothing, where that is an image.
pub(crate) fn line_position(machine: &ScriptMachine) -> Option<usize> {
    let mut outer = machine.reading();
    for item in machine.returns().iter().rev() {
        if let Some(reading) = reading_behind(*item) {
            outer = reading;
        }
    }
    match outer.input {
        Input::Text { position } => Some(position),
        Input::Image { .. } | Input::Nothing => None,
    }
}

/// Whether what is read is the console line itself, and no text that is read within it.
fn reads_line(machine: &ScriptMachine) -> bool {
    !machine
        .returns()
        .iter()
        .any(|item| reading_behind(*item).is_some())
}

/// The word of a line from a position on.
fn word_at(line: &[u8], position: usize) -> &[u8] {
    let rest = line.get(position..).unwrap_or(&[]).trim_ascii_start();
    for (end, byte) in rest.iter().enumerate() {
        if *byte <= b' ' {
            return rest.get(..end).unwrap_or(rest);
        }
    }
    rest
}

/// The FCode of a word, if an image has given it one.
fn code_of(machine: &ScriptMachine, xt: Cell) -> Option<u16> {
    let (first, last) = OWN_CODES;
    (first..last).find(|code| machine.token(FCode(*code)) == Some(xt))
}

/// Writes the token at a position of the image that is read.
fn say_token(position: usize, code: FCode, line: &mut Vec<u8>) -> io::Result<()> {
    write!(line, "{{\"image\":{position},\"token\":")?;
    match name_of(code) {
        Some(name) => say_text(name.as_bytes(), line)?,
        None => write!(line, "\"fcode-{number:03x}\"", number = code.0)?,
    }
    write!(line, "}}")
}

/// Writes an item of a definition, by its word's name, or else its FCode, and its number.
fn say_item(machine: &ScriptMachine, place: ItemPlace, line: &mut Vec<u8>) -> io::Result<()> {
    write!(line, "{{\"word\":")?;
    match (machine.name(place.xt), code_of(machine, place.xt)) {
        (Some(name), _) => say_text(name, line)?,
        (None, Some(number)) => write!(line, "\"fcode-{number:03x}\"")?,
        (None, None) => write!(line, "null")?,
    }
    write!(line, ",\"item\":{item}}}", item = place.item)
}

/// Writes the position in a text, and its next word, where the text is a console line.
fn say_place_in_text(
    machine: &ScriptMachine,
    position: usize,
    text: &[u8],
    line: &mut Vec<u8>,
) -> io::Result<()> {
    write!(line, "{{\"text\":{position}")?;
    if reads_line(machine) {
        write!(line, ",\"word\":")?;
        say_text(word_at(text, position), line)?;
    }
    write!(line, "}}")
}

/// Writes where a machine makes its next step, while this console line is read, if one is.
pub(crate) fn say_place(
    machine: &ScriptMachine,
    text: &[u8],
    line: &mut Vec<u8>,
) -> io::Result<()> {
    if let Some((position, code)) = machine.next_token() {
        return say_token(position, code, line);
    }
    if let Some(place) = machine.place() {
        return say_item(machine, place, line);
    }
    match machine.next_word() {
        Some(position) => say_place_in_text(machine, position, text, line),
        None => write!(line, "null"),
    }
}
