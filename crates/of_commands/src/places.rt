//! Where a machine stands, in words on the error output.
use of_cells::Cell;
use of_fcodes::{FCode, name_of};
use of_machine::ScriptMachine;
use of_stacks::{Continuation, Due, Input, Reading, ReturnItem};
use of_stream::{HEADER_LENGTH, open};
use std::io::{self, Write};

/// The number of the first FCode that an image can give a word, and that behind the last.
const OWN_CODES: (u16, u16) = (0x800, 0x1000);

/// Whether the last step of a run that throws nothing is made here: the end token, or the end of a line.
pub(crate) fn stands_at_end(machine: &ScriptMachine) -> bool {
    match machine.next_token() {
        Some((_, code)) => matches!(code, FCode(0x000 | 0x0ff)),
        None => machine.next_word().is_some(),
    }
}

/// The position at which an image that is read goes on.
fn position_in(reading: Reading) -> Option<usize> {
    match reading.input {
        Input::Image { position, .. } => Some(position),
        Input::Text { .. } | Input::Nothing => None,
    }
}

/// What goes on behind an item of the return stack, if the item is the end of an image.
fn image_behind(item: ReturnItem) -> Option<usize> {
    match item {
        ReturnItem::Source(reading) => position_in(reading),
        _ => None,
    }
}

/// The position at which the image of a run goes on, where that is the only image which is read.
fn image_position(machine: &ScriptMachine) -> Option<usize> {
    let mut found = position_in(machine.reading());
    for item in machine.returns().iter() {
        let Some(position) = image_behind(*item) else {
            continue;
        };
        if found.is_some() {
            return None;
        }
        found = Some(position);
    }
    found
}

/// The token of an image that ends at a position, behind its own.
fn token_before(image: &[u8], end: usize) -> Option<(usize, FCode)> {
    let Ok(stream) = open(image) else {
        return None;
    };
    let mut position = HEADER_LENGTH;
    let mut size = stream.first_size();
    for _ in HEADER_LENGTH..end {
        let Ok((token, behind)) = stream.token_at(position, size) else {
            return None;
        };
        if behind == end {
            return Some((position, token.code));
        }
        size = token.size_behind(size);
        position = behind;
    }
    None
}

/// Says which token stands at a position.
fn say_token<E: Write>(position: usize, code: FCode, errors: &mut E) -> io::Result<()> {
    match name_of(code) {
        Some(name) => write!(errors, "`{name}` at {position:06x}"),
        None => {
            let number = code.0;
            write!(errors, "`fcode-{number:03x}` at {position:06x}")
        }
    }
}

/// Says behind which token of its image a machine stands, if that is known.
fn say_token_before<E: Write>(
    machine: &ScriptMachine,
    image: &[u8],
    errors: &mut E,
) -> io::Result<()> {
    let Some(end) = image_position(machine) else {
        return Ok(());
    };
    let Some((position, code)) = token_before(image, end) else {
        return Ok(());
    };
    write!(errors, ", behind ")?;
    say_token(position, code, errors)
}

/// The FCode of a word, if an image has given it one.
fn code_of(machine: &ScriptMachine, xt: Cell) -> Option<u16> {
    let (first, last) = OWN_CODES;
    (first..last).find(|code| machine.token(FCode(*code)) == Some(xt))
}

/// Says which word has an execution token: by its name, or its FCode.
fn say_word<E: Write>(machine: &ScriptMachine, xt: Cell, errors: &mut E) -> io::Result<()> {
    if let Some(name) = machine.name(xt) {
        write!(errors, "`")?;
        errors.write_all(name)?;
        return write!(errors, "`");
    }
    match code_of(machine, xt) {
        Some(number) => write!(errors, "`fcode-{number:03x}`"),
        None => write!(errors, "a word without a name"),
    }
}

/// Says where a machine stands: at a token of the image, in a definition or a text behind it, or where the image was
/// cut behind it.
pub(crate) fn say_spot<E: Write>(
    machine: &ScriptMachine,
    image: &[u8],
    errors: &mut E,
) -> io::Result<()> {
    if let Some((position, code)) = machine.next_token() {
        return say_token(position, code, errors);
    }
    if let Some(place) = machine.place() {
        write!(errors, "item {item} of ", item = place.item)?;
        say_word(machine, place.xt, errors)?;
    } else if machine.next_word().is_some() {
        write!(errors, "in a text")?;
    } else {
        write!(errors, "at the end of the image")?;
    }
    say_token_before(machine, image, errors)
}

/// What an item of the return stack is called that isn't a return, a loop or a cell, if it is said at all: what each
/// run begins with isn't.
fn name_of_item(item: ReturnItem) -> Option<&'static str> {
    match item {
        ReturnItem::Handler(_) => Some("catch"),
        ReturnItem::Source(reading) => match reading.input {
            Input::Image { .. } => Some("an image"),
            Input::Text { .. } => Some("a text"),
            Input::Nothing => None,
        },
        ReturnItem::Caller(due) => match due {
            Due::Method { .. } => Some("a method"),
            Due::Open { .. } => Some("open"),
            Due::Close { .. } => Some("close"),
            Due::Load { .. } => None,
        },
        ReturnItem::Return(_) | ReturnItem::Loop(_) | ReturnItem::User(_) => None,
    }
}

/// Says which item called a word that goes on there when it has ended.
fn say_caller<E: Write>(
    machine: &ScriptMachine,
    next: Continuation,
    errors: &mut E,
) -> io::Result<()> {
    let Some(place) = machine.resumed(next) else {
        return Ok(());
    };
    write!(
        errors,
        "item {item} of ",
        item = place.item.saturating_sub(1)
    )?;
    say_word(machine, place.xt, errors)
}

/// Says what an item of the return stack is.
fn say_item<E: Write>(machine: &ScriptMachine, item: ReturnItem, errors: &mut E) -> io::Result<()> {
    match item {
        ReturnItem::Return(next) => say_caller(machine, next, errors),
        ReturnItem::Loop(current) => write!(
            errors,
            "loop {index:x} of {limit:x}",
            index = current.index.0,
            limit = current.limit.0
        ),
        ReturnItem::User(cell) => write!(errors, "{number:x}", number = cell.0),
        ReturnItem::Handler(_) | ReturnItem::Source(_) | ReturnItem::Caller(_) => {
            write!(errors, "{name}", name = name_of_item(item).unwrap_or(""))
        }
    }
}

/// Whether an item of the return stack is said.
fn is_said(machine: &ScriptMachine, item: ReturnItem) -> bool {
    match item {
        ReturnItem::Return(next) => machine.resumed(next).is_some(),
        ReturnItem::Loop(_) | ReturnItem::User(_) => true,
        ReturnItem::Handler(_) | ReturnItem::Source(_) | ReturnItem::Caller(_) => {
            name_of_item(item).is_some()
        }
    }
}

/// How many items of the return stack are said at most.
const MOST_ITEMS: usize = 16;

/// How many items of the return stack are said where all are.
fn said_count(machine: &ScriptMachine) -> usize {
    machine
        .returns()
        .iter()
        .filter(|item| is_said(machine, **item))
        .count()
}

/// Says that more items of the return stack are there than were said, if so many are.
fn say_more<E: Write>(count: usize, errors: &mut E) -> io::Result<()> {
    if count > MOST_ITEMS {
        let more = count.saturating_sub(MOST_ITEMS);
        write!(errors, ", and {more} more")?;
    }
    writeln!(errors)
}

/// Says what is on the return stack by names, the top first, if anything is there: items that called words, loops with
/// their index and limit, cells, and what else goes on; of more than 16 the first, and how many more there are.
pub(crate) fn say_return_items<E: Write>(
    machine: &ScriptMachine,
    errors: &mut E,
) -> io::Result<()> {
    let count = said_count(machine);
    if count == 0 {
        return Ok(());
    }
    write!(errors, "return stack: ")?;
    let mut said = 0usize;
    for item in machine.returns().iter().rev() {
        if said >= MOST_ITEMS || !is_said(machine, *item) {
            continue;
        }
        if said > 0 {
            write!(errors, ", ")?;
        }
        said = said.saturating_add(1);
        say_item(machine, *item, errors)?;
    }
    say_more(count, errors)
}

/// The same behind the path of an image.
pub(crate) fn say_returns<E: Write>(
    path: &str,
    machine: &ScriptMachine,
    errors: &mut E,
) -> io::Result<()> {
    if said_count(machine) == 0 {
        return Ok(());
    }
    write!(errors, "ofw: {path}: ")?;
    say_return_items(machine, errors)
}
