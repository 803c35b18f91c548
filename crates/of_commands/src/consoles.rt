//! `console`: lines are read, and each is run as soon as it is read.
ghost use Rattle.std.specs.Prelude.{◌≡◌, ◌==◌, [], ◌∷◌, ◌++◌, IfErr, IfOk, IfSome, None, OnErr, OnOk, Ok, Some, drop};
ghost use Rattle.std.specs.Prelude.{length, map, not, option_map};
ghost use Rattle.std.specs.Io.BufRead.{DropsThrough, strip_last, take_through};
ghost use Rattle.std.specs.Io.KnownBytes.{Appends};
ghost use Rattle.of_devices.specs.Parts.{board_meant};
ghost use Rattle.of_machine.specs.States.{first_machine};
ghost use Rattle.of_state.specs.State.{flat_calls};
ghost use Rattle.of_monitor.specs.Sessions.{entry};
ghost use Rattle.of_files.specs.Faults.{IsUnwritten};
ghost use Rattle.of_files.specs.Messages.{AppendsPart};
ghost use Rattle.of_commands.specs.Consoles.{behind_image, image_of, line_in, printed_since, prompt, session_text};
ghost use Rattle.of_commands.specs.GivenUp.{AnswersConsole, Converses, IsUnanswered, IsUnawaited, IsUnread, IsUnrun};
ghost use Rattle.of_commands.specs.GivenUp.{StopsBehind};
ghost use Rattle.of_commands.specs.Listings.{newline_behind};

use crate::listings::ends_line;
use of_arguments::Status;
use of_devices::{Board, Rack};
use of_files::{Fault, Messages, refused, report, write_whole};
use of_machine::{ScriptMachine, script_machine};
use of_monitor::{attend, enter};
use of_refusal::Refusal;
use std::alloc::Global;
use std::io::{BufRead, ErrorKind, Write};

/// How many lines a console reads at most.
const MOST_LINES: u64 = u64::MAX;

/// What a console begins with.
#[derive(Clone, Copy)]
pub struct ConsoleRun<'a> {
    /// The path of the image, for what is wrong with it, and the image.
    pub image: Option<(&'a str, &'a [u8])>,
    /// The devices that answer questions.
    pub board: &'a Board,
    /// How many steps are made at most for the image, and for each line.
    pub limit: u64,
}

/// What a machine has printed behind so many bytes.
fn text_since(machine: &ScriptMachine, before: usize) -> &[u8]
    ensures { result.now ≡ drop before machine.now.eval.board.console.text }
{
    machine.console().get(before..).unwrap_or(&[])
}

/// Prints what a machine has printed behind so many bytes, and ends its last line.
pub(crate) fn print_since<W: Write>(
    machine: &ScriptMachine,
    before: usize,
    out: &mut W,
) -> Result<(), Fault>
    ensures ok { OnOk result (let text = drop before machine.now.eval.board.console.text in
        Appends (W.contents out.old) (W.contents out.new) (text ++ newline_behind text)) }
    ensures err { OnErr result (let text = drop before machine.now.eval.board.console.text in
        AppendsPart (W.contents out.old) (W.contents out.new) (text ++ newline_behind text)) }
    ensures fault { IfErr result IsUnwritten }
{
    let text = text_since(machine, before);
    write_whole(out, text)?;
    if ends_line(text) {
        return Ok(());
    }
    write_whole(out, b"\n")
}

/// Some bytes without the last, if that is this byte.
fn without(line: &[u8], byte: u8) -> &[u8]
    ensures { result.now ≡ strip_last byte line.now }
{
    match line.split_last() {
        Some((last, rest)) if *last == byte => rest,
        _ => line,
    }
}

/// A line without its end, `\n` or `\r\n`, if it has one.
pub(crate) fn without_end(line: &[u8]) -> &[u8]
    ensures { result.now ≡ line_in line.now }
{
    let rest = without(line, b'\n');
    if rest.len() < line.len() {
        return without(rest, b'\r');
    }
    line
}

/// Reads a line with its end; answers whether there is one.
pub(crate) fn read_line<L: BufRead>(lines: &mut L, line: &mut Vec<u8>) -> Result<bool, Fault>
    ensures some { IfOk result (λ some. some ≡ not (length line.new.items == 0)) }
    ensures read { OnOk result (IfSome (L.remaining lines.old) (λ bytes. line.new.items ≡ take_through 10 bytes)) }
    ensures rest { OnOk result (DropsThrough (L.remaining lines.old) (L.remaining lines.new) 10) }
    ensures err { IfErr result IsUnread }
{
    line.clear();
    match lines.read_until(b'\n', line) {
        Ok(_) => Ok(!line.is_empty()),
        Err(error) => match error.kind() {
            ErrorKind::OutOfMemory => Err(Fault::NoMemory),
            _ => Err(Fault::Unread(error.raw_os_error())),
        },
    }
}

/// Shows that a line is awaited, and reads it with its end; answers whether there is one.
#[tactic(auto, using(crate::proofs::Stopped::unshown, crate::proofs::Stopped::unread))]
fn await_line<L: BufRead, W: Write>(
    lines: &mut L,
    line: &mut Vec<u8>,
    out: &mut W,
) -> Result<bool, Fault>
    ensures prompted { OnOk result (Appends (W.contents out.old) (W.contents out.new) prompt) }
    ensures some { IfOk result (λ some. some ≡ not (length line.new.items == 0)) }
    ensures read { OnOk result (IfSome (L.remaining lines.old) (λ bytes. line.new.items ≡ take_through 10 bytes)) }
    ensures rest { OnOk result (DropsThrough (L.remaining lines.old) (L.remaining lines.new) 10) }
    ensures err { IfErr result (λ f. IsUnawaited (W.contents out.old) (W.contents out.new) f) }
{
    write_whole(out, b"ok ")?;
    let _ = out.flush();
    match read_line(lines, line) {
        Ok(some) => Ok(some),
        Err(fault) => Err(fault),
    }
}

/// Says why a line was refused, or that the steps which are allowed were made.
fn say_left<E: Write>(
    machine: &ScriptMachine,
    refused: Option<Refusal>,
    limit: u64,
    errors: &mut E,
) {
    let _ = match refused {
        Some(Refusal::Busy) => writeln!(
            errors,
            "ofw: the line before still runs: an empty line lets it go on"
        ),
        Some(refusal) => writeln!(errors, "ofw: {refusal}"),
        None if machine.is_running() => {
            writeln!(
                errors,
                "ofw: limit reached after {limit} steps: an empty line lets it go on"
            )
        }
        None => Ok(()),
    };
}

/// Enters a line and prints what it prints; why it was refused, or that it still runs, is said on the error output.
#[tactic(auto, using(crate::proofs::Stopped::unwritten))]
fn answer_line<W: Write, E: Write>(
    machine: &mut ScriptMachine,
    rack: &mut Rack,
    line: &[u8],
    limit: u64,
    out: &mut W,
    errors: &mut E,
) -> Result<(), Fault>
    requires calm { machine.old.waiting ≡ None }
    ensures entered { OnOk result ((machine.new, map (λ d. meant d) rack.new.items)
        ≡ entry flat_calls limit line.now (machine.old, map (λ d. meant d) rack.old.items)) }
    ensures printed { OnOk result (Appends (W.contents out.old) (W.contents out.new)
        (printed_since machine.old machine.new)) }
    ensures calm { OnOk result (machine.new.waiting ≡ None) }
    ensures err { IfErr result (λ f. IsUnanswered limit line.now (machine.old, map (λ d. meant d) rack.old.items)
        (machine.new, map (λ d. meant d) rack.new.items) (W.contents out.old) (W.contents out.new) f) }
{
    let before = machine.console().len();
    let refused = match enter(machine, rack, line, limit) {
        Ok(()) => None,
        Err(Refusal::NoMemory) => {
            let _ = print_since(machine, before, out);
            return Err(Fault::NoMemory);
        }
        Err(refusal) => Some(refusal),
    };
    print_since(machine, before, out)?;
    say_left(machine, refused, limit, errors);
    Ok(())
}

/// Awaits lines, and enters each, up to the end of the input.
fn session<L: BufRead, W: Write, E: Write>(
    alloc: Global,
    machine: &mut ScriptMachine,
    rack: &mut Rack,
    limit: u64,
    lines: &mut L,
    out: &mut W,
    errors: &mut E,
) -> Result<(), Fault>
    requires calm { machine.old.waiting ≡ None }
    ensures ok { OnOk result (IfSome (L.remaining lines.old) (λ bytes.
        Appends (W.contents out.old) (W.contents out.new)
        (session_text limit (length bytes) bytes (machine.old, map (λ d. meant d) rack.old.items)))) }
    ensures err { IfErr result (λ f. IfSome (L.remaining lines.old) (λ bytes.
        StopsBehind limit bytes (machine.old, map (λ d. meant d) rack.old.items) (W.contents out.old)
        (W.contents out.new) f)) }
{
    let mut line = Vec::new(alloc);
    for _ in 0..MOST_LINES {
        if !await_line(lines, &mut line, out)? {
            write_whole(out, b"\n")?;
            return Ok(());
        }
        answer_line(machine, rack, without_end(&line), limit, out, errors)?;
    }
    Err(Fault::Endless)
}

/// The image that a console begins with, if it does.
fn first_image<'a>(console: ConsoleRun<'a>) -> Option<&'a [u8]>
    ensures { option_map (λ image. image.now) result ≡ image_of console.entry }
{
    match console.image {
        Some((_, image)) => Some(image),
        None => None,
    }
}

/// Runs the image that a console begins with, if it does.
#[tactic(auto, using(crate::proofs::Stopped::refuses, crate::proofs::Stopped::lacks_memory))]
fn run_first(
    machine: &mut ScriptMachine,
    rack: &mut Rack,
    image: Option<&[u8]>,
    limit: u64,
) -> Result<(), Fault>
    requires calm { machine.old.waiting ≡ None }
    ensures begun { OnOk result ((machine.new, map (λ d. meant d) rack.new.items)
        ≡ behind_image limit (option_map (λ image. image.now) image.entry)
        (machine.old, map (λ d. meant d) rack.old.items)) }
    ensures calm { OnOk result (machine.new.waiting ≡ None) }
    ensures err { IfErr result (λ f. IsUnrun machine.old (option_map (λ image. image.now) image.entry) f) }
{
    let Some(image) = image else {
        return Ok(());
    };
    match machine.load(image, "/slot") {
        Ok(()) => {}
        Err(refusal) => return Err(refused(image.len(), refusal)),
    }
    match attend(machine, rack, limit) {
        Ok(()) => Ok(()),
        Err(_) => Err(Fault::NoMemory),
    }
}

/// Runs the image, if there is one, and then the lines, as they come, on a machine that is new.
fn talk_on<L: BufRead, W: Write, E: Write>(
    alloc: Global,
    machine: &mut ScriptMachine,
    console: ConsoleRun<'_>,
    rack: &mut Rack,
    lines: &mut L,
    out: &mut W,
    errors: &mut E,
) -> Result<Status, Fault>
    requires new { machine.old ≡ first_machine }
    ensures { IfSome (L.remaining lines.old) (λ bytes. Converses (map (λ d. meant d) rack.old.items)
        console.entry.limit (image_of console.entry) bytes (W.contents out.old) (W.contents out.new) result) }
{
    run_first(machine, rack, first_image(console), console.limit)?;
    print_since(machine, 0, out)?;
    session(alloc, machine, rack, console.limit, lines, out, errors)?;
    Ok(Status::Done)
}

/// The same on a new machine with a rack of devices.
#[tactic(auto, using(crate::proofs::Stopped::no_memory))]
fn talk<L: BufRead, W: Write, E: Write>(
    alloc: Global,
    console: ConsoleRun<'_>,
    rack: &mut Rack,
    lines: &mut L,
    out: &mut W,
    errors: &mut E,
) -> Result<Status, Fault>
    ensures { IfSome (L.remaining lines.old) (λ bytes. Converses (map (λ d. meant d) rack.old.items)
        console.entry.limit (image_of console.entry) bytes (W.contents out.old) (W.contents out.new) result) }
{
    match script_machine(alloc) {
        Ok(mut machine) => talk_on(alloc, &mut machine, console, rack, lines, out, errors),
        Err(_) => Err(Fault::NoMemory),
    }
}

/// The same with the devices of a board, which stays as it was.
#[tactic(auto, using(crate::proofs::Stopped::no_memory))]
fn converse<L: BufRead, W: Write, E: Write>(
    alloc: Global,
    console: ConsoleRun<'_>,
    lines: &mut L,
    out: &mut W,
    errors: &mut E,
) -> Result<Status, Fault>
    ensures { IfSome (L.remaining lines.old) (λ bytes. Converses (board_meant console.entry.board.now ∷ [])
        console.entry.limit (image_of console.entry) bytes (W.contents out.old) (W.contents out.new) result) }
{
    let Ok(board) = console.board.copy(alloc) else {
        return Err(Fault::NoMemory);
    };
    let Ok(device) = Box::new(alloc, board) else {
        return Err(Fault::NoMemory);
    };
    let mut rack: Rack = Vec::new(alloc);
    let Ok(()) = rack.push(device) else {
        return Err(Fault::NoMemory);
    };
    match talk(alloc, console, &mut rack, lines, out, errors) {
        Ok(status) => Ok(status),
        Err(fault) => Err(fault),
    }
}

/// The file that a fault is of: the image at a path, or the standard input, whose lines can't be read.
pub(crate) fn blamed(path: &str, fault: Fault) -> &str {
    match fault {
        Fault::Unread(_) | Fault::Endless => "standard input",
        _ => path,
    }
}

/// Runs an image, if there is one, and then lines, each as soon as it is read, up to the end of the input, and gives
/// the status. What a line prints is printed, on lines of its own, and `ok` where the next one is awaited.
///
/// What is wrong is said on the error output: with the image behind its path, with the lines as of the standard input;
/// why a line was refused, which changes
/// nothing; and that a line has made as many steps as are allowed, where an empty line lets it go on.
#[tactic(auto, using(crate::proofs::Stopped::ended, crate::proofs::Stopped::reported))]
pub fn console<L: BufRead, W: Write, E: Write>(
    alloc: Global,
    console: ConsoleRun<'_>,
    lines: &mut L,
    out: &mut W,
    errors: &mut Messages<E>,
) -> Status
    ensures { AnswersConsole (board_meant console.entry.board.now ∷ []) console.entry.limit (image_of console.entry)
        (L.remaining lines.old) (W.contents out.old) (W.contents out.new) result }
{
    let path = match console.image {
        Some((path, _)) => path,
        None => "",
    };
    match converse(alloc, console, lines, out, errors) {
        Ok(status) => status,
        Err(fault) => report(blamed(path, fault), fault, errors),
    }
}
