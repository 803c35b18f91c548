//! `debug --interactive`: an image runs under a debugger whose commands are read as they come.
ghost use Rattle.std.specs.Prelude.{◌≡◌, ◌≢◌, ◌==◌, ◌++◌, [], ⊤, ℕ, Err, IfErr, IfOk, IfSome, List, None, Ok, OnOk};
ghost use Rattle.std.specs.Prelude.{Some, length, map, not};
ghost use Rattle.std.specs.Io.BufRead.{DropsThrough, take_through};
ghost use Rattle.std.specs.Io.KnownBytes.{Appends};
ghost use Rattle.of_calls.specs.Scripts.{command_of};
ghost use Rattle.of_commands.specs.Prompts.{AnswersPrompts, Fails, FailsRead, FollowsAll, FollowsSome, IsUncommanded};
ghost use Rattle.of_commands.specs.Prompts.{IsUnsaid, IsUnshown, Leads, Obeys, ObeysRead, Prints, command_prompt};
ghost use Rattle.of_commands.specs.Prompts.{led_of, wrong_text};

use crate::consoles::{blamed, print_since, read_line, without_end};
use crate::places::{say_return_items, say_spot};
use of_arguments::Status;
use of_asking::Answer;
use of_calls::{ScriptCommand, ScriptFault, TextFault, parse_script};
use of_cell_code::CellCode;
use of_cells::Cell;
use of_console::tree_text;
use of_debug::Debugger;
use of_files::{Fault, Messages, refused, report, write_whole};
use of_machine::{ScriptMachine, loaded_machine};
use of_script::{Played, play};
use std::alloc::{AllocError, Global};
use std::io::{self, BufRead, ErrorKind, Write};

/// How many lines are read at most.
const MOST_LINES: u64 = u64::MAX;

/// How many bytes of the data space are shown at most.
const MOST_BYTES: u32 = 0x1000;

/// What `?` prints.
const HELP: &str = "\
in            makes one step
over          makes steps until the return stack is no deeper
out           makes steps until the return stack is shallower
go N          makes at most N steps, up to a marked item
break W K     marks item K of the colon definition W, from 0
clear W K     takes the mark of item K of W away
list          prints the definition that runs, as see does, the item that comes next, and the marked ones
where         says where the run stands, and what is on the return stack, the top first
tree          prints the device tree
mem ADDR LEN  prints so many bytes of the data space, at most 1000 in hexadecimal digits
quit          ends, as the end of the input does
W is a name, or # and an FCode in hexadecimal digits, which ADDR and LEN have, too; N and K are decimal.
";

/// What an image runs with under commands that are read.
#[derive(Clone, Copy)]
pub struct PromptRun<'a> {
    /// The path of the image, for what is wrong with it.
    pub path: &'a str,
    /// The image.
    pub image: &'a [u8],
    /// The console lines that are read behind it.
    pub lines: &'a [Vec<u8>],
    /// What is answered, in order.
    pub answers: &'a [Answer],
    /// How many steps are made at most.
    pub limit: u64,
}

/// The debugger of the program's machine.
type Stepper<'a> = Debugger<'a, CellCode>;

/// The word at a place of a line, or an empty one.
fn word_at(line: &str, place: usize) -> &str {
    line.split_whitespace().nth(place).unwrap_or("")
}

/// A number in hexadecimal digits.
fn number_at(line: &str, place: usize) -> Option<u32> {
    u32::from_str_radix(word_at(line, place), 16).ok()
}

/// Says the definition that runs, the item of it that comes next, and which of its items are marked.
fn say_definition(alloc: Global, debugger: &Stepper, text: &mut Vec<u8>) -> io::Result<()> {
    let (_, machine) = debugger.shown();
    let Some(place) = machine.place() else {
        return writeln!(text, "no definition runs");
    };
    let seen = match machine.see(alloc, place.xt) {
        Ok(seen) => seen,
        Err(_) => return Err(io::Error::from(ErrorKind::OutOfMemory)),
    };
    text.write_all(&seen)?;
    writeln!(text, "next: item {item}", item = place.item)?;
    for mark in debugger.marks() {
        if mark.xt.0 == place.xt.0 {
            writeln!(text, "marked: item {item}", item = mark.item)?;
        }
    }
    Ok(())
}

/// Says where a machine stands, and what is on its return stack.
fn say_where(machine: &ScriptMachine, image: &[u8], text: &mut Vec<u8>) -> io::Result<()> {
    say_spot(machine, image, text)?;
    writeln!(text)?;
    say_return_items(machine, text)
}

/// Says so many bytes of the data space from an address on, 16 a line, and `--` for one that can't be read.
fn say_bytes(
    machine: &ScriptMachine,
    address: u32,
    length: u32,
    text: &mut Vec<u8>,
) -> io::Result<()> {
    for offset in 0..length {
        let at = address.wrapping_add(offset);
        if offset % 16 == 0 {
            if offset > 0 {
                writeln!(text)?;
            }
            write!(text, "{at:08x}:")?;
        }
        match machine.byte(Cell(at)) {
            Some(byte) => write!(text, " {byte:02x}")?,
            None => write!(text, " --")?,
        }
    }
    writeln!(text)
}

/// The same for a line with an address and a length, or what is wrong with these.
fn say_memory(machine: &ScriptMachine, line: &str, text: &mut Vec<u8>) -> io::Result<()> {
    match (number_at(line, 1), number_at(line, 2)) {
        (Some(address), Some(length)) if length > 0 && length <= MOST_BYTES => {
            say_bytes(machine, address, length, text)
        }
        _ => writeln!(
            text,
            "an address and a length up to 1000 are wanted, in hexadecimal digits"
        ),
    }
}

/// Says the device tree.
fn say_tree(alloc: Global, machine: &ScriptMachine, text: &mut Vec<u8>) -> io::Result<()> {
    match tree_text(alloc, machine.memory(), machine.tree()) {
        Ok(tree) => text.write_all(&tree),
        Err(_) => Err(io::Error::from(ErrorKind::OutOfMemory)),
    }
}

/// Says what a line asks to see, or why it fits nowhere.
fn say_seen(
    alloc: Global,
    image: &[u8],
    debugger: &Stepper,
    line: &str,
    fault: TextFault,
    text: &mut Vec<u8>,
) -> io::Result<()> {
    let (_, machine) = debugger.shown();
    match word_at(line, 0) {
        "" => Ok(()),
        "?" => text.write_all(HELP.as_bytes()),
        "list" => say_definition(alloc, debugger, text),
        "where" => say_where(machine, image, text),
        "tree" => say_tree(alloc, machine, text),
        "mem" => say_memory(machine, line, text),
        _ => writeln!(text, "{fault}: ? shows the commands"),
    }
}

/// Prints what a line asks to see, or why it fits nowhere.
#[tactic(auto, using(crate::proofs::Prompted::printed, crate::proofs::Unled::unshown, crate::proofs::Unled::unwritten))]
fn look<W: Write>(
    alloc: Global,
    image: &[u8],
    debugger: &Stepper,
    line: &[u8],
    fault: TextFault,
    out: &mut W,
) -> Result<(), Fault>
    ensures ok { OnOk result (Prints (W.contents out.old) (W.contents out.new) (λ said. ⊤)) }
    ensures err { IfErr result (λ f. IsUnshown (W.contents out.old) (W.contents out.new) f) }
{
    let line = std::str::from_utf8(line).unwrap_or("-");
    let mut text = Vec::new(alloc);
    match say_seen(alloc, image, debugger, line, fault, &mut text) {
        Ok(()) => write_whole(out, &text),
        Err(_) => Err(Fault::NoMemory),
    }
}

/// Why a command can't be carried out, as a line; nothing of one that can be, and of refused memory.
fn wrong_text(wrong: Option<ScriptFault>) -> &'static str
    ensures { result.now ≡ wrong_text wrong }
{
    match wrong {
        Some(ScriptFault::Unknown(_)) => "no such word\n",
        Some(ScriptFault::NoWord(_)) => "no colon definition\n",
        Some(ScriptFault::NoItem(_)) => "no such item\n",
        Some(ScriptFault::TooMany(_)) => "too many marks\n",
        Some(ScriptFault::NoMemory) | None => "",
    }
}

/// Prints what commands have printed, and why the last of them can't be carried out.
fn say_played<W: Write>(played: &Played, out: &mut W) -> Result<(), Fault>
    ensures ok { OnOk result ((played.now.wrong ≢ Some ScriptFault.NoMemory)
        × Appends (W.contents out.old) (W.contents out.new) (played.now.text.items ++ wrong_text played.now.wrong)) }
    ensures err { IfErr result (λ f. IsUnsaid (played.now.text.items ++ wrong_text played.now.wrong) played.now.wrong
        (W.contents out.old) (W.contents out.new) f) }
{
    write_whole(out, &played.text)?;
    write_whole(out, wrong_text(played.wrong).as_bytes())?;
    match played.wrong {
        Some(ScriptFault::NoMemory) => Err(Fault::NoMemory),
        _ => Ok(()),
    }
}

/// Carries out the commands of a line, prints what the machine prints meanwhile, and behind it what they print.
fn carry_out<W: Write>(
    alloc: Global,
    debugger: &mut Stepper,
    commands: &[ScriptCommand],
    out: &mut W,
) -> Result<(), Fault>
    ensures ok { OnOk result (Prints (W.contents out.old) (W.contents out.new)
        (ObeysRead (Ok (map command_of commands.now)) debugger.old debugger.new)) }
    ensures err { IfErr result (λ f. FailsRead (Ok (map command_of commands.now)) debugger.old debugger.new
        (W.contents out.old) (W.contents out.new) f) }
{
    let before = debugger.shown().1.console().len();
    let played = play(alloc, debugger, commands);
    print_since(debugger.shown().1, before, out)?;
    say_played(&played, out)
}

/// Does what a line says: carries its command out, or prints what it asks to see.
///
/// The commands `in`, `over`, `out`, `go`, `break` and `clear` are those of a script. Behind what the machine prints
/// meanwhile, with its last line ended, stands what the command prints: the state, or why it can't be carried out. `?`,
/// `list`, `where`, `tree` and `mem` print what they show, and a line that says nothing of these why it doesn't; none
/// of them changes anything.
fn obey<W: Write>(
    alloc: Global,
    image: &[u8],
    debugger: &mut Stepper,
    line: &[u8],
    out: &mut W,
) -> Result<(), Fault>
    ensures ok { OnOk result (Prints (W.contents out.old) (W.contents out.new)
        (Obeys line.now debugger.old debugger.new)) }
    ensures err { IfErr result (λ f. Fails line.now debugger.old debugger.new (W.contents out.old) (W.contents out.new)
        f) }
{
    match parse_script(alloc, line) {
        Ok(commands) => carry_out(alloc, debugger, &commands, out),
        Err(TextFault::NoMemory) => Err(Fault::NoMemory),
        Err(fault) => look(alloc, image, debugger, line, fault, out),
    }
}

/// Shows that a command is awaited, and reads its line; answers whether there is one.
#[tactic(auto, using(crate::proofs::Unled::unprompted, crate::proofs::Unled::unread))]
fn await_command<L: BufRead, W: Write>(
    lines: &mut L,
    line: &mut Vec<u8>,
    out: &mut W,
) -> Result<bool, Fault>
    ensures prompted { OnOk result (Appends (W.contents out.old) (W.contents out.new) command_prompt) }
    ensures some { IfOk result (λ some. some ≡ not (length line.new.items == 0)) }
    ensures read { OnOk result (IfSome (L.remaining lines.old) (λ bytes. line.new.items ≡ take_through 10 bytes)) }
    ensures rest { OnOk result (DropsThrough (L.remaining lines.old) (L.remaining lines.new) 10) }
    ensures err { IfErr result (λ f. IsUncommanded (W.contents out.old) (W.contents out.new) f) }
{
    write_whole(out, b"debug> ")?;
    let _ = out.flush();
    match read_line(lines, line) {
        Ok(some) => Ok(some),
        Err(fault) => Err(fault),
    }
}

/// Reads lines, and does what each says, up to `quit` or the end of the input: `in`, `over`, `out`, `go`, `break` and
/// `clear` are the commands of a script, and `?` prints the others, which show something and change nothing. What is
/// printed stands between prompts.
///
/// An error is for a write that fails, a line that can't be read, or memory; then some of the lines were done, and all
/// went out that they print. Of the next a part went out.
pub fn follow<L: BufRead, W: Write>(
    alloc: Global,
    image: &[u8],
    debugger: &mut Stepper,
    lines: &mut L,
    out: &mut W,
) -> Result<(), Fault>
    ensures ok { OnOk result (IfSome (L.remaining lines.old) (λ bytes.
        FollowsAll bytes debugger.old debugger.new (W.contents out.old) (W.contents out.new))) }
    ensures err { IfErr result (λ f. IfSome (L.remaining lines.old) (λ bytes.
        FollowsSome bytes debugger.old debugger.new (W.contents out.old) (W.contents out.new) f)) }
{
    let mut line = Vec::new(alloc);
    for _ in 0..MOST_LINES {
        if !await_command(lines, &mut line, out)? {
            write_whole(out, b"\n")?;
            return Ok(());
        }
        let said = without_end(&line);
        if said == b"quit".as_slice() {
            return Ok(());
        }
        obey(alloc, image, debugger, said, out)?;
    }
    Err(Fault::Endless)
}

/// Loads the image, and does what lines say up to the end of the input.
#[tactic(auto, using(crate::proofs::Unled::all_led, crate::proofs::Unled::some_led, crate::proofs::Unled::unloaded))]
fn step_by_lines<L: BufRead, W: Write>(
    alloc: Global,
    asked: PromptRun<'_>,
    lines: &mut L,
    out: &mut W,
) -> Result<Status, Fault>
    ensures { IfSome (L.remaining lines.old) (λ bytes. Leads (led_of asked.entry) bytes (W.contents out.old)
        (W.contents out.new) result) }
{
    match loaded_machine(alloc, asked.image, asked.lines) {
        Ok(machine) => {
            let mut debugger = Debugger::new(machine, asked.lines, asked.answers, &[], asked.limit);
            match follow(alloc, asked.image, &mut debugger, lines, out) {
                Ok(()) => Ok(Status::Done),
                Err(fault) => Err(fault),
            }
        }
        Err(refusal) => Err(refused(asked.image.len(), refusal)),
    }
}

/// Runs an image under a debugger that is led by lines, each of which is done as soon as it is read, up to `quit` or
/// the end of the input, and gives the status: that of a run that is done, or of what is wrong, which is said on the
/// error output behind the path of the image, or as of the standard input.
#[tactic(auto, using(crate::proofs::Unled::ended, crate::proofs::Unled::reported))]
pub fn prompt<L: BufRead, W: Write, E: Write>(
    alloc: Global,
    asked: PromptRun<'_>,
    lines: &mut L,
    out: &mut W,
    errors: &mut Messages<E>,
) -> Status
    ensures answered { AnswersPrompts (led_of asked.entry) (L.remaining lines.old) (W.contents out.old)
        (W.contents out.new) result }
    ensures silent { result ≡ Status.Done → errors.new ≡ errors.old }
{
    match step_by_lines(alloc, asked, lines, out) {
        Ok(status) => status,
        Err(fault) => report(blamed(asked.path, fault), fault, errors),
    }
}
