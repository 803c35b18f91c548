//! Runs in which each growth is refused in turn: a refused call changes nothing, and goes on when it is made again.
use crate::clients::call_of;
use crate::rows::halves;
use crate::shared::{on_machine_if_room, shown_byte};
use of_cells::Cell;
use of_client::{ClientCall, ClientReply};
use of_machine::ScriptMachine;
use of_refusal::Refusal;
use std::alloc::{AllocError, Global};
use std::process::Abort;

/// An image that does nothing.
const EMPTY: [u8; 9] = [0xf1, 0x08, 0, 0, 0, 0, 0, 0x09, 0];

/// `: t begin dup while 1- dup 2 <> while repeat then ; 5 t .`
const LOOPS: [u8; 40] = [
    0xf1, 0x08, 0x09, 0x7e, 0, 0, 0, 0x28, 0xb5, 0x08, 0x00, 0xb7, 0xb1, 0x47, 0x14, 0x00, 0x0f,
    0xa6, 0x1f, 0x47, 0xa7, 0x3d, 0x14, 0x00, 0x06, 0x13, 0xff, 0xf3, 0xb2, 0xb2, 0xc2, 0x10, 0, 0,
    0, 0x05, 0x08, 0x00, 0x9d, 0x00,
];

/// Lines that are read behind the image that does nothing, and the calls of clients, both with `~` between; and how
/// many steps are made, what is printed, with `$` for an end of line, and what the clients are answered.
const ROWS: &str = "\
: t begin dup while 1- repeat ;~see t~3 t .||30|: t begin dup if 1- again then ;$0 |
|finddevice /slot~getprop d0000008 name 3~nextprop d0000008 name~package-to-path d0000008 20\
|1||d0000008~5 slo~0~5 /slot
";

/// A call of a machine.
#[derive(Clone, Copy)]
enum Call<'a> {
    Load(&'a [u8]),
    Line(&'a [u8]),
    Client(&'a ClientCall),
    Step,
    Run,
}

/// Makes a call.
fn made(machine: &mut ScriptMachine, call: Call<'_>) -> Result<(), Refusal> {
    match call {
        Call::Load(image) => machine.load(image, "/slot"),
        Call::Line(text) => machine.line(text),
        Call::Client(client) => machine.client(client),
        Call::Step => step(machine),
        Call::Run => run(machine),
    }
}

/// Makes a step.
fn step(machine: &mut ScriptMachine) -> Result<(), Refusal> {
    match machine.step() {
        Ok(_) => Ok(()),
        Err(_) => Err(Refusal::NoMemory),
    }
}

/// Makes a step by `run`.
fn run(machine: &mut ScriptMachine) -> Result<(), Refusal> {
    match machine.run(1) {
        Ok(()) => Ok(()),
        Err(_) => Err(Refusal::NoMemory),
    }
}

/// Cells as one number.
fn mixed(cells: &[Cell]) -> u64 {
    cells.iter().fold(
        cells.len() as u64,
        |mix, cell| mix.rotate_left(5) ^ u64::from(cell.0),
    )
}

/// Where the next token or word is looked for.
fn position(machine: &ScriptMachine) -> Option<usize> {
    match machine.next_token() {
        Some((position, _)) => Some(position),
        None => machine.next_word(),
    }
}

/// The views of a machine, as numbers: the steps, what comes next, how deep the return stack is, how much was printed,
/// how many clients were answered, and the data stack.
fn views(machine: &ScriptMachine) -> [u64; 6] {
    [
        machine.steps(),
        position(machine).unwrap_or(usize::MAX) as u64,
        machine.depth() as u64,
        machine.console().len() as u64,
        machine.replies().len() as u64,
        mixed(machine.stack()),
    ]
}

/// Makes a call, again where memory is refused. False where it is refused otherwise, and where a refusal changes
/// something.
fn goes_on(machine: &mut ScriptMachine, call: Call<'_>) -> bool {
    let before = views(machine);
    for _ in 0..9 {
        match made(machine, call) {
            Ok(()) => return true,
            Err(Refusal::NoMemory) => {}
            Err(_) => return false,
        }
        if views(machine) != before {
            return false;
        }
    }
    false
}

/// Makes steps until nothing runs.
fn steps_go_on(machine: &mut ScriptMachine) -> bool {
    for _ in 0..99 {
        if !goes_on(machine, Call::Step) || !goes_on(machine, Call::Run) {
            return false;
        }
    }
    !machine.is_running()
}

/// Hands lines in, each behind the steps of the one before.
fn lines_go_on(machine: &mut ScriptMachine, lines: &str) -> bool {
    for line in lines.split_terminator('~') {
        if !goes_on(machine, Call::Line(line.as_bytes())) || !steps_go_on(machine) {
            return false;
        }
    }
    true
}

/// Answers clients.
fn clients_go_on(machine: &mut ScriptMachine, clients: &[ClientCall]) -> bool {
    for client in clients {
        if !goes_on(machine, Call::Client(client)) {
            return false;
        }
    }
    true
}

/// Loads an image, runs it and lines, and answers clients.
fn all_go_on(
    machine: &mut ScriptMachine,
    image: &[u8],
    lines: &str,
    clients: &[ClientCall],
) -> bool {
    goes_on(machine, Call::Load(image))
        && steps_go_on(machine)
        && lines_go_on(machine, lines)
        && clients_go_on(machine, clients)
}

/// Whether a text stands on the console, with `$` for an end of line.
fn is_printed(console: &[u8], text: &str) -> bool {
    console.len() == text.len()
        && console
            .iter()
            .zip(text.chars())
            .all(|(byte, wanted)| shown_byte(*byte) == wanted)
}

/// Whether a reply is a number and the bytes behind it.
fn is_reply(reply: &ClientReply, wanted: &str) -> bool {
    let (number, bytes) = wanted.split_once(' ').unwrap_or((wanted, ""));
    u32::from_str_radix(number, 16).ok() == Some(reply.number.0)
        && reply.bytes.as_slice() == bytes.as_bytes()
}

/// Whether clients were answered so.
fn are_replies(replies: &[ClientReply], wanted: &str) -> bool {
    let mut words = wanted.split_terminator('~');
    for reply in replies {
        if !is_reply(reply, words.next().unwrap_or("")) {
            return false;
        }
    }
    words.next().is_none()
}

/// Whether a machine is as a row says.
fn is_left(machine: &ScriptMachine, row: &str) -> bool {
    let (steps, rest) = halves(row);
    let (console, replies) = halves(rest);
    u64::from_str_radix(steps, 10).ok() == Some(machine.steps())
        && machine.stack().is_empty()
        && is_printed(machine.console(), console)
        && are_replies(machine.replies(), replies)
}

/// What clients ask.
fn clients_of(alloc: Global, calls: &str) -> Result<Vec<ClientCall>, AllocError> {
    let mut clients = Vec::new(alloc);
    for call in calls.split_terminator('~') {
        clients.push(call_of(alloc, call)?)?;
    }
    Ok(clients)
}

/// Sees that an image comes to what a row says, if there is memory for the row and for a machine.
fn check<R: Abort>(rt: &R, alloc: Global, image: &[u8], row: &str) {
    let (lines, rest) = halves(row);
    let (calls, wanted) = halves(rest);
    let Ok(clients) = clients_of(alloc, calls) else {
        return;
    };
    let is_so = on_machine_if_room(
        alloc,
        |machine| all_go_on(machine, image, lines, &clients) && is_left(machine, wanted),
    );
    assert!(rt; is_so.unwrap_or(true), "{row}");
}

/// Each growth is refused in turn.
#[test]
fn refused_memory(rt: HostRuntime) {
    for row in ROWS.lines() {
        check(&rt, rt.alloc(), &EMPTY, row);
    }
    check(&rt, rt.alloc(), &LOOPS, "||46|2 |");
}
