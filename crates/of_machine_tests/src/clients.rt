//! Clients, whom a machine answers between two steps.
use crate::lines::lines_of;
use crate::rows::{MachineRows, check_on_machines};
use crate::shared::{
    bytes_of, lend, load, load_tokens, on_machine, on_machine_if_room, run_on, run_with,
};
use of_cells::Cell;
use of_client::{ClientCall, ClientReply};
use of_machine::{ScriptMachine, run_script};
use of_nodes::Phandle;
use of_refusal::Refusal;
use std::alloc::{AllocError, Global};
use std::test::Fail;

/// Tokens that are run for `/slot`, and what a client asks then, before what it is answered: a number in 8 digits, and
/// bytes where there are some.
const SERVICES: &str = "\
00>finddevice /slot|d0000008
00>finddevice /|d0000000
00>finddevice slot|ffffffff
00>finddevice|ffffffff
00>finddevice /none|ffffffff
00>child d0000000|d0000004
00>child d0000008|00000000
00>child d000000c|ffffffff
00>child 0|ffffffff
00>peer 0|d0000000
00>peer d0000004|d0000008
00>peer d0000008|00000000
00>peer d0000000|00000000
00>peer 1|ffffffff
00>parent d0000008|d0000000
00>parent d0000000|00000000
00>parent d0000009|ffffffff
00>getproplen d0000008 name|00000005
00>getproplen d0000008 reg|ffffffff
00>getproplen 0 name|ffffffff
00>getprop d0000008 name 3|00000005 736c6f
00>getprop d0000008 name 5|00000005 736c6f7400
00>getprop d0000008 name ffffffff|00000005 736c6f7400
00>getprop d0000008 name 0|00000005
00>getprop d0000008 reg 3|ffffffff
00>getprop d000000c name 3|ffffffff
00>nextprop d0000008|00000001 6e616d65
00>nextprop d0000008 name|00000000
00>nextprop d0000008 reg|ffffffff
00>nextprop 7|ffffffff
00>package-to-path d0000008 20|00000005 2f736c6f74
00>package-to-path d0000008 2|00000005 2f73
00>package-to-path d0000000 9|00000001 2f
00>package-to-path d0000010 9|ffffffff
00>instance-to-package 0|ffffffff
00>instance-to-package e0000000|ffffffff
";

/// Trees that images build, and instances that are live while they run.
const BUILT: &str = "\
a6 0111 120161 0110 a7 0111 120162 0110 00>nextprop d0000008|00000001 6e616d65
a6 0111 120161 0110 a7 0111 120162 0110 00>nextprop d0000008 name|00000001 61
a6 0111 120161 0110 a7 0111 120162 0110 00>nextprop d0000008 a|00000001 62
a6 0111 120161 0110 a7 0111 120162 0110 00>nextprop d0000008 b|00000000
1001020304 0111 120161 0110 00>getprop d0000008 a 3|00000004 010203
1001020304 0111 120161 0110 1001020304 0111 120161 021e 00>getproplen d0000008 a|ffffffff
011f 120170 0201 0127 00>child d0000008|d000000c
011f 120170 0201 0127 00>package-to-path d000000c 7|00000007 2f736c6f742f70
011f 120170 0201 0127 00>finddevice /slot/p|d000000c
011f 13ffff 00>instance-to-package e0000004|d000000c
011f 13ffff 00>instance-to-package e0000000|d0000008
";

/// A number in hexadecimal digits.
fn number(digits: &str) -> u32 {
    u32::from_str_radix(digits, 16).unwrap_or(0)
}

/// The node of a phandle.
fn node(digits: &str) -> Phandle {
    Phandle(Cell(number(digits)))
}

/// A name, a path, or none.
fn text(alloc: Global, word: &str) -> Result<Vec<u8>, AllocError> {
    Vec::from_slice(alloc, word.as_bytes())
}

/// What a client asks with the words of a line.
pub(crate) fn call_of(alloc: Global, line: &str) -> Result<ClientCall, AllocError> {
    let mut words = line.split_whitespace();
    let service = words.next().unwrap_or("");
    let first = words.next().unwrap_or("");
    let second = words.next().unwrap_or("");
    let third = words.next().unwrap_or("");
    Ok(match service {
        "finddevice" => ClientCall::FindDevice(text(alloc, first)?),
        "child" => ClientCall::Child(node(first)),
        "peer" => ClientCall::Peer(node(first)),
        "parent" => ClientCall::Parent(node(first)),
        "getproplen" => ClientCall::GetPropLen(node(first), text(alloc, second)?),
        "getprop" => ClientCall::GetProp(node(first), text(alloc, second)?, number(third)),
        "nextprop" => ClientCall::NextProp(node(first), text(alloc, second)?),
        "package-to-path" => ClientCall::PackageToPath(node(first), number(second)),
        _ => ClientCall::InstanceToPackage(Cell(number(first))),
    })
}

/// Answers a client.
fn serve(machine: &mut ScriptMachine, call: &ClientCall) -> Result<(), Fail> {
    machine.client(call)?;
    Ok(())
}

/// Appends a reply: its number, and its bytes if it has some.
fn push_reply(out: &mut String, reply: &ClientReply) -> Result<(), Fail> {
    write!(out, "{:08x}", reply.number.0)?;
    for (place, byte) in reply.bytes.iter().enumerate() {
        if place == 0 {
            out.push(' ')?;
        }
        write!(out, "{byte:02x}")?;
    }
    Ok(())
}

/// All replies of a machine.
fn replies(alloc: Global, machine: &ScriptMachine) -> Result<String, Fail> {
    let mut out = String::new(alloc);
    for reply in machine.replies() {
        push_reply(&mut out, reply)?;
    }
    Ok(out)
}

/// What a client is answered once an image of tokens has run, for so many steps at most.
fn answered(
    alloc: Global,
    machine: &mut ScriptMachine,
    tokens: &str,
    line: &str,
) -> Result<String, Fail> {
    load_tokens(alloc, machine, tokens, "/slot")?;
    run_on(machine, 99)?;
    serve(machine, &call_of(alloc, line)?)?;
    replies(alloc, machine)
}

/// Tokens, behind `>` a call, and behind `|` what it is answered.
struct ServiceRows;

impl MachineRows for ServiceRows {
    fn given(alloc: Global, machine: &mut ScriptMachine, call: &str) -> Result<String, Fail> {
        let (tokens, call) = call.split_once('>').unwrap_or(("", ""));
        answered(alloc, machine, tokens, call)
    }
}

#[test]
fn services(rt: HostRuntime) -> Result<(), Fail> {
    check_on_machines::<ServiceRows, _>(&rt, rt.alloc(), SERVICES)
}

#[test]
fn services_of_what_was_built(rt: HostRuntime) -> Result<(), Fail> {
    check_on_machines::<ServiceRows, _>(&rt, rt.alloc(), BUILT)
}

/// What a client is answered that asks for `/slot`'s child before each of the first steps.
fn between_steps(alloc: Global, machine: &mut ScriptMachine, image: &[u8]) -> Result<String, Fail> {
    load(machine, image, "/slot")?;
    for _ in 0..3 {
        serve(machine, &ClientCall::Child(Phandle::of(2)))?;
        run_on(machine, 1)?;
    }
    replies(alloc, machine)
}

/// The same on a new machine.
fn between_steps_of(alloc: Global, image: &[u8]) -> Result<String, Fail> {
    on_machine(alloc, |machine| between_steps(alloc, machine, image))
}

#[test]
fn clients_ask_between_steps(rt: HostRuntime) -> Result<(), Fail> {
    let image = bytes_of(rt.alloc(), "f10800ce00000012011f1201700201012700")?;
    assert!(rt; between_steps_of(rt.alloc(), &image)?.as_str() == "00000000d000000cd000000c");
    Ok(())
}

/// Clients that ask for the child of `/slot` when these steps were made.
fn calls_at(alloc: Global, dues: &[u64]) -> Result<Vec<(u64, ClientCall)>, Fail> {
    let mut calls = Vec::new(alloc);
    for due in dues {
        calls.push((*due, ClientCall::Child(Phandle::of(2))))?;
    }
    Ok(calls)
}

/// What clients are answered by a script's run of an image, for so many steps at most: each asks for `/slot`'s child
/// once so many steps are made.
fn by_script(alloc: Global, image: &[u8], dues: &[u64], limit: u64) -> Result<String, Fail> {
    let calls = calls_at(alloc, dues)?;
    lend(
        run_with(alloc, image, &[], &calls, limit)?,
        |run| replies(alloc, &run.0),
    )
}

#[test]
fn scripts_answer_clients(rt: HostRuntime) -> Result<(), Fail> {
    let alloc = rt.alloc();
    let image = bytes_of(alloc, "f10800ce00000012011f1201700201012700")?;
    assert!(rt; by_script(alloc, &image, &[0, 1], 99)?.as_str() == "00000000d000000c");
    assert!(rt; by_script(alloc, &image, &[1, 0], 99)?.as_str() == "d000000cd000000c");
    assert!(rt; by_script(alloc, &image, &[0, 1], 0)?.as_str() == "00000000");
    assert!(rt; by_script(alloc, &image, &[0, 99, 0], 99)?.as_str() == "00000000");
    Ok(())
}

/// What clients are answered by a script's run of lines: each asks for `/slot`'s child once so many steps are made.
fn by_lines(alloc: Global, text: &str, dues: &[u64]) -> Result<String, Fail> {
    let image = bytes_of(alloc, "f10800000000000900")?;
    let lines = lines_of(alloc, text)?;
    let calls = calls_at(alloc, dues)?;
    lend(
        run_script(alloc, &image, &lines, &[], &calls, 99)?,
        |run| replies(alloc, &run.0),
    )
}

/// The image ends with the first step, `dev` and the name behind it are the second, and the third makes a node.
#[test]
fn clients_ask_between_words(rt: HostRuntime) -> Result<(), Fail> {
    let text = by_lines(
        rt.alloc(),
        "dev /slot new-device~s\" p\" device-name",
        &[1, 2, 3],
    )?;
    assert!(rt; text.as_str() == "0000000000000000d000000c");
    Ok(())
}

/// Whether a call is refused for memory alone, and then leaves no reply.
fn is_kept(machine: &mut ScriptMachine, call: &ClientCall) -> bool {
    match machine.client(call) {
        Ok(()) => machine.replies().len() == 1,
        Err(Refusal::NoMemory) => machine.replies().is_empty(),
        Err(_) => false,
    }
}

/// Run with each growth refused in turn.
#[test]
fn refused_replies_change_nothing(rt: HostRuntime) -> Result<(), Fail> {
    let alloc = rt.alloc();
    let call = ClientCall::PackageToPath(Phandle::of(2), 9);
    let kept = on_machine_if_room(alloc, |machine| is_kept(machine, &call));
    assert!(rt; kept.unwrap_or(true));
    Ok(())
}
