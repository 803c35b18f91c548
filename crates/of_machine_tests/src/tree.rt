//! Images that build the device tree, and the tree that they leave.
use crate::rows::{MachineRows, check_on_machines, halves};
use crate::shared::{after_run, image_of, lend, load_tokens, printed, push_bytes, run_on};
use of_machine::{ScriptMachine, script_machine};
use of_nodes::{Phandle, Property, Span};
use std::alloc::Global;
use std::process::Abort;
use std::test::Fail;

/// The bytes of a span.
fn bytes<'a>(machine: &'a ScriptMachine, span: Span) -> &'a [u8] {
    machine
        .memory()
        .slice(span.address, span.length)
        .unwrap_or(b"")
}

/// Appends a property as ` name=digits`.
fn push_property(
    alloc: Global,
    text: &mut String,
    machine: &ScriptMachine,
    property: Property,
) -> Result<(), Fail> {
    text.push(' ')?;
    push_bytes(text, bytes(machine, property.name))?;
    text.push('=')?;
    for byte in bytes(machine, property.value) {
        text.push_str(format!(in alloc; "{byte:02x}")?.as_str())?;
    }
    Ok(())
}

/// Appends the path of a node and its properties, in their order.
fn push_node(
    alloc: Global,
    text: &mut String,
    machine: &ScriptMachine,
    node: Phandle,
) -> Result<(), Fail> {
    push_bytes(
        text,
        machine.tree().path_of(machine.memory(), node)?.as_slice(),
    )?;
    let mut next = machine.tree().next_property(node, b"")?;
    for _ in 0..9 {
        let Some(property) = next else {
            return Ok(());
        };
        push_property(alloc, text, machine, property)?;
        let name = bytes(machine, property.name);
        next = machine.tree().next_property(node, name)?;
    }
    Ok(())
}

/// Appends the nodes from `/slot` on in the order of making, each behind `;`.
fn push_nodes(alloc: Global, text: &mut String, machine: &ScriptMachine) -> Result<(), Fail> {
    for number in 2..9 {
        let node = Phandle::of(number);
        if machine.tree().parent(node).is_err() {
            return Ok(());
        }
        text.push(';')?;
        push_node(alloc, text, machine, node)?;
    }
    Ok(())
}

/// What is on the console, and these nodes.
fn shown(alloc: Global, machine: &ScriptMachine) -> Result<String, Fail> {
    let mut text = printed(alloc, machine)?;
    push_nodes(alloc, &mut text, machine)?;
    Ok(text)
}

/// Loads an image, which stands behind the path of its node, and runs it.
fn run_load(alloc: Global, machine: &mut ScriptMachine, words: &str) -> Result<(), Fail> {
    let (path, tokens) = words.trim().split_once(' ').unwrap_or(("", ""));
    load_tokens(alloc, machine, tokens, path)?;
    run_on(machine, 9_999)
}

/// Runs images, loaded one after another, with `+` between, each behind the path of its node.
fn run_loads(alloc: Global, machine: &mut ScriptMachine, loads: &str) -> Result<(), Fail> {
    for words in loads.split('+') {
        run_load(alloc, machine, words)?;
    }
    Ok(())
}

/// Such images, and behind `|` what they print and the tree that they leave.
pub(crate) struct TreeRows;

impl MachineRows for TreeRows {
    fn given(alloc: Global, machine: &mut ScriptMachine, call: &str) -> Result<String, Fail> {
        run_loads(alloc, machine, call)?;
        shown(alloc, machine)
    }
}

/// Images, each behind the path of the node that it is loaded for, and behind `|` what they print and the nodes that
/// are there then.
const TREES: &str = "\
/slot 011f 120170 0201 0127 00|;/slot name=736c6f7400;/slot/p name=7000
/slot 1204 63617264 0201 b6 04 61646433 0800 b7 a8 1e c2 a7 0800 9d 00|5 ;/card name=6361726400
/packages 011f 120170 0201 0127 00|;/slot name=736c6f7400;/packages/p name=7000
/ 011f 120161 0201 011f 120162 0201 0127 0127 011f 120163 0201 00|;/slot name=736c6f7400;/a name=6100;/a/b name=6200\
;/c name=6300
/slot a6 0111 120161 0110 a7 0111 120162 0110 a8 0111 120163 0110 1000000004 0111 120161 0110 00|\
;/slot name=736c6f7400 a=00000004 b=00000002 c=00000003
/slot a6 0111 48 30 120161 0110 1000000009 31 72 00|;/slot name=736c6f7400 a=00000001
/slot a6 0111 120161 0110 00 + /slot 1000000009 120161 021a 46 46 72 00|\
fault -20: write to a read-only location$;/slot name=736c6f7400 a=00000001
/slot 120163 0201 1203612f62 0201 00|fault -32: invalid name argument$;/c name=6300
/slot 011f 120170 0201 00 + /slot 0127 00|fault -259: no such node$;/slot name=736c6f7400;/slot/p name=7000
/slot 011f 120170 0201 a4 0218 00 + /slot 0127 00|fault -1: abort$fault -259: no such node$\
;/slot name=736c6f7400;/slot/p name=7000
/slot 011f 011f 120170 0201 0127 120171 0201 00|;/slot name=736c6f7400;/slot/q name=7100;/slot/q/p name=7000
/slot 10d0000000 023b 9b 10d0000004 023c 9b a5 023c 9b 1200 0204 9b 9b 00|\
d0000004 d0000008 d0000000 ffffffff d0000004 ;/slot name=736c6f7400
/slot a5 a6 a7 0116 120163 0201 00 + /c@1,0 120161 120162 0110 00|\
;/c@1,0 name=6300 reg=000000010000000000000002 b=61
";

/// Images that define words, each behind the path of its node, and behind `|` what they print. `find-method` (0207)
/// finds a named word in the package that was active, with its execution token, and in no other.
const METHODS: &str = "\
/slot ca 03 666f6f 0801 b7 c2 1203 464f4f 10d0000008 0207 9b 9b 00|ffffffff c000052c
/slot ca 03 666f6f 0801 b7 c2 1203 666f6f 10d0000004 0207 9b 00|0
/slot b6 03 666f6f 0801 b7 c2 1203 666f6f 10d0000008 0207 9b 00|0
/slot b5 0801 b7 c2 1203 666f6f 10d0000008 0207 9b 00|0
/slot ca 03 666f6f 0801 b7 c2 ca 03 666f6f 0802 b7 c2 00 + /slot 1203 666f6f 10d0000008 0207 9b 9b 00|\
ffffffff c0000530
/slot 1000000005 ca 03 666f6f 0801 b8 1203 666f6f 10d0000008 0207 46 1d 9b 00|5
/packages ca 03 666f6f 0801 b9 00 + /slot 1203 666f6f 10d0000004 0207 9b 9b 00|ffffffff c000052c
/slot 011f ca 03 666f6f 0801 b9 0127 1203 666f6f 10d000000c 0207 9b 9b 00|ffffffff c000052c
/slot 1000000005 ca 03 666f6f 0801 b8 ca 03 666f6f 0802 ba 00 + /slot 1203 666f6f 10d0000008 0207 9b 9b 00|\
fault -4: stack underflow$ffffffff c000052c
/slot ca 03 666f6f 0801 ba 00 + /slot 1203 666f6f 10d0000008 0207 9b 00|fault -4: stack underflow$0
/slot ca 03 666f6f 0801 b7 13 0006 c2 00 + /slot 1203 666f6f 10d0000008 0207 9b 00|\
fault -22: control structure mismatch$0
";

/// Images that are loaded one after another, and behind `|` what they print, without the blanks at the end.
pub(crate) struct PrintRows;

impl MachineRows for PrintRows {
    fn given(alloc: Global, machine: &mut ScriptMachine, call: &str) -> Result<String, Fail> {
        run_loads(alloc, machine, call)?;
        let said = printed(alloc, machine)?;
        Ok(String::from_str(alloc, said.trim_end())?)
    }
}

/// Images loaded one after another, and behind `|` what they print: the data stack and the base stay.
const STAYING: &str = "\
/slot a6 00 + /slot 9d 00|1
/slot a7 a8 00 + /slot 9f 00|2 3
/slot 1000000010 1000000008 a0 72 00 + /slot 9d 00|20
";

#[test]
fn loads_begin_on_what_is_there(rt: HostRuntime) -> Result<(), Fail> {
    check_on_machines::<PrintRows, _>(&rt, rt.alloc(), STAYING)
}

/// What `run_script` makes of an image's tokens: what is printed, and the tree.
fn made_by_script(alloc: Global, tokens: &str) -> Result<String, Fail> {
    let image = image_of(alloc, tokens)?;
    after_run(alloc, &image, 999, |run| shown(alloc, &run.0))
}

/// A script's image runs for `/slot`.
#[test]
fn scripts_run_for_the_slot(rt: HostRuntime) -> Result<(), Fail> {
    let made = made_by_script(rt.alloc(), "a6 0111 120161 0110 00")?;
    assert!(rt; made.as_str() == ";/slot name=736c6f7400 a=00000001");
    Ok(())
}

#[test]
fn named_words_become_methods(rt: HostRuntime) -> Result<(), Fail> {
    check_on_machines::<PrintRows, _>(&rt, rt.alloc(), METHODS)
}

#[test]
fn images_build_trees(rt: HostRuntime) -> Result<(), Fail> {
    check_on_machines::<TreeRows, _>(&rt, rt.alloc(), TREES)
}

/// Loads an image for `/slot`. False where that is refused.
fn is_loaded(machine: &mut ScriptMachine, image: &[u8]) -> bool {
    machine.load(image, "/slot").is_ok()
}

/// Loads an image for `/slot`, again where that is refused.
pub(crate) fn load_in_turn(machine: &mut ScriptMachine, image: &[u8]) {
    for _ in 0..9 {
        if is_loaded(machine, image) {
            break;
        }
    }
}

/// Makes a step. False where it is refused and is counted all the same.
fn keeps_count(machine: &mut ScriptMachine) -> bool {
    let before = machine.steps();
    machine.step().is_ok() || machine.steps() == before
}

/// Makes 99 steps. False where one that is refused is counted all the same.
fn keeps_counts(machine: &mut ScriptMachine) -> bool {
    for _ in 0..99 {
        if !keeps_count(machine) {
            return false;
        }
    }
    true
}

/// The tree that an image leaves, if no refused step of it is counted.
fn in_turn(alloc: Global, machine: &mut ScriptMachine, image: &[u8]) -> Result<String, Fail> {
    load_in_turn(machine, image);
    if keeps_counts(machine) {
        shown(alloc, machine)
    } else {
        Ok(format!(in alloc; "a refused step is counted")?)
    }
}

/// Sees that an image prints and leaves on a machine what its line says.
fn check_in_turn_on<R: Abort>(
    rt: &R,
    alloc: Global,
    machine: &mut ScriptMachine,
    line: &str,
) -> Result<(), Fail> {
    let (tokens, wanted) = halves(line);
    let image = image_of(alloc, tokens)?;
    let made = in_turn(alloc, machine, &image)?;
    assert!(rt; made.as_str() == wanted, "{line} : {made}");
    Ok(())
}

/// The same on a new machine, if there is memory for one.
fn check_one_in_turn<R: Abort>(rt: &R, alloc: Global, line: &str) -> Result<(), Fail> {
    match script_machine(alloc) {
        Ok(machine) => lend(
            machine,
            |machine| check_in_turn_on(rt, alloc, machine, line),
        ),
        Err(_) => Ok(()),
    }
}

/// The same of each line of a table, where each growth is refused in turn and no refused step is counted.
pub(crate) fn check_in_turn<R: Abort>(rt: &R, alloc: Global, table: &str) -> Result<(), Fail> {
    for line in table.lines() {
        check_one_in_turn(rt, alloc, line)?;
    }
    Ok(())
}

/// A device of the tree whose node is made, and a definition with two arms, which is run with 0 and prints 2.
const GROWING: &str = "\
b50800b7140007a6130005b2a7b2c2a508009d00|2 ;/slot name=736c6f7400
a6 0111 120161 0110 011f 120170 0201 0127 00|;/slot name=736c6f7400 a=00000001;/slot/p name=7000
";

/// A machine whose growths are refused in turn goes on where it stood.
#[test]
fn refused_memory(rt: HostRuntime) -> Result<(), Fail> {
    check_in_turn(&rt, rt.alloc(), GROWING)
}
