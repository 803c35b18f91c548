use crate::shared::{after_run, load, on_machine, run_on};
use hex::decode;
use of_cells::Cell;
use of_fcodes::FCode;
use of_machine::{End, LONGEST_IMAGE, Progress, ScriptMachine, run_script};
use of_refusal::Refusal;
use of_stream::StreamFault;
use std::alloc::Global;
use std::test::Fail;

/// `2 3 + .` in an image.
const FIVE: &str = "f108020a0000000da7a81e9d00";

const BAD_START: Refusal = Refusal::BadStart(StreamFault::BadStart(0xff));

/// The refusal of an image, if it isn't run.
fn refusal(alloc: Global, image: &[u8]) -> Option<Refusal> {
    run_script(alloc, image, &[], &[], &[], 9).err()
}

#[test]
fn images_are_refused(rt: HostRuntime) -> Result<(), Fail> {
    let erased = [0xffu8; 16];
    assert!(rt; refusal(rt.alloc(), &erased) == Some(BAD_START));
    let long = vec![in rt.alloc(); 0xf0u8; LONGEST_IMAGE + 1]?;
    assert!(rt; refusal(rt.alloc(), &long) == Some(Refusal::ImageTooLong));
    Ok(())
}

/// An image of so many bytes that ends at once.
fn long_image(alloc: Global, length: usize) -> Result<Vec<u8>, Fail> {
    let mut image = vec![in alloc; 0u8; length]?;
    if let Some(start) = image.first_mut() {
        *start = 0xf1;
    }
    Ok(image)
}

/// The refusal of such an image.
fn refusal_of(alloc: Global, length: usize) -> Result<Option<Refusal>, Fail> {
    let image = long_image(alloc, length)?;
    Ok(refusal(alloc, &image))
}

/// An image has at most 262,144 bytes.
#[test]
fn the_longest_image(rt: HostRuntime) -> Result<(), Fail> {
    assert!(rt; refusal_of(rt.alloc(), 262_144)? == None);
    assert!(rt; refusal_of(rt.alloc(), 262_145)? == Some(Refusal::ImageTooLong));
    Ok(())
}

/// What the load of an image for a path is answered.
fn answer(machine: &mut ScriptMachine, image: &[u8], path: &str) -> Result<(), Refusal> {
    machine.load(image, path)
}

/// Loads on one machine: images, each behind the path that it is loaded for.
const LOADS: &str = "\
/slots f108020a0000000da7a81e9d00
/slots ffffffffffffffffffffffffffffffff
/slot f108020a0000000da7a81e9d00
/slot ffffffffffffffffffffffffffffffff
";

/// What they are answered.
const ANSWERS: &str = "\
no such node
bad start byte ff
loaded
busy
";

/// Appends the answer to a load.
fn push_answer(text: &mut String, answer: Result<(), Refusal>) -> Result<(), Fail> {
    match answer {
        Ok(()) => text.push_str("loaded\n")?,
        Err(refusal) => write!(text, "{refusal}\n")?,
    }
    Ok(())
}

/// Appends what loads are answered, each on a line.
fn push_answers(alloc: Global, text: &mut String, machine: &mut ScriptMachine) -> Result<(), Fail> {
    for load in LOADS.lines() {
        let (path, digits) = load.split_once(' ').unwrap_or(("", ""));
        let image = decode(alloc, digits)?;
        push_answer(text, answer(machine, &image, path))?;
    }
    Ok(())
}

/// What loads are answered, each on a line.
fn answers(alloc: Global, machine: &mut ScriptMachine) -> Result<String, Fail> {
    let mut text = String::new(alloc);
    push_answers(alloc, &mut text, machine)?;
    Ok(text)
}

#[test]
fn loads_are_refused(rt: HostRuntime) -> Result<(), Fail> {
    let alloc = rt.alloc();
    let text = on_machine(alloc, |machine| answers(alloc, machine))?;
    assert!(rt; text.as_str() == ANSWERS);
    Ok(())
}

/// Loads an image so many times and lets each run end.
fn load_often(machine: &mut ScriptMachine, image: &[u8], count: u32) -> Result<(), Fail> {
    for _ in 0..count {
        answer(machine, image, "/slot")?;
        run_on(machine, 9)?;
    }
    Ok(())
}

/// What a load behind 65,536 others is answered, and how many steps were made then.
fn answer_behind_many(machine: &mut ScriptMachine) -> Result<(Result<(), Refusal>, u64), Fail> {
    let image = [0xf1, 8, 0, 0, 0, 0, 0, 9, 0];
    load_often(machine, &image, 65_536)?;
    let last = answer(machine, &image, "/slot");
    Ok((last, machine.steps()))
}

/// An instance is opened by each load, and 65,536 are ever opened.
#[test]
fn instances_of_loads(rt: HostRuntime) -> Result<(), Fail> {
    let (last, steps) = on_machine(rt.alloc(), answer_behind_many)?;
    assert!(rt; last == Err(Refusal::NoNode));
    assert!(rt; steps == 65_536);
    Ok(())
}

/// What a step does.
fn made(progress: Progress) -> &'static str {
    match progress {
        Progress::Done => "step",
        Progress::Asks(_) => "asks",
        Progress::Ended => "none",
    }
}

/// What a step of a machine does, and whether something runs then.
fn one_step(machine: &mut ScriptMachine) -> Result<(&'static str, bool), Fail> {
    let progress = machine.step()?;
    Ok((made(progress), machine.is_running()))
}

#[test]
fn nothing_to_do(rt: HostRuntime) -> Result<(), Fail> {
    let (progress, is_running) = on_machine(rt.alloc(), one_step)?;
    assert!(rt; progress == "none");
    assert!(rt; !is_running);
    Ok(())
}

/// Loads an image, given in digits, for `/slot`.
fn load_digits(alloc: Global, machine: &mut ScriptMachine, digits: &str) -> Result<(), Fail> {
    let image = decode(alloc, digits)?;
    load(machine, &image, "/slot")
}

/// Appends the steps made, whether something runs, how many items the return stack has, and behind `:` the data stack.
fn push_state(text: &mut String, machine: &ScriptMachine) -> Result<(), Fail> {
    write!(text, "{} ", machine.steps())?;
    text.push_str(if machine.is_running() {
        "runs "
    } else {
        "idle "
    })?;
    write!(text, "{}:", machine.depth())?;
    for cell in machine.stack() {
        write!(text, " {}", cell.0)?;
    }
    Ok(())
}

/// Appends what a step does.
fn push_step(text: &mut String, machine: &mut ScriptMachine) -> Result<(), Fail> {
    write!(text, "; {}; ", made(machine.step()?))?;
    Ok(())
}

/// Appends the states before and after a step, and after two more.
fn push_states(text: &mut String, machine: &mut ScriptMachine) -> Result<(), Fail> {
    push_state(text, machine)?;
    push_step(text, machine)?;
    push_state(text, machine)?;
    text.push_str("; two; ")?;
    run_on(machine, 2)?;
    push_state(text, machine)
}

/// The states around steps of `2 3 + .`.
fn states_of_five(alloc: Global, machine: &mut ScriptMachine) -> Result<String, Fail> {
    load_digits(alloc, machine, FIVE)?;
    let mut text = String::new(alloc);
    push_states(&mut text, machine)?;
    Ok(text)
}

#[test]
fn steps(rt: HostRuntime) -> Result<(), Fail> {
    let alloc = rt.alloc();
    let seen = on_machine(alloc, |machine| states_of_five(alloc, machine))?;
    assert!(rt; seen.as_str() == "0 runs 2:; step; 1 runs 2: 2; two; 3 runs 2: 5");
    Ok(())
}

/// Appends the token that comes next, its number behind its position.
fn push_token(text: &mut String, machine: &ScriptMachine) -> Result<(), Fail> {
    match machine.next_token() {
        Some((position, code)) => write!(text, "{position}:{number:x} ", number = code.0)?,
        None => text.push_str("- ")?,
    }
    Ok(())
}

/// Appends the token that comes next before each of eight steps, and after the last.
fn push_tokens(text: &mut String, machine: &mut ScriptMachine) -> Result<(), Fail> {
    for _ in 0..8 {
        push_token(text, machine)?;
        run_on(machine, 1)?;
    }
    push_token(text, machine)
}

/// The tokens that come next in a definition and a call of it.
fn tokens_of_two(alloc: Global, machine: &mut ScriptMachine) -> Result<String, Fail> {
    load_digits(alloc, machine, "f108000000000014b50800b7a7c2080000")?;
    let mut text = String::new(alloc);
    push_tokens(&mut text, machine)?;
    Ok(text)
}

/// The token that comes next before each step: none while the definition runs, whose number and end are two steps, and
/// none at the end.
#[test]
fn tokens_come_next(rt: HostRuntime) -> Result<(), Fail> {
    let alloc = rt.alloc();
    let seen = on_machine(alloc, |machine| tokens_of_two(alloc, machine))?;
    assert!(rt; seen.as_str() == "8:b5 11:b7 12:a7 13:c2 14:800 - - 16:0 - ");
    Ok(())
}

/// Whether the image region begins with these bytes.
fn stands_in_the_region(machine: &ScriptMachine, bytes: &[u8]) -> bool {
    bytes
        .iter()
        .zip(0x60_0000u32..)
        .all(|(byte, addr)| machine.byte(Cell(addr)) == Some(*byte))
}

/// The byte at an address.
fn byte_at(machine: &ScriptMachine, addr: u32) -> Option<u8> {
    machine.byte(Cell(addr))
}

/// Whether the image region begins with `2 3 + .` and zeros once that is loaded, and the byte behind the region.
fn region_of_five(alloc: Global, machine: &mut ScriptMachine) -> Result<(bool, Option<u8>), Fail> {
    load_digits(alloc, machine, FIVE)?;
    let image = decode(alloc, "f108020a0000000da7a81e9d000000")?;
    let stands = stands_in_the_region(machine, &image);
    Ok((stands, byte_at(machine, 0x64_0000)))
}

/// A running image stands in the image region, and behind it are zeros.
#[test]
fn images_stand_in_the_data_space(rt: HostRuntime) -> Result<(), Fail> {
    let alloc = rt.alloc();
    let (stands, behind) = on_machine(alloc, |machine| region_of_five(alloc, machine))?;
    assert!(rt; stands);
    assert!(rt; behind == None);
    Ok(())
}

/// An image is given back at its end.
#[test]
fn images_are_given_back(rt: HostRuntime) -> Result<(), Fail> {
    let image = decode(rt.alloc(), FIVE)?;
    let cleared = after_run(rt.alloc(), &image, 5, |run| {
        Ok(stands_in_the_region(&run.0, &[0; 14]))
    })?;
    assert!(rt; cleared);
    Ok(())
}

/// Names, or numbers behind a `#`, and the execution tokens that they find once an image has defined `foo` as 0x801, a
/// method of its node, which is active no more.
const NAMES: &str = "\
+ c0000080
foo none
if c00004c8
b(lit) none
#34 c00000e4
#800 none
#801 c000052c
#1e c0000080
";

/// `external-token foo 0x801 b(:) b(;)` in an image.
const FOO: &str = "f10800000000000aca03666f6f0801b7c200";

/// What a name finds, or a number behind a `#`.
fn found(machine: &ScriptMachine, name: &str) -> Result<Option<u32>, Fail> {
    let xt = match name.strip_prefix('#') {
        Some(number) => machine.token(FCode(u16::from_str_radix(number, 16)?)),
        None => machine.word(name.as_bytes()),
    };
    Ok(xt.map(|xt| xt.0))
}

/// Whether a line's name finds what stands behind it.
fn is_found(machine: &ScriptMachine, line: &str) -> Result<bool, Fail> {
    let (name, wanted) = line.split_once(' ').unwrap_or(("", ""));
    Ok(found(machine, name)? == u32::from_str_radix(wanted, 16).ok())
}

/// The lines whose names find something else.
fn differing_names(alloc: Global, machine: &ScriptMachine, table: &str) -> Result<String, Fail> {
    let mut text = String::new(alloc);
    for line in table.lines() {
        if !is_found(machine, line)? {
            write!(text, "{line}\n")?;
        }
    }
    Ok(text)
}

/// The same on a machine on which an image has run for so many steps at most.
fn differing_after(alloc: Global, digits: &str, limit: u64, table: &str) -> Result<String, Fail> {
    let image = decode(alloc, digits)?;
    after_run(
        alloc,
        &image,
        limit,
        |run| differing_names(alloc, &run.0, table),
    )
}

/// Whether no line's name finds something else then.
fn are_found_after(alloc: Global, digits: &str, limit: u64, table: &str) -> Result<bool, Fail> {
    Ok(differing_after(alloc, digits, limit, table)?.is_empty())
}

#[test]
fn names_and_numbers_find_words(rt: HostRuntime) -> Result<(), Fail> {
    assert!(rt; are_found_after(rt.alloc(), FOO, 9, NAMES)?);
    Ok(())
}

/// `external-token probe 0x801 b(:) b(;) external-token + 0x802 b(:) b(;)` in an image.
const PROBE: &str = "f10800000000001bca0570726f62650801b7c2ca012b0802b7c200";

/// Names, and the execution tokens that they find for the image that has defined `probe` and `+` and still runs.
const NAMES_INSIDE: &str = "\
probe c000052c
PROBE c000052c
probes none
+ c0000530
- c0000084
#802 c0000530
#1e c0000080
";

/// How a run of so many steps at most ends.
fn end_of(alloc: Global, digits: &str, limit: u64) -> Result<End, Fail> {
    let image = decode(alloc, digits)?;
    after_run(alloc, &image, limit, |run| Ok(run.1))
}

#[test]
fn names_find_words_while_an_image_runs(rt: HostRuntime) -> Result<(), Fail> {
    assert!(rt; end_of(rt.alloc(), PROBE, 6)? == End::LimitReached);
    assert!(rt; are_found_after(rt.alloc(), PROBE, 6, NAMES_INSIDE)?);
    Ok(())
}

/// The refusals and their texts.
#[test]
fn texts(rt: HostRuntime) -> Result<(), Fail> {
    let texts = format!(in rt.alloc();
        "{}, {}, {}, {}, {}, {}, {}, {}",
        Refusal::Busy,
        Refusal::NotAsked,
        Refusal::WrongAnswer,
        Refusal::ImageTooLong,
        Refusal::LineTooLong,
        BAD_START,
        Refusal::NoNode,
        Refusal::NoMemory
    )?;
    let wanted =
        "busy, not asked, wrong answer, image too long, line too long, bad start byte ff, no such node, no memory";
    assert!(rt; texts.as_str() == wanted);
    Ok(())
}
