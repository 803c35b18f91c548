//! Questions between the calls of a machine: what is seen while one is open, and where limits and clients come.
use crate::questions::{answer_of, answers_of, mark, push_query, push_stack};
use crate::rows::{MachineRows, Rows, check, check_on_one, halves};
use crate::shared::{image_of, lend, on_machine_if_room, push_bytes, run_on, run_with};
use crate::tree::load_in_turn;
use of_asking::Answer;
use of_client::ClientCall;
use of_machine::{End, Progress, ScriptMachine};
use of_nodes::Phandle;
use of_refusal::Refusal;
use std::alloc::Global;
use std::test::Fail;

/// An image of nine steps, of which the first, the fifth and the seventh ask; the second makes a child of `/slot`, and
/// the sixth names it `p`.
const THREE: &str = "8e 011f 120170 1000000005 0126 0201 8d 0127 00";

/// Limits of its run, and behind `|` the answers, and what is left: the steps, the end, how many questions were asked,
/// and the replies. Clients ask at 0 and 1 for `/slot`'s child, at 5 and 7 for `/slot/p`.
const LIMITS: &str = "\
0|41 done 1|0 limit 0 00000000
1|41 done 1|1 limit 1 00000000 00000000
2|41 done 1|2 limit 1 00000000 00000000
3|41 done 1|3 limit 1 00000000 00000000
4|41 done 1|4 limit 1 00000000 00000000
5|41 done 1|5 limit 2 00000000 00000000 ffffffff
6|41 done 1|6 limit 2 00000000 00000000 ffffffff
7|41 done 1|7 limit 3 00000000 00000000 ffffffff d000000c
8|41 done 1|8 limit 3 00000000 00000000 ffffffff d000000c
9|41 done 1|9 done 3 00000000 00000000 ffffffff d000000c
10|41 done 1|9 done 3 00000000 00000000 ffffffff d000000c
18446744073709551615|41 done 1|9 done 3 00000000 00000000 ffffffff d000000c
0||0 limit 0 00000000
1||0 out 1 00000000
9|done|0 out 1 00000000
4|41|4 limit 1 00000000 00000000
5|41|4 out 2 00000000 00000000
9|41|4 out 2 00000000 00000000
4|41 1|4 limit 1 00000000 00000000
5|41 1|4 out 2 00000000 00000000
6|41 done|6 limit 2 00000000 00000000 ffffffff
7|41 done|6 out 3 00000000 00000000 ffffffff
9|41 done 2|6 out 3 00000000 00000000 ffffffff
";

/// The clients of these runs.
fn clients(alloc: Global) -> Result<Vec<(u64, ClientCall)>, Fail> {
    let path = Vec::from_slice(alloc, b"/slot/p")?;
    let again = Vec::from_slice(alloc, b"/slot/p")?;
    Ok(vec![in alloc;
        (0, ClientCall::Child(Phandle::of(2))),
        (1, ClientCall::Child(Phandle::of(2))),
        (5, ClientCall::FindDevice(path)),
        (7, ClientCall::FindDevice(again)),
    ]?)
}

/// Appends the steps, the end, how many questions were asked, and the replies.
fn push_counts(text: &mut String, machine: &ScriptMachine, end: End) -> Result<(), Fail> {
    write!(
        text,
        "{} {} {}",
        machine.steps(),
        mark(end),
        machine.asked().len()
    )?;
    for reply in machine.replies() {
        write!(text, " {:08x}", reply.number.0)?;
    }
    Ok(())
}

/// The steps, the end, how many questions were asked, and the replies.
fn counts_text(alloc: Global, machine: &ScriptMachine, end: End) -> Result<String, Fail> {
    let mut text = String::new(alloc);
    push_counts(&mut text, machine, end)?;
    Ok(text)
}

/// The same of a run with these answers and clients.
fn counts_of(
    alloc: Global,
    image: &[u8],
    answers: &[Answer],
    calls: &[(u64, ClientCall)],
    limit: u64,
) -> Result<String, Fail> {
    lend(
        run_with(alloc, image, answers, calls, limit)?,
        |run| counts_text(alloc, &run.0, run.1),
    )
}

/// What a run of that image leaves, in so many steps at most.
fn counts(alloc: Global, answers: &str, limit: u64) -> Result<String, Fail> {
    let image = image_of(alloc, THREE)?;
    let answers = answers_of(alloc, answers)?;
    let calls = clients(alloc)?;
    counts_of(alloc, &image, &answers, &calls, limit)
}

/// Limits of the run of that image.
struct LimitRows;

impl Rows for LimitRows {
    fn given<'a>(alloc: Global, line: &'a str) -> Result<(String, &'a str), Fail> {
        let (limit, rest) = halves(line);
        let (answers, wanted) = halves(rest);
        Ok((counts(alloc, answers, limit.parse()?)?, wanted))
    }
}

/// A limit comes before the next question. A client that is due is answered before anything further, also behind a step
/// that asked.
#[test]
fn limits_and_clients(rt: HostRuntime) -> Result<(), Fail> {
    check::<LimitRows, _>(&rt, rt.alloc(), LIMITS)
}

/// Calls of one machine, what each gives, and what is seen then: the steps, the depth of the return stack, how many
/// questions were asked and which one is open; the data stack; and the console. `child` is a client's call, which asks
/// for the child of `/slot`.
const OPEN: &str = "\
answer 41|not asked|0 0 0 -||
step|none|0 0 0 -||
load /slot a8 9d 8e 00|loaded|0 2 0 -||
answer 41|not asked|0 2 0 -||
run 9|ran|2 2 0 -||3 
step|asks key|2 2 1 key||3 
step|asks key|2 2 1 key||3 
run 9|ran|2 2 1 key||3 
answer 100|wrong answer|2 2 1 key||3 
answer done|wrong answer|2 2 1 key||3 
answer fault|wrong answer|2 2 1 key||3 
load /slot 00|busy|2 2 1 key||3 
load /none 00|busy|2 2 1 key||3 
child|00000000|2 2 1 key||3 
step|asks key|2 2 1 key||3 
answer 41|done|3 2 1 -|41|3 
answer 41|not asked|3 2 1 -|41|3 
step|done|4 0 1 -|41|3 
answer 41|not asked|4 0 1 -|41|3 
step|none|4 0 1 -|41|3 
";

/// A bus fault that nothing catches, in a definition; and an image that is loaded then.
const THROWN: &str = "\
load /slot b50800 b7 0234 c2 a6 1080000000 0800 00|loaded|0 2 0 -||
run 99|ran|7 3 0 -|1 80000000|
step|asks read 4 80000000|7 3 1 read 4 80000000|1 80000000|
answer done|wrong answer|7 3 1 read 4 80000000|1 80000000|
answer fault|done|8 0 1 -||fault -258: bus fault$
answer fault|not asked|8 0 1 -||fault -258: bus fault$
load /slot 8e 00|loaded|8 2 1 -||fault -258: bus fault$
step|asks key|8 2 2 key||fault -258: bus fault$
answer 41|done|9 2 2 -|41|fault -258: bus fault$
";

/// A bus fault that is caught in the step that asks, and one that is caught beneath a definition.
const HANDLED: &str = "\
load /slot 1080000000 11 0234 0217 8e 00|loaded|0 2 0 -||
run 99|ran|2 2 0 -|80000000 c00003e8|
step|asks read 4 80000000|2 2 1 read 4 80000000|80000000 c00003e8|
answer fault|done|3 2 1 -|80000000 fffffefe|
run 99|ran|3 2 1 -|80000000 fffffefe|
step|asks key|3 2 2 key|80000000 fffffefe|
answer 41|done|4 2 2 -|80000000 fffffefe 41|
step|done|5 0 2 -|80000000 fffffefe 41|
load /slot 52 46 b50800 b7 0234 c2 1080000000 11 0800 0217 00|loaded|5 2 2 -|80000000 fffffefe 41|
run 99|ran|14 4 2 -|80000000|
step|asks read 4 80000000|14 4 3 read 4 80000000|80000000|
answer fault|done|15 2 3 -|80000000 fffffefe|
step|done|16 0 3 -|80000000 fffffefe|
";

/// Packages that are opened: a question that is open has made no instance, nor has an answer that doesn't fit.
const OPENING: &str = "\
load /slot ca046f70656e0800 bc 11 8e c3 0800 a5 a5 0203 020b 0205 00|loaded|0 2 0 -||
run 99|ran|8 2 0 -|0 0 d0000008|
step|asks key|8 2 1 key|0 0 d0000008|
answer done|wrong answer|8 2 1 key|0 0 d0000008|
step|asks key|8 2 1 key|0 0 d0000008|
answer 0|done|9 2 1 -|0|
step|done|10 0 1 -|0|
load /slot 0203 00|loaded|10 2 1 -|0|
run 99|ran|12 0 1 -|0 e0000008|
";

/// The same by name.
const NAMED: &str = "\
load /packages 011f 120170 0201 ca046f70656e0800 bc 11 8e c3 0800 0127 00|loaded|0 2 0 -||
run 99|ran|9 0 0 -||
load /slot a5 a5 120170 020f 00|loaded|9 2 0 -||
run 99|ran|12 2 0 -|0 0 60000c 1|
step|asks key|12 2 1 key|0 0 60000c 1|
answer fault|wrong answer|12 2 1 key|0 0 60000c 1|
answer 41|done|13 2 1 -|e000000c|
step|done|14 0 1 -|e000000c|
";

/// Appends how a call was answered.
fn push_answered(text: &mut String, made: &str, given: Result<(), Refusal>) -> Result<(), Fail> {
    match given {
        Ok(()) => text.push_str(made)?,
        Err(refusal) => write!(text, "{refusal}")?,
    }
    Ok(())
}

/// What the load of an image is answered.
fn load_answer(machine: &mut ScriptMachine, image: &[u8], path: &str) -> Result<(), Refusal> {
    machine.load(image, path)
}

/// Loads an image of tokens, which stand behind the path, and appends how that is answered.
fn push_load(
    alloc: Global,
    text: &mut String,
    machine: &mut ScriptMachine,
    words: &str,
) -> Result<(), Fail> {
    let (path, tokens) = words.split_once(' ').unwrap_or(("", ""));
    let image = image_of(alloc, tokens)?;
    push_answered(text, "loaded", load_answer(machine, &image, path))
}

/// Makes a step, and appends what it does.
fn push_step(text: &mut String, machine: &mut ScriptMachine) -> Result<(), Fail> {
    match machine.step()? {
        Progress::Done => text.push_str("done")?,
        Progress::Asks(query) => {
            text.push_str("asks ")?;
            push_query(text, query)?;
        }
        Progress::Ended => text.push_str("none")?,
    }
    Ok(())
}

/// What an answer is answered.
fn told(machine: &mut ScriptMachine, answer: Answer) -> Result<(), Refusal> {
    machine.answer(answer)
}

/// Answers a client, and appends the number of the reply.
fn push_child(text: &mut String, machine: &mut ScriptMachine) -> Result<(), Fail> {
    machine.client(&ClientCall::Child(Phandle::of(2)))?;
    if let Some(reply) = machine.replies().last() {
        write!(text, "{:08x}", reply.number.0)?;
    }
    Ok(())
}

/// Makes a call, and appends what it gives.
fn push_call(
    alloc: Global,
    text: &mut String,
    machine: &mut ScriptMachine,
    call: &str,
) -> Result<(), Fail> {
    let (verb, rest) = call.split_once(' ').unwrap_or((call, ""));
    match verb {
        "load" => push_load(alloc, text, machine, rest),
        "step" => push_step(text, machine),
        "answer" => push_answered(text, "done", told(machine, answer_of(rest)?)),
        "run" => {
            run_on(machine, rest.parse()?)?;
            push_answered(text, "ran", Ok(()))
        }
        _ => push_child(text, machine),
    }
}

/// Appends what is seen of a machine.
fn push_seen(text: &mut String, machine: &ScriptMachine) -> Result<(), Fail> {
    write!(
        text,
        "{} {} {} ",
        machine.steps(),
        machine.depth(),
        machine.asked().len()
    )?;
    match machine.question() {
        Some(query) => push_query(text, query)?,
        None => text.push('-')?,
    }
    text.push('|')?;
    push_stack(text, machine)?;
    text.push('|')?;
    push_bytes(text, machine.console())
}

/// Calls of one machine.
struct CallRows;

impl MachineRows for CallRows {
    /// What a call gives, and what is seen then.
    fn given(alloc: Global, machine: &mut ScriptMachine, call: &str) -> Result<String, Fail> {
        let mut text = String::new(alloc);
        push_call(alloc, &mut text, machine, call)?;
        text.push('|')?;
        push_seen(&mut text, machine)?;
        Ok(text)
    }
}

#[test]
fn questions_stay_open(rt: HostRuntime) -> Result<(), Fail> {
    check_on_one::<CallRows, _>(&rt, rt.alloc(), OPEN)
}

#[test]
fn bus_faults_are_thrown(rt: HostRuntime) -> Result<(), Fail> {
    check_on_one::<CallRows, _>(&rt, rt.alloc(), THROWN)?;
    check_on_one::<CallRows, _>(&rt, rt.alloc(), HANDLED)
}

#[test]
fn packages_open_with_answers(rt: HostRuntime) -> Result<(), Fail> {
    check_on_one::<CallRows, _>(&rt, rt.alloc(), OPENING)?;
    check_on_one::<CallRows, _>(&rt, rt.alloc(), NAMED)
}

/// Makes a step, again where memory is refused, and tells whether it asks. None where a refused one is counted.
fn asks_in_turn(machine: &mut ScriptMachine) -> Option<bool> {
    let before = machine.steps();
    for _ in 0..9 {
        if let Ok(progress) = machine.step() {
            return Some(matches!(progress, Progress::Asks(_)));
        }
        if machine.steps() != before || machine.question().is_some() {
            return None;
        }
    }
    None
}

/// Makes steps up to one that asks, each again where memory is refused. False where a refused one is counted.
fn goes_in_turn(machine: &mut ScriptMachine) -> bool {
    for _ in 0..99 {
        match asks_in_turn(machine) {
            Some(true) => return true,
            Some(false) => {}
            None => return false,
        }
    }
    false
}

/// Gives an answer, again where memory is refused. False where such a refusal changes something.
fn tells_in_turn(machine: &mut ScriptMachine, answer: Answer) -> bool {
    let before = (machine.steps(), machine.asked().len());
    for _ in 0..9 {
        match told(machine, answer) {
            Ok(()) => return machine.question().is_none(),
            Err(Refusal::NoMemory) => {}
            Err(_) => return false,
        }
        if (machine.steps(), machine.asked().len()) != before || machine.question().is_none() {
            return false;
        }
    }
    false
}

/// A loop that opens a package 20 times, whose `open` is a defer that asks for a key.
const GROWING: &str = "\
ca046f70656e0800 bc 11 8e c3 0800 1000000014 a5 17 000d a5 a5 0203 020b 0205 15 fff7 00";

/// Whether these questions are asked and answered, each call made again where memory is refused.
fn is_answered_in_turn(machine: &mut ScriptMachine, image: &[u8]) -> bool {
    load_in_turn(machine, image);
    for _ in 0..20 {
        if !goes_in_turn(machine) || !tells_in_turn(machine, Answer::Value(0x41)) {
            return false;
        }
    }
    machine.stack().len() == 20
}

/// Run with each growth refused in turn.
#[test]
fn refused_memory(rt: HostRuntime) -> Result<(), Fail> {
    let image = image_of(rt.alloc(), GROWING)?;
    let answered = on_machine_if_room(rt.alloc(), |machine| is_answered_in_turn(machine, &image));
    assert!(rt; answered.unwrap_or(true));
    Ok(())
}
