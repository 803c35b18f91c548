//! Five events in every order, each of them a load, a load for a node that isn't there, a line, a step, one of two
//! answers, or a client's call.
use crate::events::{Pair, happen_to_both, new_pair};
use crate::shared::bytes_of;
use crate::tables::{Cases, check, push_wrong};
use std::alloc::Global;
use std::test::Fail;

/// The events. A load is of an image of two steps, `key` and its end, and a line has two as well, `get-msecs` and its
/// end. The first answer fits both questions, the second only the line's.
const EVENTS: [&str; 7] = ["load", "lost", "line", "step", "41", "1ff", "client"];

/// How many orders of four events there are.
const ORDERS: usize = 7 * 7 * 7 * 7;

/// The image.
const IMAGE: &str = "f1080000000000008e00";

/// What is known of a machine: whether something runs, and which question is open.
#[derive(Clone, Copy)]
enum Phase {
    Idle,
    Image,
    Line,
    Key,
    Time,
    Answered,
}

/// What an event comes to on an idle machine: what is said, with a `=` where nothing changes, and what is known then.
fn on_idle(event: &str) -> (&'static str, Phase) {
    match event {
        "load" => ("done", Phase::Image),
        "lost" => ("=no such node", Phase::Idle),
        "line" => ("done", Phase::Line),
        "step" => ("=none", Phase::Idle),
        "client" => ("done", Phase::Idle),
        _ => ("=not asked", Phase::Idle),
    }
}

/// The same where something runs.
fn on_running(phase: Phase, event: &str) -> (&'static str, Phase) {
    match event {
        "load" | "lost" | "line" => ("=busy", phase),
        "client" => ("done", phase),
        "step" => on_step(phase),
        _ => on_answer(phase, event),
    }
}

/// The same of a step.
fn on_step(phase: Phase) -> (&'static str, Phase) {
    match phase {
        Phase::Image => ("key", Phase::Key),
        Phase::Key => ("=key", Phase::Key),
        Phase::Line => ("get-msecs", Phase::Time),
        Phase::Time => ("=get-msecs", Phase::Time),
        Phase::Idle | Phase::Answered => ("step", Phase::Idle),
    }
}

/// The same of an answer.
fn on_answer(phase: Phase, event: &str) -> (&'static str, Phase) {
    match phase {
        Phase::Key if event == "1ff" => ("=wrong answer", phase),
        Phase::Key | Phase::Time => ("done", Phase::Answered),
        Phase::Idle | Phase::Image | Phase::Line | Phase::Answered => ("=not asked", phase),
    }
}

/// What an event comes to, and what is known then.
fn outcome(phase: Phase, event: &str) -> (&'static str, Phase) {
    match phase {
        Phase::Idle => on_idle(event),
        _ => on_running(phase, event),
    }
}

/// Machines over both stores of code, the image that they load, and what is known of them.
#[derive(Drop)]
struct Known {
    pair: Pair,
    image: Vec<u8>,
    phase: Phase,
}

/// Such machines on which nothing ran yet.
fn new_known(alloc: Global) -> Result<Known, Fail> {
    let image = bytes_of(alloc, IMAGE)?;
    let pair = new_pair(alloc)?;
    Ok(Known {
        pair,
        image,
        phase: Phase::Idle,
    })
}

/// Lets an event happen, and appends what is wrong with what it comes to.
fn play(
    alloc: Global,
    wrongs: &mut String,
    known: &mut Known,
    order: usize,
    event: &str,
) -> Result<(), Fail> {
    let (wanted, next) = outcome(known.phase, event);
    let given = happen_to_both(alloc, &mut known.pair, &known.image, event)?;
    known.phase = next;
    push_wrong(wrongs, order, given.as_str(), wanted)
}

/// Lets four events happen, by the number of their order.
fn play_order(
    alloc: Global,
    wrongs: &mut String,
    known: &mut Known,
    order: usize,
) -> Result<(), Fail> {
    let mut rest = order;
    for _ in 0..4 {
        play(alloc, wrongs, known, order, EVENTS[rest % 7])?;
        rest /= 7;
    }
    Ok(())
}

/// Lets an event happen to new machines, and four others behind it.
fn play_behind(alloc: Global, wrongs: &mut String, first: &str, order: usize) -> Result<(), Fail> {
    let mut known = new_known(alloc)?;
    play(alloc, wrongs, &mut known, order, first)?;
    play_order(alloc, wrongs, &mut known, order)
}

/// The first of five events.
const FIRST: &str = "\
load
lost
line
step
41
1ff
client
";

/// Orders of events.
struct OrderCases;

impl Cases for OrderCases {
    fn wrongs(alloc: Global, line: &str) -> Result<String, Fail> {
        let mut wrongs = String::new(alloc);
        for order in 0..ORDERS {
            play_behind(alloc, &mut wrongs, line, order)?;
        }
        Ok(wrongs)
    }
}

#[test]
fn events_in_every_order(rt: HostRuntime) -> Result<(), Fail> {
    check::<OrderCases, _>(&rt, rt.alloc(), FIRST)
}
