//! The same happens to machines over either store of code: they come to the same.
use crate::fault::{Fault, View, agree};
use crate::given::{Given, random_answer};
use crate::lent::lend_both;
use crate::tally::{Ending, ending_of};
use crate::views::{compare_all, compare_held};
use of_asking::Answer;
use of_cells::Cell;
use of_client::ClientCall;
use of_code::{CodeStore, ListCode};
use of_machine::{Machine, Progress, ScriptMachine, script_machine};
use of_nodes::Phandle;
use of_random::Numbers;
use of_refusal::Refusal;
use std::alloc::{AllocError, Global};

/// How many events happen at most.
const EVENTS: usize = 60;

/// What happens to a machine.
#[derive(Clone, Copy)]
enum Event<'a> {
    /// An image is loaded.
    Load(&'a [u8]),
    /// A line is handed in.
    Line(&'a [u8]),
    /// A step is made.
    Step,
    /// So many steps are made at most.
    Run(u64),
    /// A question is answered.
    Answer(Answer),
    /// A client asks for a node's first child.
    Child(Phandle),
    /// A client asks for a node's path.
    Path(Phandle, u32),
}

/// What a call comes to.
#[derive(Clone, Copy, PartialEq, Eq)]
enum Outcome {
    /// It is done.
    Done,
    /// The step asks.
    Asks,
    /// No step can be made.
    Ended,
    /// It is refused.
    Refused(Refusal),
}

/// What a call that may be refused comes to.
fn outcome_of(answer: Result<(), Refusal>) -> Result<Outcome, Fault> {
    match answer {
        Ok(()) => Ok(Outcome::Done),
        Err(Refusal::NoMemory) => Err(Fault::NoMemory),
        Err(refusal) => Ok(Outcome::Refused(refusal)),
    }
}

/// Makes a step.
fn step<C: CodeStore>(machine: &mut Machine<C>) -> Result<Outcome, Fault> {
    Ok(match machine.step()? {
        Progress::Done => Outcome::Done,
        Progress::Asks(_) => Outcome::Asks,
        Progress::Ended => Outcome::Ended,
    })
}

/// Lets an event happen to a machine.
fn happen<C: CodeStore>(machine: &mut Machine<C>, event: Event<'_>) -> Result<Outcome, Fault> {
    match event {
        Event::Load(image) => outcome_of(machine.load(image, "/slot")),
        Event::Line(line) => outcome_of(machine.line(line)),
        Event::Answer(answer) => outcome_of(machine.answer(answer)),
        Event::Child(node) => outcome_of(machine.client(&ClientCall::Child(node))),
        Event::Path(node, room) => outcome_of(machine.client(&ClientCall::PackageToPath(
            node, room,
        ))),
        Event::Step => step(machine),
        Event::Run(limit) => {
            machine.run(limit)?;
            Ok(Outcome::Done)
        }
    }
}

/// An event that may come at any time, and is refused at most.
fn any_event<'a>(numbers: &mut Numbers, given: &'a Given) -> Event<'a> {
    let node = Phandle(Cell(0xd000_0000u32.wrapping_add((numbers.word() & 7).wrapping_mul(4))));
    match numbers.below(5) {
        0 => Event::Child(node),
        1 => Event::Path(node, numbers.word() & 15),
        2 => Event::Answer(random_answer(numbers)),
        3 => Event::Line(b"1 2 + ."),
        _ => Event::Load(&given.image),
    }
}

/// The next event of a machine that stands so, with so many lines handed in; none where it is done.
fn next_event<'a, C: CodeStore>(
    numbers: &mut Numbers,
    given: &'a Given,
    machine: &Machine<C>,
    lines: &mut usize,
) -> Option<Event<'a>> {
    if numbers.one_in(16) {
        return Some(any_event(numbers, given));
    }
    if machine.question().is_some() {
        return Some(Event::Answer(random_answer(numbers)));
    }
    if machine.is_running() {
        return Some(match numbers.below(3) {
            0 => Event::Step,
            _ => Event::Run(numbers.below(50) as u64),
        });
    }
    let line = given.lines.get(*lines)?;
    *lines = lines.saturating_add(1);
    Some(Event::Line(line))
}

/// Lets an event happen to both machines, and compares them behind it.
fn happen_to_both<A: CodeStore, B: CodeStore>(
    list: &mut Machine<A>,
    cells: &mut Machine<B>,
    event: Event<'_>,
) -> Result<Outcome, Fault> {
    let outcome = happen(list, event)?;
    agree(View::Answer, outcome == happen(cells, event)?)?;
    compare_all(list, cells)?;
    Ok(outcome)
}

/// Loads the image on both machines and lets events happen to them; answers how the run stands behind them.
fn go_through<A: CodeStore, B: CodeStore>(
    alloc: Global,
    given: &Given,
    numbers: &mut Numbers,
    list: &mut Machine<A>,
    cells: &mut Machine<B>,
) -> Result<Ending, Fault> {
    let loaded = happen_to_both(list, cells, Event::Load(&given.image))?;
    let mut lines = 0usize;
    for _ in 0..EVENTS {
        let Some(event) = next_event(numbers, given, list, &mut lines) else {
            break;
        };
        let _ = happen_to_both(list, cells, event)?;
        let _ = happen_to_both(list, cells, Event::Step)?;
    }
    compare_held(alloc, list, cells)?;
    Ok(match loaded {
        Outcome::Refused(_) => Ending::Refused,
        _ => ending_of(cells),
    })
}

/// A machine over a list of items, on which nothing ran yet.
fn over_list(alloc: Global) -> Result<Machine<ListCode>, AllocError> {
    Machine::new(alloc, ListCode::new(alloc))
}

/// The same, where both machines were made.
fn go_through_made(
    alloc: Global,
    given: &Given,
    numbers: &mut Numbers,
    list: &mut Result<Machine<ListCode>, AllocError>,
    cells: &mut Result<ScriptMachine, AllocError>,
) -> Result<Ending, Fault> {
    match (list, cells) {
        (Ok(list), Ok(cells)) => go_through(alloc, given, numbers, list, cells),
        _ => Err(Fault::NoMemory),
    }
}

/// Looks whether machines over both stores come to the same; answers how the run stands behind all events.
pub fn compare(alloc: Global, given: &Given, numbers: &mut Numbers) -> Result<Ending, Fault> {
    lend_both(over_list(alloc), script_machine(alloc), |list, cells| {
        go_through_made(alloc, given, numbers, list, cells)
    })
}
