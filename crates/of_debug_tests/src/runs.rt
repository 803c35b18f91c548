//! What a debugger shows beside runs without one.
use crate::shared::lend;
use of_asking::Answer;
use of_cells::Cell;
use of_code::CodeStore;
use of_debug::{
    Debugger, calls_stop_first, debugged_runs_agree, due_is_left, shown_states_are_the_runs,
};
use of_machine::{Machine, loaded_machine, run_script};
use std::alloc::Global;
use std::process::Abort;
use std::test::Fail;

/// Images in hexadecimal digits, and console lines with `,` between: sums, a loop, a throw out of a definition, a node
/// with a name, two questions, of which the second has no answer, and definitions, a throw and `catch` on the console.
const CASES: &str = "\
f108020a0000000da7a81e9d00|
f108097e00000028b50800b7b14714000fa61f47a73d14000613fff3b2b2c2100000000508009d00|
f108097e00000028b50800b7b14714000fa61f47a73d14000613fff3b2b2c2100000000508009d00|1 .,2 throw,3 .
f10800ce00000012011f1201700201012700|show-devs
f108016300000011108000000002349d10800000040234009d00|4 5
f10800000000000900|: sq dup * ;,: t 3 0 do i sq . loop ;,t,5 throw,: u ['] sq catch . ;,u 7 u 1";

/// What a script does, a character for each command: one step, steps over, out, and nine at most.
const COMMANDS: &str = "ioigoioooigigooiuioggoogig";

/// How many steps are made at most.
const MOST: u64 = 99;

/// What is seen of a machine.
fn seen<C: CodeStore>(alloc: Global, machine: &Machine<C>) -> Result<String, Fail> {
    let (steps, depth) = (machine.steps(), machine.depth());
    let asked = machine.asked().len();
    let mut text = format!(in alloc; "{steps} {depth} {asked} [")?;
    for Cell(number) in machine.stack() {
        text.push_str(&format!(in alloc; " {number:x}")?)?;
    }
    text.push_str(" ] ")?;
    for byte in machine.console() {
        text.push(char::from(*byte))?;
    }
    Ok(text)
}

/// What a run is given.
#[derive(Drop)]
struct Case {
    image: Vec<u8>,
    lines: Vec<Vec<u8>>,
    answers: Vec<Answer>,
}

/// What the run of a case is given: every case has one answer.
fn case_of(alloc: Global, case: &str) -> Result<Case, Fail> {
    let mut fields = case.split('|');
    let image = hex::decode(alloc, fields.next().unwrap_or(""))?;
    let mut lines = Vec::new(alloc);
    for line in fields.next().unwrap_or("").split(',') {
        lines.push(line.as_bytes().to_vec(alloc)?)?;
    }
    let mut answers = Vec::new(alloc);
    answers.push(Answer::Value(0x2a))?;
    Ok(Case {
        image,
        lines,
        answers,
    })
}

/// What is seen of a run after so many steps at most.
fn run(alloc: Global, given: &Case, limit: u64) -> Result<String, Fail> {
    let (image, lines, answers) = (&given.image, &given.lines, &given.answers);
    let (machine, _) = run_script(alloc, image, lines, answers, &[], limit)?;
    lend(machine, |machine| seen(alloc, machine))
}

/// Whether what a debugger shows is the run after as many steps, with its question open where one is.
fn agrees<C: CodeStore>(
    rt: &impl Abort,
    alloc: Global,
    given: &Case,
    debugger: &Debugger<'_, C>,
) -> Result<(), Fail> {
    let (made, machine) = debugger.shown();
    let limit = match machine.question() {
        Some(_) => made.saturating_add(1),
        None => made,
    };
    let wanted = run(alloc, given, limit)?;
    assert_eq!(rt; seen(alloc, machine)?.as_str(), wanted.as_str());
    Ok(())
}

/// Makes steps one by one, as long as one can be made, and compares each state, the last with that of a run that goes
/// on as long.
fn step_all<C: CodeStore>(
    rt: &impl Abort,
    alloc: Global,
    given: &Case,
    debugger: &mut Debugger<'_, C>,
) -> Result<(), Fail> {
    for _ in 0..MOST {
        if debugger.step_in().is_err() {
            break;
        }
        agrees(rt, alloc, given, debugger)?;
    }
    let last = seen(alloc, debugger.shown().1)?;
    assert_eq!(rt; last.as_str(), run(alloc, given, MOST)?.as_str());
    Ok(())
}

/// Makes steps by other commands, too, and compares each state.
fn command_all<C: CodeStore>(
    rt: &impl Abort,
    alloc: Global,
    given: &Case,
    debugger: &mut Debugger<'_, C>,
) -> Result<(), Fail> {
    for command in COMMANDS.chars() {
        let _ = match command {
            'i' => debugger.step_in(),
            'o' => debugger.step_over(),
            'u' => debugger.step_out(),
            _ => debugger.go(9),
        };
        agrees(rt, alloc, given, debugger)?;
    }
    Ok(())
}

#[test]
fn single_steps(rt: HostRuntime) -> Result<(), Fail> {
    let alloc = rt.alloc();
    for line in CASES.lines() {
        let case = case_of(alloc, line)?;
        let machine = loaded_machine(alloc, &case.image, &case.lines)?;
        let debugger = Debugger::new(machine, &case.lines, &case.answers, &[], MOST);
        lend(debugger, |debugger| step_all(&rt, alloc, &case, debugger))?;
    }
    Ok(())
}

#[test]
fn commands(rt: HostRuntime) -> Result<(), Fail> {
    let alloc = rt.alloc();
    for line in CASES.lines() {
        let case = case_of(alloc, line)?;
        let machine = loaded_machine(alloc, &case.image, &case.lines)?;
        let debugger = Debugger::new(machine, &case.lines, &case.answers, &[], MOST);
        lend(
            debugger,
            |debugger| command_all(&rt, alloc, &case, debugger),
        )?;
    }
    Ok(())
}

/// What a debugger shows that goes as far as it can.
fn last<C: CodeStore>(alloc: Global, debugger: &mut Debugger<'_, C>) -> Result<String, Fail> {
    let _ = debugger.go(MOST);
    let _ = debugger.step_over();
    seen(alloc, debugger.shown().1)
}

/// A loop within each limit up to two steps more than it makes: what is shown then is the run that reaches that limit.
#[test]
fn limits(rt: HostRuntime) -> Result<(), Fail> {
    let alloc = rt.alloc();
    let case = case_of(alloc, CASES.lines().nth(1).unwrap_or(""))?;
    for limit in 0..49 {
        let machine = loaded_machine(alloc, &case.image, &case.lines)?;
        let debugger = Debugger::new(machine, &case.lines, &case.answers, &[], limit);
        let shown = lend(debugger, |debugger| last(alloc, debugger))?;
        assert_eq!(rt; shown.as_str(), run(alloc, &case, limit)?.as_str());
    }
    Ok(())
}

#[test]
fn laws_hold() {
    shown_states_are_the_runs();
    debugged_runs_agree();
    calls_stop_first();
    due_is_left();
}
