//! Questions that are open when a debugger gets its machine.
use crate::shared::{lend, stepped};
use of_asking::Answer;
use of_code::CodeStore;
use of_debug::{DebugFault, Debugger};
use of_machine::loaded_machine;
use std::alloc::Global;
use std::process::Abort;
use std::test::Fail;

/// An image that reads a cell of a device, and prints it.
const BUS_READ: [u8; 17] = [
    0xf1, 0x08, 0x01, 0x63, 0, 0, 0, 0x11, 0x10, 0x80, 0, 0, 0, 0x02, 0x34, 0x9d, 0,
];

/// Makes a step, if the open question has an answer; no other is asked.
fn step_in<C: CodeStore>(
    rt: &impl Abort,
    debugger: &mut Debugger<'_, C>,
    answered: u64,
) -> Result<(), Fail> {
    assert_eq!(rt; debugger.shown().1.asked().len(), 1);
    let stepped = match answered {
        0 => Err(DebugFault::Idle),
        _ => Ok(()),
    };
    assert_eq!(rt; debugger.step_in(), stepped);
    let (made, machine) = debugger.shown();
    assert_eq!(rt; made, answered);
    assert_eq!(rt; machine.steps(), answered.saturating_add(1));
    assert_eq!(rt; machine.asked().len(), 1);
    Ok(())
}

/// Goes on from the open question with these answers.
fn go_on(rt: &impl Abort, alloc: Global, answers: &[Answer]) -> Result<(), Fail> {
    let machine = loaded_machine(alloc, &BUS_READ, &[])?;
    let debugger = Debugger::new(stepped(machine, 2), &[], answers, &[], 99);
    lend(debugger, |debugger| {
        step_in(rt, debugger, answers.len() as u64)
    })
}

#[test]
fn open_questions(rt: HostRuntime) -> Result<(), Fail> {
    go_on(&rt, rt.alloc(), &[])?;
    go_on(&rt, rt.alloc(), &[Answer::Value(7)])
}
