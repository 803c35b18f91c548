//! Marks at which a debugger stops, and machines that it hands back.
use crate::shared::lend;
use of_cells::Cell;
use of_code::CodeStore;
use of_debug::{DebugFault, Debugger};
use of_fcodes::FCode;
use of_machine::{loaded_machine, script_machine};
use std::process::Abort;
use std::test::Fail;

/// `: t begin dup while 1- dup 2 <> while repeat then ; 5 t .`
pub(crate) const LOOPS: [u8; 40] = [
    0xf1, 0x08, 0x09, 0x7e, 0, 0, 0, 0x28, 0xb5, 0x08, 0x00, 0xb7, 0xb1, 0x47, 0x14, 0x00, 0x0f,
    0xa6, 0x1f, 0x47, 0xa7, 0x3d, 0x14, 0x00, 0x06, 0x13, 0xff, 0xf3, 0xb2, 0xb2, 0xc2, 0x10, 0, 0,
    0, 0x05, 0x08, 0x00, 0x9d, 0x00,
];

/// Goes up to a mark, and past it once it is cleared.
fn go_on<C: CodeStore>(rt: &impl Abort, debugger: &mut Debugger<'_, C>) -> Result<(), Fail> {
    debugger.go(17)?;
    let t = debugger.shown().1.token(FCode(0x800)).unwrap_or(Cell(0));
    debugger.break_at(t, 7)?;
    debugger.go(99)?;
    assert_eq!(rt; debugger.shown().0, 24);
    assert_eq!(rt; debugger.clear(t, 10), Err(DebugFault::NoItem));
    debugger.clear(t, 7)?;
    step_out(rt, debugger)
}

/// Steps out of the definition.
fn step_out<C: CodeStore>(rt: &impl Abort, debugger: &mut Debugger<'_, C>) -> Result<(), Fail> {
    debugger.step_over()?;
    debugger.step_out()?;
    let (made, machine) = debugger.shown();
    assert_eq!(rt; made, 44);
    assert_eq!(rt; machine.stack(), [Cell(2)].as_slice());
    Ok(())
}

#[test]
fn marks(rt: HostRuntime) -> Result<(), Fail> {
    let machine = loaded_machine(rt.alloc(), &LOOPS, &[])?;
    let debugger = Debugger::new(machine, &[], &[], &[], 99);
    lend(debugger, |debugger| go_on(&rt, debugger))
}

/// On a machine on which nothing ran yet the line is handed in before the depth is taken: it is done word by word.
#[test]
fn idle_machines(rt: HostRuntime) -> Result<(), Fail> {
    let alloc = rt.alloc();
    let mut lines = Vec::new(alloc);
    lines.push(b"1 2".to_vec(alloc)?)?;
    let debugger = Debugger::new(script_machine(alloc)?, &lines, &[], &[], 99);
    let made = lend(debugger, |debugger| {
        let _ = debugger.step_over();
        debugger.shown().0
    });
    assert_eq!(rt; made, 1);
    Ok(())
}

/// The machine that is handed back is the one that made the steps.
#[test]
fn machines_come_back(rt: HostRuntime) -> Result<(), Fail> {
    let machine = loaded_machine(rt.alloc(), &LOOPS, &[])?;
    let mut debugger = Debugger::new(machine, &[], &[], &[], 99);
    let _ = debugger.go(17);
    let steps = lend(debugger.into_machine(), |machine| machine.steps());
    assert_eq!(rt; steps, 17);
    Ok(())
}
