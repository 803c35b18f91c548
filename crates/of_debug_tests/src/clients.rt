//! Clients that are answered while a debugger makes steps.
use crate::shared::{lend, stepped};
use of_cells::Cell;
use of_client::{ClientCall, ClientReply};
use of_code::CodeStore;
use of_debug::Debugger;
use of_machine::loaded_machine;
use of_nodes::Phandle;
use std::alloc::Global;
use std::test::Fail;

/// How many steps a machine makes before a debugger gets it, how many the debugger makes then, how many are shown, and
/// what clients are answered who ask for the child of `/slot`, at 0, 1 and 3 steps.
const CASES: &str = "\
0 0 0
0 1 1 0 d000000c
0 2 2 0 d000000c
0 3 3 0 d000000c d000000c
0 9 5 0 d000000c d000000c
1 0 0
1 1 1 d000000c d000000c
1 3 3 d000000c d000000c d000000c
3 9 2 d000000c d000000c";

/// An image that makes a node `p` below `/slot` with its first token.
const NAMED_CHILD: [u8; 18] = [
    0xf1, 0x08, 0x00, 0xce, 0, 0, 0, 0x12, 0x01, 0x1f, 0x12, 0x01, 0x70, 0x02, 0x01, 0x01, 0x27, 0,
];

/// The question of a client for the child of `/slot`.
fn child() -> ClientCall {
    ClientCall::Child(Phandle(Cell(0xD000_0008)))
}

/// The numbers of replies, each behind a space.
fn numbers(alloc: Global, replies: &[ClientReply]) -> Result<String, Fail> {
    let mut text = String::new(alloc);
    for reply in replies {
        let number = reply.number.0;
        text.push_str(&format!(in alloc; " {number:x}")?)?;
    }
    Ok(text)
}

/// Makes so many steps, and gives how many are shown, and the replies.
fn shown<C: CodeStore>(
    alloc: Global,
    debugger: &mut Debugger<'_, C>,
    steps: u64,
) -> Result<String, Fail> {
    for _ in 0..steps {
        let _ = debugger.step_in();
    }
    let (made, machine) = debugger.shown();
    let replies = numbers(alloc, machine.replies())?;
    Ok(format!(in alloc; "{made}{replies}")?)
}

/// What is shown behind so many steps of the machine itself and so many of a debugger.
fn run(
    alloc: Global,
    before: u64,
    steps: u64,
    calls: &[(u64, ClientCall)],
) -> Result<String, Fail> {
    let machine = loaded_machine(alloc, &NAMED_CHILD, &[])?;
    let debugger = Debugger::new(stepped(machine, before), &[], &[], calls, 99);
    lend(debugger, |debugger| shown(alloc, debugger, steps))
}

#[test]
fn clients(rt: HostRuntime) -> Result<(), Fail> {
    let calls = [(0, child()), (1, child()), (3, child())];
    for case in CASES.lines() {
        let mut fields = case.splitn(3, ' ');
        let before: u64 = fields.next().unwrap_or("").parse()?;
        let steps: u64 = fields.next().unwrap_or("").parse()?;
        let wanted = fields.next().unwrap_or("");
        let found = run(rt.alloc(), before, steps, &calls)?;
        assert_eq!(rt; found.as_str(), wanted, "{case}");
    }
    Ok(())
}
