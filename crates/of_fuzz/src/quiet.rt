//! Calls that take no memory, of a machine and a debugger, between two lines of the output: so a script can refuse all
//! memory while they are made.
use crate::lent::lend;
use crate::program::image_of;
use of_asking::Answer;
use of_code::CodeStore;
use of_debug::Debugger;
use of_fcodes::FCode;
use of_machine::{Machine, ScriptMachine, loaded_machine};

/// A source whose words behind `key` print nothing, make nothing and open nothing: they work on the stacks and on
/// variables, catch, store into values, give a block back, remove a property, and move a number from one FCode to
/// another.
const SOURCE: &[u8] = b"fcode-version2
: twice dup + ;
: loops 0 5 0 do i twice + loop drop ;
: thrower 7 throw ;
: catches ['] thrower catch drop ;
variable v
8 buffer: b
5 value x
10 alloc-mem constant m
\" 1\" \" p\" property
key drop
1 2 3 rot + swap - abs drop
7 v ! v @ drop b 8 ff fill b dup 4 + 4 move
9 to x x drop loops catches
m 10 free-mem
\" p\" delete-property
800 get-token 801 set-token
5 loops drop
fcode-end
";

/// The machine on which the image of the source has come to its question.
fn asking(mut machine: ScriptMachine) -> ScriptMachine {
    let _ = machine.run(9_999);
    let _ = machine.step();
    machine
}

/// Answers the question, and makes some steps.
fn answered(mut machine: ScriptMachine) -> ScriptMachine {
    let _ = machine.answer(Answer::Value(65));
    let _ = machine.run(20);
    machine
}

/// Goes on with a debugger: to a mark, over a word, out of it, and to the end.
fn go_on<C: CodeStore>(debugger: &mut Debugger<'_, C>) {
    let Some(loops) = debugger.shown().1.token(FCode(0x801)) else {
        return;
    };
    let _ = debugger.break_at(loops, 2);
    let _ = debugger.go(9_999);
    let _ = debugger.step_over();
    let _ = debugger.clear(loops, 2);
    let _ = debugger.step_out();
    let _ = debugger.go(9_999);
}

/// The machine at the end of the run, which a debugger made.
fn ended(machine: ScriptMachine) -> ScriptMachine {
    let mut debugger = Debugger::new(machine, &[], &[], &[], 99_999);
    go_on(&mut debugger);
    debugger.into_machine()
}

/// What is seen of a machine, each by a call that takes no memory: its steps, the depths of its stacks, how many bytes
/// it has printed, and whether something runs.
fn seen<C: CodeStore>(machine: &Machine<C>) -> [u64; 5] {
    [
        machine.steps(),
        machine.stack().len() as u64,
        machine.depth() as u64,
        machine.console().len() as u64,
        u64::from(machine.is_running()),
    ]
}

/// Makes the calls, and prints a line before and one behind them, which says what the machine shows. None where memory
/// or the output fails.
pub fn make(rt: &HostRuntime) -> Option<()> {
    let image = image_of(rt.alloc(), SOURCE).ok()??;
    let machine = asking(loaded_machine(rt.alloc(), &image, &[]).ok()?);
    println!(rt; "quiet").ok()?;
    let machine = ended(answered(machine));
    let [steps, stack, depth, bytes, runs] = lend(machine, |machine| seen(machine));
    println!(rt; "done {steps} {stack} {depth} {bytes} {runs}").ok()
}
