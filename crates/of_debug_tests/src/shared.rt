//! Debuggers and machines that are lent: a function that owns one has all that it holds in its proof, wherever it may
//! end.
use of_code::CodeStore;
use of_machine::Machine;

/// What is done with a value, which is let go then.
pub(crate) fn lend<V: Drop, T, F: FnOnce(&mut V) -> T>(mut value: V, act: F) -> T
    requires { F.IsAlwaysCallable act }
{
    act(&mut value)
}

/// A machine that has made so many steps, or come to a question before.
pub(crate) fn stepped<C: CodeStore>(mut machine: Machine<C>, count: u64) -> Machine<C> {
    for _ in 0..count {
        let _ = machine.step();
    }
    machine
}
