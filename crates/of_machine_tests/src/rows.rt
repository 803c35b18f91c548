//! How the tests go through the lines of their tables. The functions here have no contracts, so the proof of a test
//! carries nothing of what they do.
use crate::shared::{lend, new_machine};
use of_machine::ScriptMachine;
use std::alloc::Global;
use std::process::Abort;
use std::test::Fail;

/// A line's call, and behind the first `|` what the line says that it gives.
pub(crate) fn halves(line: &str) -> (&str, &str) {
    line.split_once('|').unwrap_or(("", "none"))
}

/// What the lines of a table are about.
pub(crate) trait Rows {
    /// What a line gives, and what it says that it gives.
    fn given<'a>(alloc: Global, line: &'a str) -> Result<(String, &'a str), Fail>;
}

/// The same where its call is made on a machine.
pub(crate) trait MachineRows {
    fn given(alloc: Global, machine: &mut ScriptMachine, call: &str) -> Result<String, Fail>;
}

/// Sees that a line gives what it says.
fn check_line<T: Rows, R: Abort>(rt: &R, alloc: Global, line: &str) -> Result<(), Fail> {
    let (given, wanted) = T::given(alloc, line)?;
    assert!(rt; given.as_str() == wanted, "{line} : {given}");
    Ok(())
}

/// Sees that each line of a table gives what it says.
pub(crate) fn check<T: Rows, R: Abort>(rt: &R, alloc: Global, table: &str) -> Result<(), Fail> {
    for line in table.lines() {
        check_line::<T, R>(rt, alloc, line)?;
    }
    Ok(())
}

/// Sees that the call of a line gives on a machine what the line says.
fn check_line_on<T: MachineRows, R: Abort>(
    rt: &R,
    alloc: Global,
    machine: &mut ScriptMachine,
    line: &str,
) -> Result<(), Fail> {
    let (call, wanted) = halves(line);
    let given = T::given(alloc, machine, call)?;
    assert!(rt; given.as_str() == wanted, "{line} : {given}");
    Ok(())
}

fn check_on_new<T: MachineRows, R: Abort>(rt: &R, alloc: Global, line: &str) -> Result<(), Fail> {
    lend(
        new_machine(alloc)?,
        |machine| check_line_on::<T, R>(rt, alloc, machine, line),
    )
}

/// The same of each line of a table, on a machine for each.
pub(crate) fn check_on_machines<T: MachineRows, R: Abort>(
    rt: &R,
    alloc: Global,
    table: &str,
) -> Result<(), Fail> {
    for line in table.lines() {
        check_on_new::<T, R>(rt, alloc, line)?;
    }
    Ok(())
}

fn check_lines_on<T: MachineRows, R: Abort>(
    rt: &R,
    alloc: Global,
    machine: &mut ScriptMachine,
    table: &str,
) -> Result<(), Fail> {
    for line in table.lines() {
        check_line_on::<T, R>(rt, alloc, machine, line)?;
    }
    Ok(())
}

/// The same of each line of a table, one after another on one machine.
pub(crate) fn check_on_one<T: MachineRows, R: Abort>(
    rt: &R,
    alloc: Global,
    table: &str,
) -> Result<(), Fail> {
    lend(
        new_machine(alloc)?,
        |machine| check_lines_on::<T, R>(rt, alloc, machine, table),
    )
}
