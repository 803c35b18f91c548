//! How the tests go through the lines of their tables. The functions here have no contracts, so the proof of a test
//! carries nothing of what they do.
use std::alloc::Global;
use std::process::Abort;
use std::test::Fail;

/// What the lines of a table are about.
pub(crate) trait Rows {
    /// What is there before the first line.
    fn new(alloc: Global) -> Result<Self, Fail>;

    /// The call of a line, and what the line says that it gives.
    fn halves(line: &str) -> (&str, &str);

    /// What a call gives, behind the calls before it.
    fn given(&mut self, alloc: Global, call: &str) -> Result<String, Fail>;
}

/// Sees that the call of a line gives what the line says.
fn check_line<T: Rows, R: Abort>(
    rt: &R,
    alloc: Global,
    rows: &mut T,
    line: &str,
) -> Result<(), Fail> {
    let (call, wanted) = T::halves(line);
    let given = rows.given(alloc, call)?;
    assert!(rt; given.as_str().trim() == wanted.trim(), "{line}: {given}");
    Ok(())
}

/// The same of the lines of a table, one after another.
fn check_on<T: Rows, R: Abort>(
    rt: &R,
    alloc: Global,
    rows: &mut T,
    table: &str,
) -> Result<(), Fail> {
    for line in table.lines() {
        check_line(rt, alloc, rows, line)?;
    }
    Ok(())
}

fn check_new<T: Rows + Drop, R: Abort>(rt: &R, alloc: Global, table: &str) -> Result<(), Fail> {
    let mut rows = T::new(alloc)?;
    check_on(rt, alloc, &mut rows, table)
}

/// The same of the lines of several tables, each of which begins anew.
pub(crate) fn check<T: Rows + Drop, R: Abort>(
    rt: &R,
    alloc: Global,
    tables: &[&str],
) -> Result<(), Fail> {
    for table in tables {
        check_new::<T, R>(rt, alloc, table)?;
    }
    Ok(())
}
