//! How the tests go through the lines of their tables. The functions here have no contracts, so the proof of a test
//! carries nothing of what they do.
use std::alloc::Global;
use std::process::Abort;
use std::test::Fail;

/// What the lines of a table are about.
pub(crate) trait Cases {
    /// What is wrong with the cases of a line: nothing, where each gives what it should.
    fn wrongs(alloc: Global, line: &str) -> Result<String, Fail>;
}

/// Sees that nothing is wrong with the cases of a line.
fn check_line<T: Cases, R: Abort>(rt: &R, alloc: Global, line: &str) -> Result<(), Fail> {
    let wrongs = T::wrongs(alloc, line)?;
    assert!(rt; wrongs.is_empty(), "{line}: {wrongs}");
    Ok(())
}

/// Sees that nothing is wrong with the cases of each line of a table.
pub(crate) fn check<T: Cases, R: Abort>(rt: &R, alloc: Global, table: &str) -> Result<(), Fail> {
    for line in table.lines() {
        check_line::<T, R>(rt, alloc, line)?;
    }
    Ok(())
}

/// What stands before the first `|` of a line, and what stands behind it.
pub(crate) fn halves(line: &str) -> (&str, &str) {
    line.split_once('|').unwrap_or((line, ""))
}

/// Appends a case by its number, what it gives and what it should give, where these differ.
pub(crate) fn push_wrong(
    wrongs: &mut String,
    case: usize,
    given: &str,
    wanted: &str,
) -> Result<(), Fail> {
    if given != wanted {
        write!(wrongs, "[{case}] {given} for {wanted} ")?;
    }
    Ok(())
}
