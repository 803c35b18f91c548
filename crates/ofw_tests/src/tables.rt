//! How the tests go through the lines of their tables. The functions here have no contracts, so the proof of a test
//! carries nothing of what they do.
use std::alloc::Global;
use std::process::Abort;
use std::test::Fail;

/// What the lines of a table are about.
pub(crate) trait Rows {
    /// What a line gives, and what it says that it gives.
    fn given(alloc: Global, line: &str) -> Result<(String, String), Fail>;
}

/// Sees that a case gives what it should.
pub(crate) fn agree<R: Abort>(rt: &R, case: &str, given: &str, wanted: &str) {
    assert_eq!(rt; given, wanted, "{case}");
}

/// Sees that a line gives what it says.
pub(crate) fn check_line<T: Rows, R: Abort>(rt: &R, alloc: Global, line: &str) -> Result<(), Fail> {
    let (given, wanted) = T::given(alloc, line)?;
    agree(rt, line, given.as_str(), wanted.as_str());
    Ok(())
}

/// Sees that each line of a table gives what it says.
pub(crate) fn check<T: Rows, R: Abort>(rt: &R, alloc: Global, table: &str) -> Result<(), Fail> {
    for line in table.lines() {
        check_line::<T, R>(rt, alloc, line)?;
    }
    Ok(())
}

/// What stands before the first such mark of a line, and what stands behind it.
pub(crate) fn halves(line: &str, mark: char) -> (&str, &str) {
    line.split_once(mark).unwrap_or((line, ""))
}

/// A number in decimal digits.
pub(crate) fn number(digits: &str) -> Result<u32, Fail> {
    Ok(digits.parse()?)
}

/// A text with one thing in the place of another.
pub(crate) fn replaced(alloc: Global, text: &str, from: &str, to: &str) -> Result<String, Fail> {
    Ok(text.replace(alloc, from, to)?)
}
