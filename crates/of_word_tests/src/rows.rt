//! How the tests go through the lines of a table, and read their words. The functions here have no contracts, so the
//! proof of a test carries nothing of what they do.
use std::alloc::Global;
use std::process::Abort;

/// What the lines of a table are about.
pub(crate) trait Rows {
    /// Makes the calls of a line, and answers whether they give what it says; none where it can't be read, or where no
    /// memory is found.
    fn holds(&mut self, alloc: Global, line: &str) -> Option<bool>;
}

/// Sees that each line of a table holds, one after another.
pub(crate) fn check<T: Rows>(rt: &impl Abort, alloc: Global, rows: &mut T, table: &str) {
    for line in table.lines() {
        assert!(rt; rows.holds(alloc, line) == Some(true), "{line}");
    }
}

/// The same of cases of several lines, with an empty one between two.
pub(crate) fn check_cases<T: Rows>(rt: &impl Abort, alloc: Global, rows: &mut T, table: &str) {
    for case in table.split("\n\n") {
        assert!(rt; rows.holds(alloc, case) == Some(true), "{case}");
    }
}

/// The word at a place of a line, or an empty one.
pub(crate) fn word(line: &str, place: usize) -> &str {
    line.split_whitespace().nth(place).unwrap_or("")
}

/// What stands between two bars at a place of a line.
pub(crate) fn field(line: &str, place: usize) -> &str {
    line.split('|').nth(place).unwrap_or("")
}

/// A number in hexadecimal digits.
pub(crate) fn hexadecimal(word: &str) -> Option<u32> {
    u32::from_str_radix(word, 16).ok()
}

/// A number in decimal digits.
pub(crate) fn decimal(word: &str) -> Option<i64> {
    word.parse::<i64>().ok()
}

/// A number in decimal digits that isn't negative.
pub(crate) fn natural(word: &str) -> Option<u32> {
    u32::try_from(decimal(word)?).ok()
}
