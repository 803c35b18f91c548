//! Runs with console lines of a file.
use crate::doubles::{no_listings, reader_of};
use crate::shared::{Outputs, answered, left_by, lines_in};
use crate::tables::{Rows, agree, check, halves, replaced};
use of_arguments::{Outside as Asked, Request};
use of_runs::{Answerer, Outside};
use std::alloc::Global;
use std::test::Fail;

/// Lines behind an image that does nothing, with `,` for a newline; the number of the status; and what is printed and
/// said, with `/` for a newline. The end is explained.
const RUNS: &str = "\
2 3 + .|0|5 |ofw: a.hex: done after 6 steps/ofw: a.hex: stack:/
: sq dup *,; 5 sq,|0||ofw: a.hex: done after 12 steps/ofw: a.hex: stack: 19/
,,1|0||ofw: a.hex: done after 5 steps/ofw: a.hex: stack: 1/
|0||ofw: a.hex: done after 1 steps/ofw: a.hex: stack:/
1 nonsense|0|fault -13: undefined word/|\
ofw: a.hex: in a text: fault -13: undefined word/ofw: a.hex: stack:/
: t begin again ; t|3||\
ofw: a.hex: limit reached after 99 steps; next: item 0 of `t`/ofw: a.hex: stack:/
key|4||ofw: a.hex: answers out after 1 steps; next: in a text/ofw: a.hex: stack:/";

/// Runs the image with these lines, and gives the number of the status.
fn code_with(alloc: Global, lines: &[Vec<u8>], outputs: &mut Outputs) -> u8 {
    let mut image = reader_of(b"f10800000000000900", 9999);
    let request = Request::Run {
        image: "a.hex",
        lines: Some("a.lines"),
        outside: Asked::Standard,
        limit: 99,
        listings: no_listings(),
        explain: true,
        pci: false,
        trace: None,
        strict: false,
    };
    let outside = Outside {
        lines,
        answerer: Answerer::Answers(&[]),
    };
    let Outputs { out, errors } = outputs;
    answered(alloc, request, outside, &mut image, out, errors)
}

/// Runs the image with the lines of a text, and gives the number of the status.
fn code_by(alloc: Global, text: &str, outputs: &mut Outputs) -> u8 {
    match lines_in(alloc, text, &mut outputs.errors) {
        Ok(list) => code_with(alloc, &list, outputs),
        Err(status) => status.code(),
    }
}

/// What a run of the image with the lines of a text leaves.
fn run(alloc: Global, text: &str) -> Result<String, Fail> {
    left_by(alloc, 9999, |outputs| code_by(alloc, text, outputs))
}

/// Runs with lines.
struct LineRows;

impl Rows for LineRows {
    fn given(alloc: Global, line: &str) -> Result<(String, String), Fail> {
        let (written, wanted) = halves(line, '|');
        let text = replaced(alloc, written, ",", "\n")?;
        let left = run(alloc, text.as_str())?;
        Ok((left, replaced(alloc, wanted, "/", "\n")?))
    }
}

#[test]
fn runs(rt: HostRuntime) -> Result<(), Fail> {
    check::<LineRows, _>(&rt, rt.alloc(), RUNS)
}

/// A line, and one of so many blanks behind it.
fn with_blanks(alloc: Global, count: u32) -> Result<String, Fail> {
    let mut text = String::from_str(alloc, "1\n")?;
    for _ in 0..count {
        text.push(' ')?;
    }
    Ok(text)
}

/// What a run with such lines leaves.
fn run_blanks(alloc: Global, count: u32) -> Result<String, Fail> {
    let text = with_blanks(alloc, count)?;
    run(alloc, text.as_str())
}

/// A line has at most 255 bytes: one that is longer is refused where its first byte too many stands.
#[test]
fn long_lines(rt: HostRuntime) -> Result<(), Fail> {
    let left = run_blanks(rt.alloc(), 255)?;
    let (code, _) = halves(left.as_str(), '|');
    agree(&rt, "255 blanks", code, "0");
    let left = run_blanks(rt.alloc(), 256)?;
    let wanted = "1||ofw: a.lines:2:256: line too long: a line has at most 255 bytes\n";
    agree(&rt, "256 blanks", left.as_str(), wanted);
    Ok(())
}
