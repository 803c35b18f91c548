//! Which runs end by a throw that nothing caught.
use crate::doubles::without_lines;
use crate::tables::{Rows, check, halves, number};
use of_asking::Answer;
use of_commands::ends_by_throw;
use of_devices::{Board, standard_board};
use of_runs::{Answerer, Outside};
use std::alloc::Global;
use std::test::Fail;

/// Images in hexadecimal digits with a limit of steps, and behind `|` whether their runs end by a throw on the standard
/// board, and with no answers: one that divides by 0, within its limit, at it and behind it; one that prints 5, and the
/// same with no step; one that ends before its token does; one that leaves a definition open; one that asks, and the
/// same with a word behind that finds too little on the stack.
const RUNS: &str = "\
f108000000000000a6a52100 9|true true
f108000000000000a6a52100 3|true true
f108000000000000a6a52100 2|false false
f108020a0000000da7a81e9d00 9|false false
f108020a0000000da7a81e9d00 0|false false
f108000000000000a710 9|true true
f108000000000000b50800b700 9|true true
f10800000000000010800000000230460000 9|false false
f10800000000000010800000000230220000 99|true false
";

/// Whether the run of an image ends by a throw, where this answers.
fn throws(alloc: Global, image: &[u8], outside: Outside<'_>, limit: u64) -> &'static str {
    match ends_by_throw(alloc, image, outside, limit) {
        Ok(true) => "true",
        Ok(false) => "false",
        Err(_) => "no memory",
    }
}

/// The same on the standard board, and with no answers.
fn throws_twice(alloc: Global, image: &[u8], limit: u64) -> Result<String, Fail> {
    let board = Board {
        parts: standard_board(alloc)?,
    };
    let answers: &[Answer] = &[];
    let on_board = throws(alloc, image, without_lines(Answerer::Board(&board)), limit);
    let alone = throws(
        alloc,
        image,
        without_lines(Answerer::Answers(answers)),
        limit,
    );
    Ok(format!(in alloc; "{on_board} {alone}")?)
}

/// Whether runs end by a throw.
struct ThrowRows;

impl Rows for ThrowRows {
    fn given(alloc: Global, line: &str) -> Result<(String, String), Fail> {
        let (run, wanted) = halves(line, '|');
        let (digits, limit) = halves(run, ' ');
        let image = hex::decode(alloc, digits.as_bytes())?;
        let given = throws_twice(alloc, &image, u64::from(number(limit)?))?;
        Ok((given, String::from_str(alloc, wanted)?))
    }
}

#[test]
fn runs_that_end_by_a_throw(rt: HostRuntime) -> Result<(), Fail> {
    check::<ThrowRows, _>(&rt, rt.alloc(), RUNS)
}
