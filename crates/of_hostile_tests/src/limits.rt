//! Runs with every limit of steps.
use crate::shared::{bytes_of, push_bytes};
use crate::stores::{halves_over_cells, halves_over_list};
use crate::tables::{Cases, check, halves, push_wrong};
use of_devices::Rack;
use of_machine::{End, ScriptMachine, run_rack, run_script};
use std::alloc::Global;
use std::test::Fail;

/// Images; and behind `|` the step that prints, what it prints, and how many steps the whole run makes.
const RUNS: &str = "\
f108097e00000028b50800b7b14714000fa61f47a73d14000613fff3b2b2c2100000000508009d00|45|2 |46
";

/// The limits that are tried lie below this.
const LIMITS: u64 = 49;

/// A line of the table.
#[derive(Drop)]
struct Row<'a> {
    image: Vec<u8>,
    prints_at: u64,
    printed: &'a str,
    steps: u64,
}

/// The row of a line.
fn row_of<'a>(alloc: Global, line: &'a str) -> Result<Row<'a>, Fail> {
    let (digits, rest) = halves(line);
    let (prints_at, rest) = halves(rest);
    let (printed, steps) = halves(rest);
    Ok(Row {
        image: bytes_of(alloc, digits)?,
        prints_at: prints_at.parse()?,
        printed,
        steps: steps.parse()?,
    })
}

/// What a run should leave that makes so many steps at most.
fn wanted(alloc: Global, row: &Row<'_>, limit: u64) -> Result<String, Fail> {
    let end = if limit < row.steps { "limit" } else { "done" };
    let mut text = format!(in alloc; "{} {end} ", limit.min(row.steps))?;
    if row.prints_at <= limit {
        text.push_str(row.printed)?;
    }
    Ok(text)
}

/// The steps that a run made, its end and its console.
fn left(alloc: Global, machine: &ScriptMachine, end: End) -> Result<String, Fail> {
    let end = match end {
        End::Done => "done",
        End::LimitReached => "limit",
        End::AnswersOut => "out",
    };
    let mut text = format!(in alloc; "{} {end} ", machine.steps())?;
    push_bytes(&mut text, machine.console())?;
    Ok(text)
}

/// What a script's run leaves.
fn left_by_script(alloc: Global, image: &[u8], limit: u64) -> Result<String, Fail> {
    let (machine, end) = run_script(alloc, image, &[], &[], &[], limit)?;
    left(alloc, &machine, end)
}

/// What a run leaves that devices could answer.
fn left_by_rack(alloc: Global, image: &[u8], limit: u64) -> Result<String, Fail> {
    let mut rack: Rack = Vec::new(alloc);
    let (machine, end) = run_rack(alloc, image, &[], &mut rack, &[], limit)?;
    left(alloc, &machine, end)
}

/// Appends what is wrong with the runs that make so many steps at most.
fn push_limit(alloc: Global, wrongs: &mut String, row: &Row<'_>, limit: u64) -> Result<(), Fail> {
    let case = limit as usize;
    let wanted = wanted(alloc, row, limit)?;
    let given = left_by_script(alloc, &row.image, limit)?;
    push_wrong(wrongs, case, given.as_str(), wanted.as_str())?;
    let given = left_by_rack(alloc, &row.image, limit)?;
    push_wrong(wrongs, case, given.as_str(), wanted.as_str())
}

/// Appends what is wrong with runs in two halves, which should leave what a run in one leaves.
fn push_halves(alloc: Global, wrongs: &mut String, row: &Row<'_>, limit: u64) -> Result<(), Fail> {
    let case = limit as usize;
    let (parts, whole) = halves_over_list(alloc, &row.image, limit)?;
    push_wrong(wrongs, case, parts.as_str(), whole.as_str())?;
    let (parts, whole) = halves_over_cells(alloc, &row.image, limit)?;
    push_wrong(wrongs, case, parts.as_str(), whole.as_str())
}

/// Limits of runs.
struct LimitCases;

impl Cases for LimitCases {
    fn wrongs(alloc: Global, line: &str) -> Result<String, Fail> {
        let row = row_of(alloc, line)?;
        let mut wrongs = String::new(alloc);
        for limit in 0..LIMITS {
            push_limit(alloc, &mut wrongs, &row, limit)?;
            push_halves(alloc, &mut wrongs, &row, limit)?;
        }
        Ok(wrongs)
    }
}

#[test]
fn runs_stop_at_limits(rt: HostRuntime) -> Result<(), Fail> {
    check::<LimitCases, _>(&rt, rt.alloc(), RUNS)
}
