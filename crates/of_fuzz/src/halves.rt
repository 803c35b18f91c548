//! A run that is made in two stretches comes to what is made in one go.
use crate::fault::{Fault, View, agree, refused};
use crate::given::{Given, Run};
use crate::lent::lend_both;
use crate::tally::{Ending, ending_of};
use crate::views::compare_all;
use of_machine::{End, begin_run};
use of_random::Numbers;
use of_refusal::Refusal;
use std::alloc::Global;

/// How many steps are made at most.
const MOST: usize = 500;

/// The run in two stretches, of which the first makes so many steps at most.
fn in_two(alloc: Global, given: &Given, first: u64, limit: u64) -> Run {
    let mut run = begin_run(alloc, &given.image, &given.lines, &given.answers, &[])?;
    let Ok(mut end) = run.go(first) else {
        return Err(Refusal::NoMemory);
    };
    if end == End::LimitReached && run.machine().steps() <= limit {
        let Ok(behind) = run.go(limit) else {
            return Err(Refusal::NoMemory);
        };
        end = behind;
    }
    Ok((run.into_machine(), end))
}

/// Looks whether two runs came to the same; answers how that ended.
fn compare_runs(one: &Run, other: &Run) -> Result<Ending, Fault> {
    match (one, other) {
        (Ok((parts, end)), Ok((whole, wanted))) => {
            agree(View::End, *end == *wanted)?;
            compare_all(parts, whole)?;
            Ok(ending_of(whole))
        }
        (Err(refusal), Err(wanted)) if *refusal == *wanted && *refusal != Refusal::NoMemory => {
            Ok(Ending::Refused)
        }
        (Err(refusal), Err(other)) => Err(refused(*refusal, Some(*other))),
        (Err(refusal), Ok(_)) | (Ok(_), Err(refusal)) => Err(refused(*refusal, None)),
    }
}

/// Looks whether a run divided anywhere comes to the same as one in whole; answers how that ended.
pub fn compare(alloc: Global, given: &Given, numbers: &mut Numbers) -> Result<Ending, Fault> {
    let limit = numbers.below(MOST) as u64;
    let first = numbers.below(MOST) as u64;
    let parts = in_two(alloc, given, first.min(limit), limit);
    lend_both(
        parts,
        given.run(alloc, limit),
        |parts, whole| compare_runs(parts, whole),
    )
}
