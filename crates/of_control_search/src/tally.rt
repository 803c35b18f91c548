//! What was found, counted.
use crate::body::bodies;
use crate::calls::{Answered, called, compiled};
use crate::code::coded;
use crate::element::{Element, LENGTH};
use crate::item::Items;
use crate::matching::{Partners, matchings, open_at};
use crate::running::runs_alike;
use crate::text::Text;
use of_cell_code::CellCode;
use of_code::ListCode;
use of_control::Control;
use std::alloc::{AllocError, Global};
use std::fmt;

/// How many lists were tried, how many have a matching, how many of these leave nothing open, the same where never
/// more than one is open, how many have one tight body, and for how many the calls answered otherwise.
#[derive(Clone, Copy, Default)]
pub struct Tally {
    lists: u64,
    matched: u64,
    closed: u64,
    matched_by_one: u64,
    closed_by_one: u64,
    bodies: u64,
    differing: u64,
}

impl fmt::Display for Tally {
    fn fmt<W: fmt::Write>(&self, f: &mut fmt::Formatter<W>) -> fmt::Result {
        write!(
            f,
            "{} lists: {} have a matching, {} a closed one; {} and {} with one open at most; {} with a body; {} differ",
            self.lists,
            self.matched,
            self.closed,
            self.matched_by_one,
            self.closed_by_one,
            self.bodies,
            self.differing
        )
    }
}

impl Tally {
    /// Tries a list, and answers whether it has a matching.
    pub fn take(&mut self, alloc: Global, list: &[Element]) -> Result<bool, AllocError> {
        let found = matchings(list);
        let matching = found.as_slice().first();
        let bounded = matching.filter(|partners| is_bounded(list, partners, 1));
        let is_closed = matching.is_some_and(|partners| leaves_nothing(list, partners));
        let mut wide: Control<32> = Control::new();
        let mut narrow: Control<1> = Control::new();
        let items = compiled(&mut wide, list);
        let (count_of_bodies, text) = if is_closed {
            bodies(&items)
        } else {
            (0, Text::default())
        };
        let has_body = count_of_bodies == 1;
        let (coding, is_coded) = coded(ListCode::new(alloc), list, &items, is_closed)?;
        let agrees = found.len() < 2
            && has_body == is_closed
            && is_coded
            && (!is_closed || runs_alike(coding.code(), &text, &items))
            && (!is_closed || is_same_in_bytes(alloc, list, &items, &text)?)
            && is_answered(list, matching, &called(&mut wide, list))
            && is_answered(list, bounded, &called(&mut narrow, list));
        count(&mut self.lists, true);
        count(&mut self.matched, matching.is_some());
        count(&mut self.closed, is_closed);
        count(&mut self.matched_by_one, bounded.is_some());
        count(&mut self.closed_by_one, is_closed && bounded.is_some());
        count(&mut self.bodies, has_body);
        count(&mut self.differing, !agrees);
        Ok(matching.is_some())
    }
}

/// Whether a closed list comes to the same code in a store of bytes.
fn is_same_in_bytes(
    alloc: Global,
    list: &[Element],
    items: &Items,
    text: &Text,
) -> Result<bool, AllocError> {
    let (coding, is_coded) = coded(CellCode::new(alloc)?, list, items, true)?;
    Ok(is_coded && runs_alike(coding.code(), text, items))
}

fn count(counter: &mut u64, is_one: bool) {
    if is_one {
        *counter = counter.saturating_add(1);
    }
}

/// Whether never more than `most` are open.
fn is_bounded(list: &[Element], partners: &Partners, most: usize) -> bool {
    (0..=list.len()).all(|at| open_at(list, partners, at).len() <= most)
}

/// Whether no opener is left open.
fn leaves_nothing(list: &[Element], partners: &Partners) -> bool {
    open_at(list, partners, list.len()).is_empty()
}

/// Whether the calls answered these partners, and were closed where nothing is left open. Without partners the last
/// call answers nothing, and nothing is closed.
fn is_answered(list: &[Element], matching: Option<&Partners>, called: &Answered) -> bool {
    let Some(partners) = matching else {
        return !called.is_closed
            && list
                .len()
                .checked_sub(1)
                .is_none_or(|last| called.answers.get(last) == Some(&None));
    };
    called.is_closed == leaves_nothing(list, partners)
        && list
            .iter()
            .zip(partners.iter())
            .zip(called.answers.iter())
            .all(|((element, partner), answer)| *answer == due(*element, *partner))
}

/// What a call answers: the partner of a closer, and nothing at a roll.
fn due(element: Element, partner: Option<usize>) -> Option<usize> {
    if element.is_closer() { partner } else { None }
}
