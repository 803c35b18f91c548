//! Matchings by a plain search: each element with each opener before it, as far as the conditions hold.
use crate::element::{Element, LENGTH};
use arrayvec::ArrayVec;

/// The number of each element's partner.
pub type Partners = [Option<usize>; LENGTH];

/// More matchings than this are not kept.
pub const KEPT: usize = 8;

/// An open opener, by the number of its element; its age is where it was last appended or rolled.
#[derive(Clone, Copy)]
pub struct Open {
    pub number: usize,
    pub age: usize,
    pub element: Element,
}

impl Default for Open {
    fn default() -> Self {
        Open {
            number: 0,
            age: 0,
            element: Element::Do,
        }
    }
}

/// The openers that are open when element `at` comes.
pub fn open_at(list: &[Element], partners: &Partners, at: usize) -> ArrayVec<Open, LENGTH> {
    let mut open = ArrayVec::new();
    for (number, element) in list.iter().take(at).enumerate() {
        if !element.is_opener() || open.is_full() {
            continue;
        }
        let mut age = number;
        let mut is_closed = false;
        for (later, (other, partner)) in list.iter().zip(partners.iter()).take(at).enumerate() {
            if *partner == Some(number) {
                if other.is_closer() {
                    is_closed = true;
                } else {
                    age = later;
                }
            }
        }
        if !is_closed {
            open.push(Open {
                number,
                age,
                element: *element,
            });
        }
    }
    open
}

/// All matchings of a list, of which openers may be left open.
pub fn matchings(list: &[Element]) -> ArrayVec<Partners, KEPT> {
    let mut found = ArrayVec::new();
    found.push([None; LENGTH]);
    for (at, element) in list.iter().enumerate() {
        let mut longer = ArrayVec::new();
        for partners in found.as_slice() {
            let open = open_at(list, partners, at);
            extend(&mut longer, partners, at, *element, open.as_slice());
        }
        found = longer;
    }
    found
}

/// Adds the partners with one for element `at`, each that fits.
fn extend(
    longer: &mut ArrayVec<Partners, KEPT>,
    partners: &Partners,
    at: usize,
    element: Element,
    open: &[Open],
) {
    if !element.has_partner() {
        if may_stand(element, open) && !longer.is_full() {
            longer.push(*partners);
        }
        return;
    }
    for opener in open {
        if closes(element, opener, open) && !longer.is_full() {
            let mut next = *partners;
            if let Some(partner) = next.get_mut(at) {
                *partner = Some(opener.number);
            }
            longer.push(next);
        }
    }
}

/// Whether an element without a partner may stand here.
fn may_stand(element: Element, open: &[Open]) -> bool {
    match element {
        Element::Of => open
            .iter()
            .any(|x| x.element == Element::Case && is_latest(x, open)),
        Element::Leave => open.iter().any(|x| x.element == Element::Do),
        Element::Misfit => false,
        _ => true,
    }
}

/// Whether an element may have this opener as its partner.
fn closes(element: Element, x: &Open, open: &[Open]) -> bool {
    match element {
        Element::Resolve(position) => is_resolved(position, x, open),
        Element::Roll(later) => {
            is_reachable(x, open)
                && open
                    .iter()
                    .filter(|y| is_reachable(y, open) && y.age > x.age)
                    .count()
                    == later
        }
        Element::Back(target) => is_dest(target, x, open),
        Element::Loop => x.element == Element::Do && is_latest(x, open),
        Element::EndOf => x.element == Element::Of && is_latest(x, open),
        Element::EndCase => x.element == Element::Case && is_latest(x, open),
        _ => false,
    }
}

/// Whether no open opener is younger.
fn is_latest(x: &Open, open: &[Open]) -> bool {
    open.iter().all(|y| y.age <= x.age)
}

/// Whether this is a branch later than each open opener that is none.
fn is_reachable(x: &Open, open: &[Open]) -> bool {
    x.element.is_branch() && open.iter().all(|y| y.element.is_branch() || y.age < x.age)
}

/// How far the target of a branch lies past a position, 0 or 1.
fn ahead(x: &Open, position: usize) -> Option<usize> {
    match x.element {
        Element::Branch(Some(target)) if target >= position && target - position < 2 => Some(
            target - position,
        ),
        _ => None,
    }
}

/// Whether a resolve takes this branch: with a position that of least target there or one further, on a tie the
/// latest, and without one the latest.
fn is_resolved(position: Option<usize>, x: &Open, open: &[Open]) -> bool {
    let Some(position) = position else {
        return is_reachable(x, open)
            && open
                .iter()
                .all(|y| !is_reachable(y, open) || y.age <= x.age);
    };
    let Some(least) = ahead(x, position) else {
        return false;
    };
    is_reachable(x, open)
        && open.iter().all(|y| match ahead(y, position) {
            Some(other) if is_reachable(y, open) => least < other
                || (least == other && y.age <= x.age),
            _ => true,
        })
}

/// Whether a backward branch takes this mark: the latest that is open, with only branches after it, at its target or
/// one before.
fn is_dest(target: Option<usize>, x: &Open, open: &[Open]) -> bool {
    let Element::Mark(position) = x.element else {
        return false;
    };
    let stands_there = match (target, position) {
        (None, _) => true,
        (Some(target), Some(position)) => target >= position && target - position < 2,
        _ => false,
    };
    stands_there
        && open
            .iter()
            .all(|y| y.element.is_branch() || y.number <= x.number)
}
