//! The text of a body: its parts and items in order.
use crate::body::{Kind, LONGEST, Step};
use crate::item::{Action, Items};

/// A step of the text, with the part that it begins, and whether it ends one.
#[derive(Clone, Copy)]
struct Place {
    step: Step,
    begins: Option<Kind>,
    ends: bool,
}

/// The steps of a body.
#[derive(Clone, Copy)]
pub struct Text {
    places: [Place; LONGEST],
    length: usize,
}

impl Default for Text {
    fn default() -> Self {
        let place = Place {
            step: Step::End,
            begins: None,
            ends: false,
        };
        Text {
            places: [place; LONGEST],
            length: 0,
        }
    }
}

impl Text {
    /// Appends a step, where so many items are taken before.
    pub fn push(&mut self, items: &Items, taken: usize, step: Step) {
        let action = match step {
            Step::Take(_) => items.get(taken).map(|item| item.action),
            _ => None,
        };
        let begins = match (step, action) {
            (Step::Begin(kind), _) => Some(kind),
            (_, Some(Action::EnterLoop)) => Some(Kind::Counted),
            (_, Some(Action::TestArm)) => Some(Kind::Arm),
            _ => None,
        };
        let ends = match step {
            Step::End => true,
            _ => matches!(
                action,
                Some(Action::RepeatLoop | Action::EndArm | Action::DropSelector)
            ),
        };
        if let Some(place) = self.places.get_mut(self.length) {
            *place = Place { step, begins, ends };
            self.length = self.length.saturating_add(1);
        }
    }

    /// The step at a place.
    fn get(&self, at: usize) -> Option<Place> {
        if at < self.length {
            self.places.get(at).copied()
        } else {
            None
        }
    }

    /// The first item at a place or behind it; past the last one the text's end.
    pub fn next_item(&self, at: usize) -> usize {
        for (number, place) in self.places.iter().enumerate().take(self.length).skip(at) {
            if matches!(place.step, Step::Take(_)) {
                return number;
            }
        }
        self.length
    }

    /// The number of the item at a place, if one stands there.
    pub fn number(&self, at: usize) -> Option<usize> {
        if !matches!(self.get(at)?.step, Step::Take(_)) {
            return None;
        }
        let mut number: usize = 0;
        for place in self.places.iter().take(at) {
            if matches!(place.step, Step::Take(_)) {
                number = number.saturating_add(1);
            }
        }
        Some(number)
    }

    /// Behind the part that begins at a place.
    pub fn behind(&self, begin: usize) -> usize {
        let mut depth: usize = 0;
        for (number, place) in self.places.iter().enumerate().take(self.length).skip(begin) {
            if place.begins.is_some() {
                depth = depth.saturating_add(1);
            }
            if place.ends {
                depth = depth.saturating_sub(1);
                if depth == 0 {
                    return number.saturating_add(1);
                }
            }
        }
        self.length
    }

    /// Where the innermost part begins in which a place stands, or that ends there.
    pub fn begin_of(&self, at: usize) -> Option<usize> {
        let mut depth: usize = 0;
        for (number, place) in self.places.iter().enumerate().take(at).rev() {
            if place.ends {
                depth = depth.saturating_add(1);
            }
            if place.begins.is_some() {
                if depth == 0 {
                    return Some(number);
                }
                depth = depth.saturating_sub(1);
            }
        }
        None
    }

    /// Behind the innermost part of this kind in which a place stands.
    pub fn past(&self, at: usize, kind: Kind) -> usize {
        let mut begin = self.begin_of(at);
        for _ in 0..LONGEST {
            match begin {
                Some(place) if self.kind(place) == Some(kind) => return self.behind(place),
                Some(place) => begin = self.begin_of(place),
                None => return self.length,
            }
        }
        self.length
    }

    /// The part that begins at a place.
    fn kind(&self, at: usize) -> Option<Kind> {
        self.get(at)?.begins
    }

    /// Where the jump at a place goes: behind the block that it names, or to the beginning of the cycle.
    pub fn jumped(&self, at: usize) -> usize {
        let Some(
            Place {
                step: Step::Take(outer),
                ..
            },
        ) = self.get(at)
        else {
            return self.length;
        };
        let mut inner: usize = 0;
        let mut begin = self.begin_of(at);
        for _ in 0..LONGEST {
            let Some(place) = begin else {
                return self.length;
            };
            if let Some(kind) = self.kind(place) {
                if inner == outer && kind == Kind::Block {
                    return self.behind(place);
                }
                if inner == outer && kind == Kind::Cycle {
                    return place.saturating_add(1);
                }
            }
            inner = inner.saturating_add(1);
            begin = self.begin_of(place);
        }
        self.length
    }
}
