//! Small definitions run by the structure of their body and by their code cells, side by side.
use crate::body::Kind;
use crate::code::place;
use crate::item::{Action, Items};
use crate::text::Text;
use of_code::{CodeStore, Item, Place};

/// So many steps of each run are compared.
const STEPS: u32 = 6;

/// Whether both go on alike, whatever is decided at each step.
pub fn runs_alike<C: CodeStore>(code: &C, text: &Text, items: &Items) -> bool {
    (0..1 << STEPS).all(|decisions| run(code, text, items, decisions))
}

/// One run: a bit of `decisions` for each step says whether a test is met there.
fn run<C: CodeStore>(code: &C, text: &Text, items: &Items, decisions: u32) -> bool {
    let mut at = text.next_item(0);
    let mut cell = Place { cell: 0 };
    for step in 0..STEPS {
        let Some(number) = text.number(at) else {
            return code.item_at(cell) == Some(Item::Return);
        };
        let Some(item) = items.get(number) else {
            return false;
        };
        if cell != place(items, number) {
            return false;
        }
        let is_met = (decisions >> step) & 1 == 1;
        at = text.next_item(by_structure(text, at, item.action, is_met));
        match by_cells(code, cell, is_met) {
            Some(next) => cell = next,
            None => return false,
        }
    }
    true
}

/// Where the code goes on.
fn by_cells<C: CodeStore>(code: &C, cell: Place, is_met: bool) -> Option<Place> {
    let (item, next) = code.item_and_next(cell)?;
    let goes = match item {
        Item::BranchIfZero(to) | Item::QuestionDo(to) | Item::Loop(to) | Item::Of(to) if is_met => {
            Some(to)
        }
        Item::Leave(to) | Item::EndOf(to) => Some(to),
        _ => None,
    };
    Some(goes.unwrap_or(next))
}

/// Where the body goes on, by what encloses the item.
fn by_structure(text: &Text, at: usize, action: Action, is_met: bool) -> usize {
    let next = at.saturating_add(1);
    match action {
        Action::Jump if is_met => text.jumped(at),
        Action::EnterLoop | Action::TestArm if is_met => text.behind(at),
        Action::RepeatLoop if is_met => match text.begin_of(at) {
            Some(begin) => begin.saturating_add(1),
            None => next,
        },
        Action::ExitLoop => text.past(at, Kind::Counted),
        Action::EndArm => text.past(at, Kind::Choice),
        _ => next,
    }
}
