//! What the elements come to as code, against a plain layout of their items.
use crate::element::Element;
use crate::item::{Action, Items};
use of_cells::Cell;
use of_code::{CodeStore, Item, Place};
use of_compile::{Coding, Element as Compiled, PlainItem};
use of_stacks::Throw;
use std::alloc::AllocError;

/// A written word, which takes one cell.
const WORD: PlainItem = PlainItem::Operation(Cell(0xc000_0080));

/// The word that is defined.
const NAME: Cell = Cell(0xc000_052c);

/// The element as the compiler takes it: each branch only on zero, each loop with `?do`.
fn element_of(element: Element) -> Compiled {
    match element {
        Element::Plain => Compiled::Plain(WORD),
        Element::Branch(target) => Compiled::Branch(true, target),
        Element::Resolve(position) => Compiled::Resolve(position),
        Element::Mark(position) => Compiled::Mark(position),
        Element::Back(target) => Compiled::Back(true, target),
        Element::Roll(later) => Compiled::Roll(later),
        Element::Do => Compiled::Do(true),
        Element::Loop => Compiled::Loop(false),
        Element::Leave => Compiled::Leave,
        Element::Case => Compiled::Case,
        Element::Of => Compiled::Of,
        Element::EndOf => Compiled::EndOf,
        Element::EndCase => Compiled::EndCase,
        Element::Misfit => Compiled::Misfit(WORD),
    }
}

/// Compiles the elements of a list; false where one is refused.
pub fn compile_all<C: CodeStore>(
    coding: &mut Coding<C>,
    list: &[Element],
) -> Result<bool, AllocError> {
    for element in list {
        let element = element_of(*element);
        coding.reserve(1)?;
        if !element.is_storable() || coding.compile(element).is_err() {
            return Ok(false);
        }
    }
    Ok(true)
}

/// Whether the list comes to these items laid out one after another, and can be finished exactly where all is closed:
/// else it is refused with -22 and stays, and leaves nothing once it is given up. Answers the code, too, which is made
/// in a store that holds nothing yet.
pub fn coded<C: CodeStore + Drop>(
    store: C,
    list: &[Element],
    items: &Items,
    is_closed: bool,
) -> Result<(Coding<C>, bool), AllocError> {
    let mut coding = Coding::new(store);
    let is_compiled = compile_all(&mut coding, list)? && is_laid(coding.code(), items);
    coding.reserve(1)?;
    let is_ended = match coding.semicolon(NAME) {
        Ok(()) => is_closed && is_finished(coding.code(), items),
        Err(fault) => !is_closed
            && fault == Throw::CONTROL_MISMATCH
            && is_laid(coding.code(), items),
    };
    if is_closed {
        return Ok((coding, is_compiled && is_ended));
    }
    coding.abandon();
    let is_gone = coding.code().end().cell == 0;
    Ok((coding, is_compiled && is_ended && is_gone))
}

/// The code cell of item `number`; the first stands at 0.
pub fn place(items: &Items, number: usize) -> Place {
    let mut cell: u32 = 0;
    for earlier in 0..number {
        if let Some(item) = items.get(earlier) {
            cell = cell.saturating_add(cells(item.action));
        }
    }
    Place { cell }
}

/// How many cells an item takes here.
fn cells(action: Action) -> u32 {
    match action {
        Action::Perform | Action::DropSelector => 1,
        _ => 2,
    }
}

/// What an item of code does, if it is one that an element leaves here.
pub fn action_of(item: Item) -> Option<Action> {
    match item {
        Item::Operation(_) => Some(Action::Perform),
        Item::BranchIfZero(_) => Some(Action::Jump),
        Item::QuestionDo(_) => Some(Action::EnterLoop),
        Item::Loop(_) => Some(Action::RepeatLoop),
        Item::Leave(_) => Some(Action::ExitLoop),
        Item::Of(_) => Some(Action::TestArm),
        Item::EndOf(_) => Some(Action::EndArm),
        Item::EndCase => Some(Action::DropSelector),
        _ => None,
    }
}

/// Whether the code holds just these items, one after another, each with the place of the item that it goes to; 0
/// where that isn't known.
fn is_laid<C: CodeStore>(code: &C, items: &Items) -> bool {
    (0..items.len()).all(|number| holds(code, items, number))
        && code.end() == place(items, items.len())
}

/// Whether the code holds item `number` at its place.
fn holds<C: CodeStore>(code: &C, items: &Items, number: usize) -> bool {
    let Some(found) = code.item_at(place(items, number)) else {
        return false;
    };
    let Some(item) = items.get(number) else {
        return false;
    };
    let target = match item.target {
        Some(other) => place(items, other),
        None => Place { cell: 0 },
    };
    action_of(found) == Some(item.action)
        && found.target_of().unwrap_or(Place { cell: 0 }) == target
}

/// Whether a return stands behind these items, and the word begins at the first.
fn is_finished<C: CodeStore>(code: &C, items: &Items) -> bool {
    (0..items.len()).all(|number| holds(code, items, number))
        && code.item_at(place(items, items.len())) == Some(Item::Return)
        && code.start_of(NAME) == Some(Place { cell: 0 })
}
