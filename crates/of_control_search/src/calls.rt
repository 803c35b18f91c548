//! The calls of `Control` that the elements make, and what is compiled from their answers.
use crate::element::{Element, LENGTH};
use crate::item::{Action, Items, action_of};
use of_control::Control;

/// What the calls for a list answered, and whether all was closed after them.
#[derive(Clone, Copy)]
pub struct Answered {
    pub answers: [Option<usize>; LENGTH],
    pub is_closed: bool,
}

/// Makes the calls of a list, from an empty stack on, each element's place being its number.
pub fn called<const N: usize>(control: &mut Control<N>, list: &[Element]) -> Answered {
    control.reset();
    let mut answers = [None; LENGTH];
    for (at, (element, answer)) in list.iter().zip(answers.iter_mut()).enumerate() {
        *answer = call(control, at, *element);
    }
    Answered {
        answers,
        is_closed: control.is_closed(),
    }
}

/// Compiles a list, its places being the numbers of items: each element appends its item, and a closer sets the
/// targets of what it closes.
pub fn compiled<const N: usize>(control: &mut Control<N>, list: &[Element]) -> Items {
    control.reset();
    let mut items = Items::default();
    for element in list {
        let answer = call(control, items.len(), *element);
        compile(&mut items, *element, answer);
    }
    items
}

fn compile(items: &mut Items, element: Element, answer: Option<usize>) {
    let next = items.len();
    let past = next.saturating_add(1);
    if let Some(from) = answer {
        match element {
            Element::Resolve(_) => items.aim(from, next),
            Element::EndOf => items.aim(from, past),
            Element::EndCase => items.aim_all(Action::EndArm, from, past),
            Element::Loop => {
                items.aim(from, past);
                items.aim_all(Action::ExitLoop, from, past);
            }
            _ => {}
        }
    }
    let target = match (element, answer) {
        (Element::Back(_), _) => answer,
        (Element::Loop, Some(from)) => Some(from.saturating_add(1)),
        _ => None,
    };
    if let Some(action) = action_of(element) {
        items.push(action, target);
    }
}

fn call<const N: usize>(control: &mut Control<N>, at: usize, element: Element) -> Option<usize> {
    match element {
        Element::Resolve(Some(position)) => control.resolve(position),
        Element::Resolve(None) => control.resolve_latest(),
        Element::Back(Some(target)) => control.backward(target),
        Element::Back(None) => control.backward_latest(),
        Element::Loop => control.close_do(),
        Element::EndOf => control.endof(),
        Element::EndCase => control.close_case(),
        _ => {
            note(control, at, element);
            None
        }
    }
}

fn note<const N: usize>(control: &mut Control<N>, at: usize, element: Element) {
    match element {
        Element::Branch(target) => control.forward(at, target),
        Element::Mark(position) => control.mark(at, position),
        Element::Roll(later) => control.roll(later),
        Element::Do => control.open_do(at),
        Element::Leave => control.leave(),
        Element::Case => control.open_case(at),
        Element::Of => control.of(at),
        Element::Misfit => control.misfit(),
        _ => {}
    }
}
