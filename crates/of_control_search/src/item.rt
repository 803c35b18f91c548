//! The items of a definition, numbered from 0.
use crate::element::{Element, LENGTH};

/// What an item does.
#[derive(Clone, Copy, PartialEq, Eq)]
pub enum Action {
    Perform,
    Jump,
    EnterLoop,
    RepeatLoop,
    ExitLoop,
    TestArm,
    EndArm,
    DropSelector,
}

/// An item, with the number of the item to which it may go, where that is known.
#[derive(Clone, Copy)]
pub struct Item {
    pub action: Action,
    pub target: Option<usize>,
}

impl Default for Item {
    fn default() -> Self {
        Item {
            action: Action::Perform,
            target: None,
        }
    }
}

/// The items of a list; past its last one each is a `Perform`.
#[derive(Clone, Copy, Default)]
pub struct Items {
    all: [Item; LENGTH],
    length: usize,
}

impl Items {
    /// How many there are.
    pub fn len(&self) -> usize {
        self.length
    }

    /// Item `number`.
    pub fn get(&self, number: usize) -> Option<Item> {
        if number < self.length {
            self.all.get(number).copied()
        } else {
            None
        }
    }

    /// Whether item `number` goes there.
    pub fn goes_to(&self, number: usize, target: usize) -> bool {
        match self.get(number) {
            Some(item) => item.target == Some(target),
            None => false,
        }
    }

    /// Whether item `number` is a jump that goes there.
    pub fn jumps_to(&self, number: usize, target: usize) -> bool {
        match self.get(number) {
            Some(item) => item.action == Action::Jump && item.target == Some(target),
            None => false,
        }
    }

    /// Appends an item.
    pub fn push(&mut self, action: Action, target: Option<usize>) {
        if let Some(item) = self.all.get_mut(self.length) {
            *item = Item { action, target };
            self.length = self.length.saturating_add(1);
        }
    }

    /// Item `number` gets a target.
    pub fn aim(&mut self, number: usize, target: usize) {
        if let Some(item) = self.all.get_mut(number) {
            item.target = Some(target);
        }
    }

    /// Each item of this kind from item `from` on that has no target gets this one.
    pub fn aim_all(&mut self, action: Action, from: usize, target: usize) {
        for item in self.all.iter_mut().skip(from) {
            if item.action == action && item.target.is_none() {
                item.target = Some(target);
            }
        }
    }

    /// How many items from item `from` on do this.
    pub fn count_from(&self, from: usize, action: Action) -> usize {
        let mut found: usize = 0;
        for item in self.all.iter().take(self.length).skip(from) {
            if item.action == action {
                found = found.saturating_add(1);
            }
        }
        found
    }
}

/// What the item of an element does, if it leaves one.
pub fn action_of(element: Element) -> Option<Action> {
    match element {
        Element::Plain | Element::Misfit => Some(Action::Perform),
        Element::Branch(_) | Element::Back(_) => Some(Action::Jump),
        Element::Do => Some(Action::EnterLoop),
        Element::Loop => Some(Action::RepeatLoop),
        Element::Leave => Some(Action::ExitLoop),
        Element::Of => Some(Action::TestArm),
        Element::EndOf => Some(Action::EndArm),
        Element::EndCase => Some(Action::DropSelector),
        Element::Resolve(_) | Element::Mark(_) | Element::Roll(_) | Element::Case => None,
    }
}
