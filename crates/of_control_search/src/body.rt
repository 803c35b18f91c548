//! Tight bodies by a plain search: each way to put blocks, cycles and choices round the items of a list and to give
//! each jump the part that it leaves or repeats, as far as the conditions hold.
use crate::element::LENGTH;
use crate::item::{Action, Item, Items};
use crate::text::Text;

/// More parts than this are never open at once: of two items, one opens a part and one closes it.
const DEPTH: usize = 2 * LENGTH;

/// A text of a body has no more steps: a step for each item, and two for each block, cycle or choice.
pub const LONGEST: usize = 3 * LENGTH;

/// A part of a body, as the text of the body begins it, takes an item into it, or ends it.
#[derive(Clone, Copy)]
pub enum Step {
    /// Begins a part that no item begins.
    Begin(Kind),
    /// Takes the next item; a jump names the part that so many others are inside of.
    Take(usize),
    /// Ends a block or a cycle.
    End,
}

const STEPS: [Step; 9] = [
    Step::Begin(Kind::Block),
    Step::Begin(Kind::Cycle),
    Step::Begin(Kind::Choice),
    Step::End,
    Step::Take(0),
    Step::Take(1),
    Step::Take(2),
    Step::Take(3),
    Step::Take(4),
];

#[derive(Clone, Copy, PartialEq, Eq)]
pub enum Kind {
    Block,
    Cycle,
    Counted,
    Choice,
    Arm,
}

/// An open part: its kind, its number among all parts, the number of the first item in it, where the first part in it
/// ends, and the jump that names it.
#[derive(Clone, Copy)]
struct Part {
    kind: Kind,
    name: usize,
    start: usize,
    first_end: Option<usize>,
    jump: Option<usize>,
}

/// The beginning of a text: the open parts, how many items are taken and how many parts are begun, and for each item
/// the part to whose end it goes.
#[derive(Clone, Copy)]
struct Draft {
    open: [Part; DEPTH],
    depth: usize,
    taken: usize,
    begun: usize,
    to_end_of: [Option<usize>; LENGTH],
    text: Text,
}

/// How many tight bodies have these items, and the text of the last that was found.
pub fn bodies(items: &Items) -> (u64, Text) {
    let part = Part {
        kind: Kind::Block,
        name: 0,
        start: 0,
        first_end: None,
        jump: None,
    };
    let draft = Draft {
        open: [part; DEPTH],
        depth: 0,
        taken: 0,
        begun: 0,
        to_end_of: [None; LENGTH],
        text: Text::default(),
    };
    let mut text = Text::default();
    let found = finished(items, &draft, LONGEST, &mut text);
    (found, text)
}

/// How many bodies begin so, with at most `left` steps more; the text of the last one is kept.
fn finished(items: &Items, draft: &Draft, left: usize, text: &mut Text) -> u64 {
    let is_whole = draft.taken == items.len() && draft.depth == 0;
    let mut found: u64 = 0;
    if is_whole {
        found = 1;
        *text = draft.text;
    }
    if left > 0 {
        for step in STEPS {
            let mut longer = *draft;
            if longer.advance(items, step) {
                longer.text.push(items, draft.taken, step);
                found = found.saturating_add(finished(items, &longer, left - 1, text));
            }
        }
    }
    found
}

impl Draft {
    /// Goes on by a step, if it fits.
    fn advance(&mut self, items: &Items, step: Step) -> bool {
        match step {
            Step::Begin(kind) => self.may_begin(items, kind) && self.may_hold() && self.begin(kind),
            Step::Take(outer) => match items.get(self.taken) {
                Some(item) if outer == 0 || item.action == Action::Jump => {
                    self.take(items, item, outer)
                }
                _ => false,
            },
            Step::End => self.end(items),
        }
    }

    /// Whether items are left for the ends of the choices, and jumps for the blocks and cycles, that are open with one
    /// more of this kind.
    fn may_begin(&self, items: &Items, kind: Kind) -> bool {
        let wanted = if kind == Kind::Choice {
            Action::DropSelector
        } else {
            Action::Jump
        };
        let mut waiting: usize = 0;
        for part in self.open.iter().take(self.depth) {
            let waits = match part.kind {
                Kind::Choice => kind == Kind::Choice,
                Kind::Block | Kind::Cycle => kind != Kind::Choice && part.jump.is_none(),
                Kind::Counted | Kind::Arm => false,
            };
            if waits {
                waiting = waiting.saturating_add(1);
            }
        }
        waiting < items.count_from(self.taken, wanted)
    }

    /// Whether more than an arm may come next: a choice begins with its first arm.
    fn may_hold(&self) -> bool {
        match self.top() {
            Some(part) => part.kind != Kind::Choice || part.first_end.is_some(),
            None => true,
        }
    }

    /// The innermost open part.
    fn top(&self) -> Option<Part> {
        self.open.iter().take(self.depth).next_back().copied()
    }

    /// The innermost open part of this kind.
    fn innermost(&self, kind: Kind) -> Option<usize> {
        let mut found = None;
        for part in self.open.iter().take(self.depth) {
            if part.kind == kind {
                found = Some(part.name);
            }
        }
        found
    }

    /// Begins a part.
    fn begin(&mut self, kind: Kind) -> bool {
        let part = Part {
            kind,
            name: self.begun,
            start: self.taken,
            first_end: None,
            jump: None,
        };
        match self.open.get_mut(self.depth) {
            None => false,
            Some(place) => {
                *place = part;
                self.depth = self.depth.saturating_add(1);
                self.begun = self.begun.saturating_add(1);
                true
            }
        }
    }

    /// Takes the next item.
    fn take(&mut self, items: &Items, item: Item, outer: usize) -> bool {
        match item.action {
            Action::Perform => self.may_hold() && self.hold(),
            Action::ExitLoop => self.may_hold() && self.go_past(Kind::Counted) && self.hold(),
            Action::Jump => self.may_hold() && self.jump(item, outer) && self.hold(),
            Action::EnterLoop => self.may_hold() && self.enter(Kind::Counted),
            Action::TestArm => self.is_in(Kind::Choice) && self.enter(Kind::Arm),
            Action::RepeatLoop => {
                self.is_in(Kind::Counted) && self.goes_back(item) && self.leave(items)
            }
            Action::EndArm => {
                self.is_in(Kind::Arm) && self.go_past(Kind::Choice) && self.leave(items)
            }
            Action::DropSelector => self.is_in(Kind::Choice) && self.leave(items),
        }
    }

    /// Whether the innermost open part is of this kind.
    fn is_in(&self, kind: Kind) -> bool {
        match self.top() {
            Some(part) => part.kind == kind,
            None => false,
        }
    }

    /// Whether an item goes to the beginning of the innermost open part.
    fn goes_back(&self, item: Item) -> bool {
        match self.top() {
            Some(part) => item.target == Some(part.start),
            None => false,
        }
    }

    /// The next item is a part of its own.
    fn hold(&mut self) -> bool {
        self.taken = self.taken.saturating_add(1);
        self.note_end();
        true
    }

    /// If the part that ends here is the first one in the part round it, that is noted.
    fn note_end(&mut self) {
        let taken = self.taken;
        if let Some(part) = self.open.iter_mut().take(self.depth).next_back() {
            if part.first_end.is_none() {
                part.first_end = Some(taken);
            }
        }
    }

    /// The next item goes to the end of the innermost part of this kind.
    fn go_past(&mut self, kind: Kind) -> bool {
        let name = self.innermost(kind);
        self.go_to_end_of(name)
    }

    fn go_to_end_of(&mut self, name: Option<usize>) -> bool {
        match self.to_end_of.get_mut(self.taken) {
            Some(place) if name.is_some() => {
                *place = name;
                true
            }
            _ => false,
        }
    }

    /// The next item begins a part, to whose end it goes.
    fn enter(&mut self, kind: Kind) -> bool {
        let name = Some(self.begun);
        if !self.go_to_end_of(name) {
            return false;
        }
        self.taken = self.taken.saturating_add(1);
        self.begin(kind)
    }

    /// The next item, a jump, names the part that `outer` blocks and cycles are inside of: to the end of a block, or to
    /// the beginning of a cycle. Each is named by one jump.
    fn jump(&mut self, item: Item, outer: usize) -> bool {
        let at = self.taken;
        let depth = self.depth;
        let mut inner: usize = 0;
        let mut name = None;
        let mut is_inside = true;
        let mut fits = false;
        for part in self.open.iter_mut().take(depth).rev() {
            match part.kind {
                Kind::Block | Kind::Cycle => {
                    if is_inside && inner == outer && part.jump.is_none() {
                        part.jump = Some(at);
                        if part.kind == Kind::Block {
                            name = Some(part.name);
                        } else {
                            fits = item.target == Some(part.start);
                        }
                    }
                    inner = inner.saturating_add(1);
                }
                Kind::Counted | Kind::Choice | Kind::Arm => is_inside = false,
            }
        }
        fits || self.go_to_end_of(name)
    }

    /// Ends a block or a cycle, if it is tight: its first part is or holds the jump of a block, and the jump of a cycle
    /// is its last item; no jump before it goes to the same end.
    fn end(&mut self, items: &Items) -> bool {
        let Some(part) = self.top() else {
            return false;
        };
        let Some(jump) = part.jump else {
            return false;
        };
        let is_near = match part.kind {
            Kind::Block => part.first_end > Some(jump),
            Kind::Cycle => jump.saturating_add(1) == self.taken,
            Kind::Counted | Kind::Choice | Kind::Arm => false,
        };
        is_near && self.is_least(items, part, jump) && self.close(items)
    }

    /// Whether no jump in a part that ends here, before this one, goes here by leaving blocks in the part.
    fn is_least(&self, items: &Items, part: Part, jump: usize) -> bool {
        let end = self.taken;
        self.to_end_of.iter().enumerate().take(jump).all(|(number, name)| {
            *name <= Some(part.name) || !items.jumps_to(number, end)
        })
    }

    /// The next item ends the innermost open part.
    fn leave(&mut self, items: &Items) -> bool {
        self.taken = self.taken.saturating_add(1);
        self.close(items)
    }

    /// Closes the innermost open part, if all items that go to its end have the number of what follows as target.
    fn close(&mut self, items: &Items) -> bool {
        let Some(part) = self.top() else {
            return false;
        };
        let end = self.taken;
        self.depth = self.depth.saturating_sub(1);
        self.note_end();
        self.to_end_of.iter().enumerate().all(|(number, name)| {
            *name != Some(part.name) || items.goes_to(number, end)
        })
    }
}
