//! The elements of a definition.

/// The length of the longest lists.
pub const LENGTH: usize = 5;

/// An element, with the target or position that an image gives it; text gives none.
#[derive(Clone, Copy, PartialEq, Eq)]
pub enum Element {
    Plain,
    Branch(Option<usize>),
    Resolve(Option<usize>),
    Mark(Option<usize>),
    Back(Option<usize>),
    Roll(usize),
    Do,
    Loop,
    Leave,
    Case,
    Of,
    EndOf,
    EndCase,
    Misfit,
}

/// What the lists are made of. The last target of a branch back lies before all marks that have a position.
pub const ELEMENTS: [Element; 23] = [
    Element::Plain,
    Element::Branch(None),
    Element::Branch(Some(1)),
    Element::Branch(Some(2)),
    Element::Resolve(None),
    Element::Resolve(Some(1)),
    Element::Resolve(Some(2)),
    Element::Mark(None),
    Element::Mark(Some(1)),
    Element::Back(None),
    Element::Back(Some(1)),
    Element::Back(Some(2)),
    Element::Back(Some(0)),
    Element::Roll(0),
    Element::Roll(1),
    Element::Do,
    Element::Loop,
    Element::Leave,
    Element::Case,
    Element::Of,
    Element::EndOf,
    Element::EndCase,
    Element::Misfit,
];

impl Element {
    /// Whether a closer has to close it.
    pub fn is_opener(self) -> bool {
        matches!(
            self,
            Element::Branch(_) | Element::Mark(_) | Element::Do | Element::Case | Element::Of
        )
    }

    /// Whether it closes an opener.
    pub fn is_closer(self) -> bool {
        matches!(
            self,
            Element::Resolve(_)
                | Element::Back(_)
                | Element::Loop
                | Element::EndOf
                | Element::EndCase
        )
    }

    /// Whether it names an opener: a closer, or a roll.
    pub fn has_partner(self) -> bool {
        self.is_closer() || matches!(self, Element::Roll(_))
    }

    /// Whether it is a forward branch.
    pub fn is_branch(self) -> bool {
        matches!(self, Element::Branch(_))
    }
}
