ghost use Rattle.std.specs.Prelude.{◌≡◌, ◌↔◌, IsTrue};
ghost use Rattle.of_code.specs.Items.{IsStorable, cells_of, target_of, with_target};

use crate::CAPACITY;
use of_cells::Cell;

/// The execution token of the first of the 331 written words.
const FIRST_XT: u32 = 0xc000_0000;

/// The execution token of the first word that a program makes.
const FIRST_OWN_XT: u32 = 0xc000_052c;

/// A code cell, by its number from 0: where an item begins, or where the next one will.
#[derive(Clone, Copy, Debug, PartialEq, Eq)]
pub struct Place {
    pub cell: u32,
}

/// An item of compiled code. Words are named by their execution tokens.
#[derive(Clone, Copy, Debug, PartialEq, Eq)]
pub enum Item {
    /// Performs a primitive word, named by its execution token. One cell.
    Operation(Cell),

    /// Puts a cell on the data stack. Two cells.
    Literal(Cell),

    /// Puts a string's address and length on the data stack. Three cells.
    String { address: Cell, length: Cell },

    /// Calls the word of this execution token. One cell.
    Call(Cell),

    /// Stores into the word of this execution token, as `to` does. Two cells.
    Store(Cell),

    /// Goes to the target. Two cells.
    Branch(Place),

    /// Takes a cell, and goes to the target where it is 0. Two cells.
    BranchIfZero(Place),

    /// Begins a counted loop, which ends before the target (Forth 2012, 6.1.1240). Two cells.
    Do(Place),

    /// The same, and goes to the target where the limits are equal (Forth 2012, 6.2.0620). Two
    /// cells.
    QuestionDo(Place),

    /// Adds 1 to the index, and goes back to the target until the loop ends (Forth 2012,
    /// 6.1.1800). Two cells.
    Loop(Place),

    /// The same with a step from the data stack (Forth 2012, 6.1.0140). Two cells.
    PlusLoop(Place),

    /// Leaves the loop for the target (Forth 2012, 6.1.1760). Two cells.
    Leave(Place),

    /// Tests a selector, and goes to the target where it is another (Forth 2012, 6.2.1950). Two
    /// cells.
    Of(Place),

    /// Goes past the end of the case, to the target (Forth 2012, 6.2.1343). Two cells.
    EndOf(Place),

    /// Drops the selector (Forth 2012, 6.2.1342). One cell.
    EndCase,

    /// Ends the word. One cell.
    Return,
}

impl Item {
    /// How many code cells the item takes: 1, 2 or 3.
    #[inline(always)]
    pub fn cells(&self) -> u32
        ensures { result ≡ cells_of self.now }
    {
        match self {
            Item::Operation(_) | Item::Call(_) | Item::EndCase | Item::Return => 1,
            Item::Literal(_)
            | Item::Store(_)
            | Item::Branch(_)
            | Item::BranchIfZero(_)
            | Item::Do(_)
            | Item::QuestionDo(_)
            | Item::Loop(_)
            | Item::PlusLoop(_)
            | Item::Leave(_)
            | Item::Of(_)
            | Item::EndOf(_) => 2,
            Item::String { .. } => 3,
        }
    }

    /// The target, if the item has one.
    pub fn target_of(&self) -> Option<Place>
        ensures { result ≡ target_of self.now }
    {
        match self {
            Item::Branch(to)
            | Item::BranchIfZero(to)
            | Item::Do(to)
            | Item::QuestionDo(to)
            | Item::Loop(to)
            | Item::PlusLoop(to)
            | Item::Leave(to)
            | Item::Of(to)
            | Item::EndOf(to) => Some(*to),
            Item::Operation(_)
            | Item::Literal(_)
            | Item::String { .. }
            | Item::Call(_)
            | Item::Store(_)
            | Item::EndCase
            | Item::Return => None,
        }
    }

    /// The item with another target, or as it is where it has none.
    pub fn with_target(self, to: Place) -> Item
        ensures { result ≡ with_target self to }
    {
        match self {
            Item::Branch(_) => Item::Branch(to),
            Item::BranchIfZero(_) => Item::BranchIfZero(to),
            Item::Do(_) => Item::Do(to),
            Item::QuestionDo(_) => Item::QuestionDo(to),
            Item::Loop(_) => Item::Loop(to),
            Item::PlusLoop(_) => Item::PlusLoop(to),
            Item::Leave(_) => Item::Leave(to),
            Item::Of(_) => Item::Of(to),
            Item::EndOf(_) => Item::EndOf(to),
            item @ (Item::Operation(_)
            | Item::Literal(_)
            | Item::String { .. }
            | Item::Call(_)
            | Item::Store(_)
            | Item::EndCase
            | Item::Return) => item,
        }
    }

    /// Whether every store can hold the item: an operation names a written word, a call another
    /// one, and a target is at most 65,536.
    pub fn is_storable(&self) -> bool
        ensures { IsTrue result ↔ IsStorable self.now }
    {
        match self {
            Item::Operation(xt) => xt.0 >= FIRST_XT && xt.0 < FIRST_OWN_XT,
            Item::Call(xt) => xt.0 >= FIRST_OWN_XT,
            Item::Branch(to)
            | Item::BranchIfZero(to)
            | Item::Do(to)
            | Item::QuestionDo(to)
            | Item::Loop(to)
            | Item::PlusLoop(to)
            | Item::Leave(to)
            | Item::Of(to)
            | Item::EndOf(to) => to.cell as usize <= CAPACITY,
            Item::Literal(_)
            | Item::String { .. }
            | Item::Store(_)
            | Item::EndCase
            | Item::Return => true,
        }
    }
}
