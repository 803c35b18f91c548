//! What an open definition is a list of.
ghost use Rattle.std.specs.Prelude.{◌≡◌, ◌↔◌, IsTrue};
ghost use Rattle.of_compile.specs.Elements.{CanBeStored, branch_item, do_item, element_of, loop_item, own_item};
ghost use Rattle.of_compile.specs.Elements.{plain_item};

use of_cells::Cell;
use of_code::{Item, Place};

/// An item of code that goes on at the next one. Words are named by their execution tokens.
#[derive(Clone, Copy)]
pub enum PlainItem {
    /// Performs a written word. One cell.
    Operation(Cell),

    /// Puts a cell on the data stack. Two cells.
    Literal(Cell),

    /// Puts a string's address and length on the data stack. Three cells.
    String { address: Cell, length: Cell },

    /// Calls the word of this execution token. One cell.
    Call(Cell),

    /// Stores into the word of this execution token, as `to` does. Two cells.
    Store(Cell),
}

/// An element of an open definition: what one compiled token, or a part of a text word, adds to it (IEEE 1275-1994,
/// 5.3.3.2). Targets and positions are those of bytes of the image; text words give none.
#[derive(Clone, Copy)]
pub enum Element {
    /// An operation, literal, string, call or store.
    Plain(PlainItem),

    /// A forward branch, only on zero or always, with its target (Forth 2012, 6.1.1700, 15.6.2.0702).
    Branch(bool, Option<usize>),

    /// The end of a forward branch, at a position (Forth 2012, 6.1.2270).
    Resolve(Option<usize>),

    /// Where a backward branch may go, at a position (Forth 2012, 6.1.0760).
    Mark(Option<usize>),

    /// A backward branch, only on zero or always, with its target (Forth 2012, 6.1.2390, 6.2.0700).
    Back(bool, Option<usize>),

    /// Makes the branch that so many others are later than the latest (Forth 2012, 15.6.2.1020).
    Roll(usize),

    /// `?do` or `do` (Forth 2012, 6.2.0620, 6.1.1240).
    Do(bool),

    /// `+loop` or `loop` (Forth 2012, 6.1.0140, 6.1.1800).
    Loop(bool),

    /// `leave` (Forth 2012, 6.1.1760).
    Leave,

    /// `case` (Forth 2012, 6.2.0873).
    Case,

    /// `of` (Forth 2012, 6.2.1950).
    Of,

    /// `endof` (Forth 2012, 6.2.1343).
    EndOf,

    /// `endcase` (Forth 2012, 6.2.1342).
    EndCase,

    /// An item of a `do` or `case` family whose offset has the wrong sign. It belongs to no structure and is never run;
    /// it takes the cells of this item.
    Misfit(PlainItem),
}

/// The target of an item whose target isn't known yet.
pub(crate) const NOWHERE: Place = Place { cell: 0 };

impl PlainItem {
    /// The item in code.
    pub(crate) fn item(self) -> Item
        ensures { result ≡ plain_item self }
    {
        match self {
            PlainItem::Operation(xt) => Item::Operation(xt),
            PlainItem::Literal(x) => Item::Literal(x),
            PlainItem::String { address, length } => Item::String { address, length },
            PlainItem::Call(xt) => Item::Call(xt),
            PlainItem::Store(xt) => Item::Store(xt),
        }
    }
}

/// A branch, only on zero or always.
pub(crate) fn branch_item(on_zero: bool, to: Place) -> Item
    ensures { result ≡ branch_item on_zero to }
{
    if on_zero {
        Item::BranchIfZero(to)
    } else {
        Item::Branch(to)
    }
}

/// `?do` or `do`.
pub(crate) fn do_item(asks: bool, to: Place) -> Item
    ensures { result ≡ do_item asks to }
{
    if asks {
        Item::QuestionDo(to)
    } else {
        Item::Do(to)
    }
}

/// `+loop` or `loop`.
pub(crate) fn loop_item(adds: bool, to: Place) -> Item
    ensures { result ≡ loop_item adds to }
{
    if adds {
        Item::PlusLoop(to)
    } else {
        Item::Loop(to)
    }
}

impl Element {
    /// Whether every store can hold the element's item: an operation names a written word, and a call another one.
    pub fn is_storable(self) -> bool
        ensures { IsTrue result ↔ CanBeStored (own_item (element_of self)) }
    {
        match self.own_item() {
            Some(item) => item.is_storable(),
            None => true,
        }
    }

    /// The item that the element appends, its target not known yet.
    pub(crate) fn own_item(self) -> Option<Item>
        ensures { result ≡ own_item (element_of self) }
    {
        match self {
            Element::Plain(item) | Element::Misfit(item) => Some(item.item()),
            Element::Branch(on_zero, _) | Element::Back(on_zero, _) => {
                Some(branch_item(on_zero, NOWHERE))
            }
            Element::Do(asks) => Some(do_item(asks, NOWHERE)),
            Element::Loop(adds) => Some(loop_item(adds, NOWHERE)),
            Element::Leave => Some(Item::Leave(NOWHERE)),
            Element::Of => Some(Item::Of(NOWHERE)),
            Element::EndOf => Some(Item::EndOf(NOWHERE)),
            Element::EndCase => Some(Item::EndCase),
            Element::Resolve(_) | Element::Mark(_) | Element::Roll(_) | Element::Case => None,
        }
    }
}
