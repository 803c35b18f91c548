ghost use Rattle.std.specs.Prelude.{◌≡◌, ◌<◌, ℕ, MatchOption};
ghost use Rattle.of_dict.specs.Words.{capacity, xt_of};
ghost use Rattle.of_dict.specs.Index.{after};

use crate::name::Name;
use of_cells::Cell;

/// How many own words can ever be made.
pub const CAPACITY: usize = 8192;

/// The execution token of the first own word: the 331 written words come before it.
const FIRST_XT: u32 = 0xc000_052c;

/// An own word, by its number: how many own words were made before it. Numbers are never used again.
#[derive(Clone, Copy, Debug, PartialEq, Eq)]
pub struct OwnWord(pub u32);

/// What a word does when it is executed, with what it keeps for that (IEEE 1275-1994, 5.3.3.1).
#[derive(Clone, Copy, Debug, PartialEq, Eq)]
pub enum Kind {
    /// A colon definition: `start` is the code cell at which it begins.
    Colon { start: u32 },

    /// Gives the cell.
    Constant { value: Cell },

    /// Gives the cell, which `to` changes.
    Value { value: Cell },

    /// Gives the address of its cell in the data space.
    Variable { address: Cell },

    /// Gives the address that `here` had.
    Create { address: Cell },

    /// Executes the word of this execution token, which `to` changes. 0 where it was never set.
    Defer { xt: Cell },

    /// Gives the address of its bytes in the data space.
    Buffer { address: Cell },

    /// Adds the offset to an address.
    Field { offset: Cell },

    /// Works on a slot that each instance of a package has: `number` is the slot's.
    PerInstance { slot: Slot, number: u32 },
}

/// What stands in a slot of an instance, by the word that `instance` came before.
#[derive(Clone, Copy, Debug, PartialEq, Eq)]
pub enum Slot {
    Value,
    Variable,
    Buffer,
    Defer,
}

/// A word of the dictionary.
#[derive(Drop)]
pub struct Word {
    /// Its name as it was spelt, of 1 to 31 bytes.
    pub name: Option<Name>,

    /// Whether it is executed while compiling.
    pub immediate: bool,

    /// Whether it is left out of every search.
    pub hidden: bool,

    pub kind: Kind,
}

/// A change of a word that leaves its name.
#[derive(Clone, Copy)]
pub(crate) enum Change {
    Kind(Kind),
    Immediate,
    Hidden(bool),
}

impl Word {
    #[inline(always)]
    pub(crate) fn change(&mut self, change: Change)
        ensures { self.new ≡ after change self.old }
    {
        match change {
            Change::Kind(kind) => self.kind = kind,
            Change::Immediate => self.immediate = true,
            Change::Hidden(hidden) => self.hidden = hidden,
        }
    }
}

impl OwnWord {
    /// The execution token of an own word: 0xC000052C and four times its number.
    #[inline(always)]
    pub fn xt(self) -> Cell
        requires { self.0 < capacity }
        ensures { result.0 ≡ xt_of self.0 }
    {
        Cell(FIRST_XT + 4 * self.0)
    }

    /// The own word of an execution token, where it can be one's.
    #[inline(always)]
    pub fn with_xt(xt: Cell) -> Option<OwnWord>
        ensures { MatchOption result
            ((n : ℕ) → n < capacity → xt_of n ≡ xt.0 → ⊥)
            (λ word. (word.0 < capacity) × (xt_of word.0 ≡ xt.0)) }
    {
        let offset = xt.0.checked_sub(FIRST_XT)?;
        if offset % 4 != 0 || offset / 4 >= CAPACITY as u32 {
            return None;
        }
        Some(OwnWord(offset / 4))
    }
}
