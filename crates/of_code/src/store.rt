ghost use Rattle.std.specs.Prelude.{◌≡◌, ◌≤◌, ◌<◌, ℕ, ◌+◌, OnOk, OnSome, Err};
ghost use Rattle.of_code.specs.Items.{IsStorable, capacity};
ghost use Rattle.of_code.specs.Code.{Appends, Code, Finishes, abandoned, end_of, fetched_in, item_in, retargeted};
ghost use Rattle.of_code.specs.Code.{start_in, word_in};
ghost use Rattle.of_code.specs.declared.fault.CodeFault.TheVariants.{NoMemory};

use crate::{CodeFault, Item, Place};
use of_cells::Cell;
use std::alloc::AllocError;

/// How many code cells a store has.
pub const CAPACITY: usize = 65_536;

/// For how many calls `reserve` makes room at most: far more than any step appends.
pub const MOST_CALLS: usize = 256;

/// Where a finished word's code begins.
#[derive(Clone, Copy)]
pub struct Start {
    pub xt: Cell,
    pub place: Place,
}

/// Code that grows at its end, where the open definition stands. It has 65,536 code cells.
pub trait CodeStore {
    /// What the store holds.
    ghost code: { Self → Code };

    /// For how many calls of `append` and `finish` there is memory.
    ghost spare: { Self → ℕ };

    /// Makes room: the next `calls` calls of `append` and `finish` don't answer `NoMemory`.
    ///
    /// A refused growth leaves the code as it was. `calls` is at most 256, so that the room in
    /// bytes can be counted.
    fn reserve(&mut self, calls: usize) -> Result<(), AllocError>
        requires { calls ≤ MOST_CALLS }
        ensures code { code self.new ≡ code self.old }
        ensures kept { spare self.old ≤ spare self.new }
        ensures ready { OnOk result (calls ≤ spare self.new) };

    /// Appends an item to the open definition, and answers its place. A target is at most 65,536, an
    /// operation names a written word (0xC0000000 to 0xC0000528), and a call another one.
    ///
    /// `Full` comes exactly where the item would pass the last code cell, then `NoMemory`. A
    /// refused item leaves nothing behind.
    fn append(&mut self, item: Item) -> Result<Place, CodeFault>
        requires { IsStorable item }
        ensures code { Appends result (code self.old) (code self.new) item }
        ensures memory { result ≡ Err NoMemory → spare self.old ≡ 0 }
        ensures spare { spare self.old ≤ spare self.new + 1 };

    /// The item that begins at a place, if one does.
    fn item_at(&self, place: Place) -> Option<Item>
        ensures item { result ≡ item_in (code self.now) place }
        ensures fits { OnSome result (place.cell < capacity) };

    /// The item that begins at a place, if one does, and the place after it.
    fn item_and_next(&self, place: Place) -> Option<(Item, Place)>
        ensures item { result ≡ fetched_in (code self.now) place }
        ensures fits { OnSome result (place.cell < capacity) };

    /// Gives the item at `at` the target `to`, where one that has a target begins there.
    fn set_target(&mut self, at: Place, to: Place)
        requires { to.cell ≤ capacity }
        ensures code { code self.new ≡ retargeted (code self.old) at to }
        ensures spare { spare self.new ≡ spare self.old };

    /// Ends the open definition with a return, as the word `xt`, and opens the next one.
    ///
    /// `Full` comes exactly where the return would pass the last code cell, then `NoMemory`. On
    /// both the definition stays as it was.
    fn finish(&mut self, xt: Cell) -> Result<(), CodeFault>
        ensures code { Finishes result (code self.old) (code self.new) xt }
        ensures memory { result ≡ Err NoMemory → spare self.old ≡ 0 }
        ensures spare { spare self.old ≤ spare self.new + 1 };

    /// Where the code of the word `xt` begins, if it was finished; of several the latest.
    fn start_of(&self, xt: Cell) -> Option<Place>
        ensures { result ≡ start_in (code self.now) xt };

    /// The finished word in whose code a place lies, and where it begins, if it lies in one's.
    fn word_at(&self, place: Place) -> Option<Start>
        ensures { result ≡ word_in (code self.now) place };

    /// Where the open definition begins.
    fn opened(&self) -> Place
        ensures place { result ≡ (code self.now).opened }
        ensures fits { result.cell ≤ (end_of (code self.now)).cell };

    /// Where the next item will begin.
    fn end(&self) -> Place
        ensures place { result ≡ end_of (code self.now) }
        ensures fits { result.cell ≤ capacity };

    /// Forgets the items of the open definition.
    fn abandon(&mut self)
        ensures code { code self.new ≡ abandoned (code self.old) }
        ensures spare { spare self.old ≤ spare self.new };
}
