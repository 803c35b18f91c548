ghost use Rattle.std.specs.Prelude.{◌≡◌, ◌≤◌, [], length, map, option_map, slice_get, Ok};
ghost use Rattle.std.specs.Char.{to_ascii_lowercase};
ghost use Rattle.of_nodes.specs.Methods.{is_method_name, lower, method_in, with_former, with_method};
ghost use Rattle.of_cells.specs.Outcomes.{MayBecome};
ghost use Rattle.of_nodes.specs.Outcomes.{IsForMemory};
ghost use Rattle.of_nodes.specs.Properties.{replaced, value_in, without};

use crate::fault::NodeFault;
use arrayvec::ArrayVec;
use indexmap::IndexMap;
use of_cells::Cell;
use std::alloc::Global;
use std::marker::Model;

/// The most bytes of a method's name.
const LONGEST: usize = 31;

/// The methods of a node by their names in lower case, in the order in which the names were first given.
#[derive(Drop)]
pub struct Methods {
    entries: IndexMap<Vec<u8>, Cell>,
}

// Clauses see each name as bytes, with its word's execution token.
impl Model for Methods {
    ghost use Rattle.std.specs.Prelude.{ℕ, List, map};
    ghost use Rattle.of_cells.specs.declared.cells.Cell.{Cell};

    ghost Value = { List (List ℕ × Cell) };

    ghost view = { λ m. map (λ e. (e.0.items, e.1)) m.entries.entries };
}

/// Whether a text has the length of a method's name, 1 to 31 bytes.
pub(crate) fn is_method_name(text: &[u8]) -> bool
    ensures { result ≡ is_method_name text.now }
{
    1 <= text.len() && text.len() <= LONGEST
}

/// A name with its ASCII letters in lower case.
fn key_of(name: &[u8]) -> ArrayVec<u8, 31>
    requires { length name.now ≤ 31 }
    ensures { result.items ≡ lower name.now }
{
    let mut key = ArrayVec::new();
    for byte in name {
        key.push(byte.to_ascii_lowercase());
    }
    key
}

impl Methods {
    /// No methods.
    pub(crate) fn new(alloc: Global) -> Methods
        ensures { result ≡ [] }
    {
        Methods {
            entries: IndexMap::new(alloc),
        }
    }

    /// The word that is kept under a name in lower case, if there is one.
    fn kept(&self, key: &[u8]) -> Option<Cell>
        ensures { result ≡ value_in self.now key.now }
    {
        self.entries.get(key).copied()
    }

    /// The execution token of the method of the name, if there is one.
    pub(crate) fn get(&self, name: &[u8]) -> Option<Cell>
        ensures { result ≡ method_in self.now name.now }
    {
        if !is_method_name(name) {
            return None;
        }
        let key = key_of(name);
        self.kept(key.as_slice())
    }

    /// The name, in lower case, and the execution token of the method at a place in the order, if there are so many.
    pub(crate) fn at(&self, index: usize) -> Option<(&[u8], Cell)>
        ensures { option_map (λ e. (e.0.now, e.1)) result ≡ slice_get self.now index }
    {
        match self.entries.get_index(index) {
            Some(entry) => Some((entry.0.as_slice(), *entry.1)),
            None => None,
        }
    }

    /// Makes a word the method of the name. A name that is there keeps its place.
    ///
    /// NoMemory; then nothing changes.
    pub(crate) fn set(&mut self, alloc: Global, name: &[u8], xt: Cell) -> Result<(), NodeFault>
        ensures { MayBecome IsForMemory (Ok (with_method self.old name.now xt)) self.old self.new result }
    {
        let key = name.to_ascii_lowercase(alloc)?;
        self.entries.insert(key, xt)?;
        Ok(())
    }

    /// Gives the name the word that it had before a word was made its method, or takes it out if it had none.
    pub(crate) fn take_back(&mut self, name: &[u8], before: Option<Cell>)
        requires { length name.now ≤ 31 }
        ensures { self.new ≡ with_former self.old name.now before }
    {
        let key = key_of(name);
        match before {
            Some(xt) => self.replace(key.as_slice(), xt),
            None => self.remove(key.as_slice()),
        }
    }

    /// Gives a name in lower case another word, if it is there.
    fn replace(&mut self, key: &[u8], xt: Cell)
        ensures { self.new ≡ replaced self.old key.now xt }
    {
        match self.entries.get_mut(key) {
            Some(kept) => *kept = xt,
            None => {}
        }
    }

    /// Takes a name in lower case out, if it is there. The others keep their order.
    fn remove(&mut self, key: &[u8])
        ensures { self.new ≡ without self.old key.now }
    {
        let _ = self.entries.shift_remove(key);
    }
}
