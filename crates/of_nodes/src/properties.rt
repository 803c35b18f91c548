ghost use Rattle.std.specs.Prelude.{◌≡◌, ◌<◌, [], ◌+◌, ◌^◌, length, map, None, IfOk, IfErr, IfSome};
ghost use Rattle.std.specs.Prelude.{MatchOption};
ghost use Rattle.indexmap.specs.IndexMap.{spare};
ghost use Rattle.of_memory.specs.Growth.{property_put};
ghost use Rattle.of_nodes.specs.Properties.{bytes_at, named, property_set, stored, value_at, value_behind, value_in};
ghost use Rattle.of_nodes.specs.Properties.{value_next, with_entry, with_value, without};
ghost use Rattle.of_cells.specs.Outcomes.{Answers, MayBecome};
ghost use Rattle.of_nodes.specs.Outcomes.{IsForMemory};

use crate::fault::NodeFault;
use indexmap::IndexMap;
use of_cells::Cell;
use of_memory::Memory;
use std::alloc::Global;
use std::marker::Model;

/// Where the value of a property lies: so many bytes from an address on.
#[derive(Clone, Copy, Debug, PartialEq, Eq)]
pub struct Span {
    /// The address of the first byte.
    pub address: Cell,
    /// How many bytes there are.
    pub length: Cell,
}

impl Span {
    /// The bytes of the data space that lie there; none where they can't be read.
    pub fn bytes(self, memory: &Memory) -> &[u8]
        ensures { result.now ≡ bytes_at memory.now self }
    {
        match memory.slice(self.address, self.length) {
            Ok(bytes) => bytes,
            Err(_) => &[],
        }
    }
}

/// A property: where its name lies, and where its value does.
#[derive(Clone, Copy, Debug, PartialEq, Eq)]
pub struct Property {
    /// The bytes of the name.
    pub name: Span,
    /// The bytes of the value.
    pub value: Span,
}

/// The properties of a node, in the order of insertion.
#[derive(Drop)]
pub struct Properties {
    entries: IndexMap<Vec<u8>, Property>,
}

// Clauses see each name as bytes, with its value's place.
impl Model for Properties {
    ghost use Rattle.std.specs.Prelude.{ℕ, List, map};
    ghost use Rattle.of_nodes.specs.declared.properties.Property.{Property};

    ghost Value = { List (List ℕ × Property) };

    ghost view = { λ p. map (λ e. (e.0.items, e.1)) p.entries.entries };
}

/// Puts the name and the value of a new property into the property region.
#[tactic(auto, using(crate::proofs::PropertySpans::stores))]
fn store_named(memory: &mut Memory, name: &[u8], value: &[u8]) -> Result<Property, NodeFault>
    ensures { Answers (stored memory.old None name.now value.now) memory.old memory.new result }
{
    match memory.put_named(name, value) {
        Ok(addresses) => Ok(Property {
            name: Span {
                address: addresses.0,
                length: Cell(name.len() as u32),
            },
            value: Span {
                address: addresses.1,
                length: Cell(value.len() as u32),
            },
        }),
        Err(_) => Err(NodeFault::PropertyFull),
    }
}

/// Puts another value of a property into the property region.
#[tactic(auto, using(crate::proofs::PropertySpans::stores))]
fn store_value(memory: &mut Memory, old: Property, new: &[u8]) -> Result<Property, NodeFault>
    ensures { Answers (with_value old (length new.now) (property_put memory.old new.now)) memory.old memory.new result }
{
    match memory.put_property(new) {
        Ok(address) => Ok(Property {
            name: old.name,
            value: Span {
                address,
                length: Cell(new.len() as u32),
            },
        }),
        Err(_) => Err(NodeFault::PropertyFull),
    }
}

/// Puts a value, and before it the name of a property that isn't there, into the property region.
fn store(
    memory: &mut Memory,
    found: Option<Property>,
    name: &[u8],
    value: &[u8],
) -> Result<Property, NodeFault>
    ensures { Answers (stored memory.old found name.now value.now) memory.old memory.new result }
{
    match found {
        Some(old) => store_value(memory, old, value),
        None => store_named(memory, name, value),
    }
}

/// Sets an entry for which there is room.
fn insert(entries: &mut IndexMap<Vec<u8>, Property>, name: Vec<u8>, value: Property)
    requires { 0 < spare entries.old }
    ensures { map named entries.new.entries ≡ with_entry (map named entries.old.entries) name.items value }
{
    // There is room, so it isn't refused.
    let Ok(_) = entries.insert(name, value) else {
        return;
    };
}

/// A name and room for its property, taken before anything changes.
#[derive(Drop)]
pub(crate) struct Place {
    name: Vec<u8>,
    entries: IndexMap<Vec<u8>, Property>,
}

// Clauses see the name.
impl Model for Place {
    ghost use Rattle.std.specs.Prelude.{◌≡◌, ◌<◌, ℕ, List, []};
    ghost use Rattle.indexmap.specs.IndexMap.{spare};

    ghost Value = { List ℕ };

    ghost view = { λ p. p.name.items };

    ghost invariant = { λ p. (p.entries.entries ≡ []) × (0 < spare p.entries) };
}

impl Place {
    /// A place for a property of the name; NoMemory.
    pub(crate) fn new(alloc: Global, name: &[u8]) -> Result<Place, NodeFault>
        ensures named { IfOk result (λ p. p ≡ name.now) }
        ensures refused { IfErr result (λ e. e ≡ NodeFault.NoMemory) }
    {
        let name = Vec::from_slice(alloc, name)?;
        let entries = IndexMap::with_capacity(alloc, 1)?;
        Ok(Place { name, entries })
    }

    /// The properties of a node that has this one with a value, which is copied into the property region
    /// after its name; PropertyFull.
    pub(crate) fn filled(self, memory: &mut Memory, value: &[u8]) -> Result<Properties, NodeFault>
        ensures { Answers (property_set memory.old [] self value.now) memory.old memory.new result }
    {
        let property = store_named(memory, self.name.as_slice(), value)?;
        let mut entries = self.entries;
        insert(&mut entries, self.name, property);
        Ok(Properties { entries })
    }
}

impl Properties {
    /// No properties.
    pub(crate) fn new(alloc: Global) -> Properties
        ensures { result ≡ [] }
    {
        Properties {
            entries: IndexMap::new(alloc),
        }
    }

    /// How many properties there are.
    pub(crate) fn count(&self) -> usize
        ensures { result ≡ length self.now }
    {
        self.entries.len()
    }

    /// The property of the name, if there is one.
    pub(crate) fn get(&self, name: &[u8]) -> Option<Property>
        ensures { result ≡ value_in self.now name.now }
    {
        self.entries.get(name).copied()
    }

    /// The property at a place in the order, if there are so many.
    pub(crate) fn at(&self, index: usize) -> Option<Property>
        ensures { result ≡ value_at self.now index }
    {
        match self.entries.get_index(index) {
            Some(entry) => Some(*entry.1),
            None => None,
        }
    }

    /// Where the property of the name stands in the order.
    fn place_of(&self, name: &[u8]) -> Option<usize>
        ensures value { let next = value_behind self.now name.now in
            MatchOption result (next ≡ None) (λ i. next ≡ value_at self.now (i + 1)) }
        ensures small { IfSome result (λ i. i < 2 ^ 63) }
    {
        let _ = self.entries.len();
        self.entries.get_index_of(name)
    }

    /// The property behind that of the name, or the first where the name is empty, if there is one.
    pub(crate) fn next(&self, name: &[u8]) -> Option<Property>
        ensures { result ≡ value_next self.now name.now }
    {
        if name.len() == 0 {
            return self.at(0);
        }
        let index = self.place_of(name)?;
        self.at(index + 1)
    }

    /// Sets a property to a value, which is copied into the property region, after its name if the
    /// property is new. A property that is there keeps its place.
    ///
    /// PropertyFull, if they don't fit there; or NoMemory. Then nothing changes, in memory either.
    pub(crate) fn set(
        &mut self,
        alloc: Global,
        memory: &mut Memory,
        name: &[u8],
        value: &[u8],
    ) -> Result<(), NodeFault>
        ensures { let after = property_set memory.old self.old name.now value.now in
            MayBecome IsForMemory after (self.old, memory.old) (self.new, memory.new) result }
    {
        let found = self.get(name);
        let key = Vec::from_slice(alloc, name)?;
        self.entries.reserve(1)?;
        let property = store(memory, found, name, value)?;
        insert(&mut self.entries, key, property);
        Ok(())
    }

    /// Takes the property of the name out, if there is one. The others keep their order.
    pub(crate) fn remove(&mut self, name: &[u8])
        ensures { self.new ≡ without self.old name.now }
    {
        let _ = self.entries.shift_remove(name);
    }
}
