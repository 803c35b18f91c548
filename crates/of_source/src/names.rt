ghost use Rattle.std.specs.Prelude.{◌≡◌, ◌∷◌, [], IfOk, OnOk};
ghost use Rattle.std.specs.Str.{str_eq_ignore_ascii_case};
ghost use Rattle.of_source.specs.Names.{own_in};

use std::alloc::{AllocError, Global};
use std::collections::HashMap;
use std::marker::Model;

/// A definition of a source by its name.
#[derive(Clone, Copy)]
pub struct Own<'a> {
    /// The name as it was spelt.
    pub name: &'a [u8],
    /// The number of the definition, from 0.
    pub number: usize,
}

/// The definitions that can be named. Each is found in constant time, by its name in lower case.
#[derive(Drop)]
pub struct Names<'a> {
    known: Vec<Own<'a>>,
    newest: HashMap<Vec<u8>, usize>,
    alloc: Global,
}

// Clauses see the definitions, the latest first.
impl<'a> Model for Names<'a> {
    ghost use Rattle.std.specs.Prelude.{List, map, nat_eq, reverse};
    ghost use Rattle.std.specs.Cmp.Lexicographic.{pointwise};
    ghost use Rattle.std.specs.HashMap as hash;
    ghost use Rattle.of_source.specs.Names.{IsIndexed, Own as Named, own_shown};

    ghost Value = { List Named };

    ghost view = { λ n. reverse (map own_shown n.known.items) };

    ghost invariant = { λ n. IsIndexed (reverse (map own_shown n.known.items))
        (hash.get (λ k q. pointwise nat_eq k.items q.items) n.newest) };
}

impl<'a> Names<'a> {
    ghost use Rattle.std.specs.Prelude.{length};
    ghost use Rattle.of_source.specs.Names.{own_shown};

    /// No definition can be named.
    pub fn new(alloc: Global) -> Self
        ensures { result ≡ [] }
    {
        Names {
            known: Vec::new(alloc),
            newest: HashMap::new(alloc),
            alloc,
        }
    }

    /// How many definitions can be named.
    pub fn count(&self) -> usize
        ensures { result ≡ length self.now }
    {
        self.known.len()
    }

    /// A definition that can be named from here on.
    pub fn add(&mut self, own: Own<'a>) -> Result<(), AllocError>
        ensures { OnOk result (self.new ≡ own_shown own.entry ∷ self.old) }
    {
        let key = own.name.to_ascii_lowercase(self.alloc)?;
        self.known.reserve(1)?;
        self.newest.insert(key, own.number)?;
        self.known.push(own).unwrap();
        Ok(())
    }

    /// The number of the latest definition of a name, whatever the case of its letters.
    pub fn find(&self, name: &[u8]) -> Result<Option<usize>, AllocError>
        ensures { IfOk result (λ found. found ≡ own_in self.now name.now) }
    {
        let key = name.to_ascii_lowercase(self.alloc)?;
        Ok(self.newest.get(&key).copied())
    }
}

/// Whether two names differ at most in the case of their letters.
pub fn is_same_name(name: &[u8], other: &[u8]) -> bool
    ensures { result ≡ str_eq_ignore_ascii_case name.now other.now }
{
    name.eq_ignore_ascii_case(other)
}
