//! What each FCode names at a moment.
ghost use Rattle.std.specs.Prelude.{◌≡◌, ◌<◌, IfOk, map, vec_len};
ghost use Rattle.of_fcodes.specs.Tokens.{entry_in, assigned, unless_named, cleared, first_entry, first_table};

use crate::codes::{FCode, word_of};
use std::alloc::{AllocError, Global};
use std::marker::Model;

/// How many FCodes there are: 0x000 to 0xFFF.
const FCODES: u16 = 0x1000;

/// What an FCode names: a word, and whether it is executed while compiling, too.
#[derive(Clone, Copy, Debug, PartialEq, Eq)]
pub struct TokenEntry {
    /// The word's execution token.
    pub xt: u32,
    /// Whether the word is executed where it stands in a definition that is being compiled.
    pub immediate: bool,
}

/// The token table: the entry of each FCode that is assigned (IEEE 1275-1994, 5.2.2.2).
///
/// Only `new` takes memory.
#[derive(Drop)]
pub struct TokenTable {
    entries: Vec<Option<TokenEntry>>,
}

// Clauses see an entry or none for each FCode, in the order of their numbers.
impl Model for TokenTable {
    ghost use Rattle.std.specs.Prelude.{List, Option, length, ◌≡◌};
    ghost use Rattle.of_fcodes.specs.declared.token_table.TokenEntry.{TokenEntry};

    ghost Value = { List (Option TokenEntry) };

    ghost view = { λ t. t.entries.items };

    ghost invariant = { λ t. length t.entries.items ≡ 4096 };
}

impl TokenTable {
    ghost use Rattle.std.specs.Prelude.{length};

    /// The table in which each listed FCode names its written word, not immediate, and no other is
    /// assigned.
    pub fn new(alloc: Global) -> Result<Self, AllocError>
        ensures { IfOk result (λ t. t ≡ first_table) }
    {
        Ok(TokenTable {
            entries: first_entries(alloc)?,
        })
    }

    /// How many FCodes there are: 0x000 to 0xFFF.
    #[inline]
    pub fn len(&self) -> usize
        ensures value { result ≡ length self.now }
        ensures fixed { result ≡ 4096 }
    {
        self.entries.len()
    }

    /// The entry of an FCode, if it is assigned: `get-token`.
    #[inline]
    pub fn get(&self, code: FCode) -> Option<TokenEntry>
        ensures { result ≡ entry_in self.now code.0 }
    {
        *self.entries.get(usize::from(code.0))?
    }

    /// Assigns an entry to an FCode, in the place of the one that it has: `set-token`.
    pub fn set(&mut self, code: FCode, entry: TokenEntry)
        requires { code.0 < 4096 }
        ensures table { self.new ≡ assigned self.old code.0 entry }
    {
        self.entries[usize::from(code.0)] = Some(entry);
    }

    /// Takes each FCode that names the word of an execution token out of the table.
    pub fn clear(&mut self, xt: u32)
        ensures { self.new ≡ cleared xt self.old }
    {
        clear_entries(self.entries.as_mut_slice(), xt);
    }
}

/// What a listed FCode names at first.
fn first_entry(code: FCode) -> Option<TokenEntry>
    ensures { result ≡ first_entry code.0 }
{
    match word_of(code) {
        Some(word) => Some(TokenEntry {
            xt: word.xt(),
            immediate: false,
        }),
        None => None,
    }
}

/// What each FCode names at first.
#[tactic(auto, using(crate::proofs::TokenLemmas::entries_next, crate::proofs::TokenLemmas::no_entries))]
fn first_entries(alloc: Global) -> Result<Vec<Option<TokenEntry>>, AllocError>
    ensures entries { IfOk result (λ v. v.items ≡ first_table) }
    ensures long { IfOk result (λ v. vec_len v ≡ 4096) }
{
    let mut entries = Vec::with_capacity(alloc, usize::from(FCODES))?;
    for number in 0..FCODES {
        entries.push(first_entry(FCode(number)))?;
    }
    Ok(entries)
}

/// The entry, unless it names the word of an execution token.
fn unless_named(entry: Option<TokenEntry>, xt: u32) -> Option<TokenEntry>
    ensures { result ≡ unless_named xt entry }
{
    match entry {
        Some(found) if found.xt == xt => None,
        Some(found) => Some(found),
        None => None,
    }
}

/// Takes out the entries that name the word of an execution token.
fn clear_entries(entries: &mut [Option<TokenEntry>], xt: u32)
    ensures { entries.new ≡ cleared xt entries.old }
{
    for entry in entries.iter_mut() {
        *entry = unless_named(*entry, xt);
    }
}
