//! The words that images define: the dictionary, what each FCode names, and what a token maker left.
ghost use Rattle.std.specs.Prelude.{◌≡◌, ◌<◌, [], IfOk, IfSome, None};
ghost use Rattle.std.specs.Option.{option_copied, option_map};
ghost use Rattle.of_cells.specs.Outcomes.{Becomes};
ghost use Rattle.of_dict.specs.Words.{capacity, xt_of};
ghost use Rattle.of_compile.specs.Words.{first_words, is_debugging, is_own_code, name_fault, name_given, name_pending};
ghost use Rattle.of_compile.specs.Words.{named_next, named_open, numbered};

use of_cells::Cell;
use of_dict::{CAPACITY, Dict, LONGEST_NAME, Name, OwnWord};
use of_fcodes::{FCode, TokenTable};
use of_memory::{Memory, scratch_is_open};
use of_stacks::Throw;
use std::alloc::{AllocError, Global};
use std::marker::Model;

/// The cell `fcode-debug?`.
const DEBUG_CELL: Cell = Cell(0x50_0004);

/// An FCode for the next word that is defined, and the name that the word gets.
#[derive(Drop)]
pub struct Pending {
    pub code: FCode,
    pub name: Option<Name>,
}

/// A token that announces the number of the next word (IEEE 1275-1994, annex A), with the name that stands behind it.
#[derive(Clone, Copy)]
pub enum TokenMaker<'a> {
    /// `new-token`: the word has no name.
    New,
    /// `named-token`: the word has the name only while the cell `fcode-debug?` isn't 0.
    Named(&'a [u8]),
    /// `external-token`: the word has the name.
    External(&'a [u8]),
}

/// The words that images and texts define. Only `new` and the calls that define take memory.
#[derive(Drop)]
pub struct Words {
    pub(crate) dictionary: Dict,
    pub(crate) table: TokenTable,
    pub(crate) pending: Option<Pending>,
    pub(crate) waiting: bool,
    pub(crate) defining: Option<OwnWord>,
}

// Clauses see the own words, the table's entries, the pending number and the number of the open word.
impl Model for Words {
    ghost use Rattle.std.specs.Prelude.{ℕ, Option, ◌<◌};
    ghost use Rattle.std.specs.Option.{option_map};
    ghost use Rattle.of_dict.specs.declared.word.OwnWord.{OwnWord};
    ghost use Rattle.of_compile.specs.Words.{IsPending, IsNewestOpen, WordsState};

    ghost Value = { WordsState };

    ghost view = { λ w. record {
      dictionary = w.dictionary;
      table = w.table;
      pending = w.pending;
      waiting = w.waiting;
      defining = option_map (λ (o : OwnWord). o.0) w.defining;
    } };

    ghost invariant = { λ w. IsPending w.pending
        × IsNewestOpen w.dictionary (option_map (λ (o : OwnWord). o.0) w.defining) };
}

impl<'a> TokenMaker<'a> {
    /// The name that the next word gets.
    fn name(self, memory: &Memory) -> Option<&'a [u8]>
        ensures { option_copied result ≡ name_given memory.now self.entry }
    {
        match self {
            TokenMaker::New => None,
            TokenMaker::Named(name) if is_debugging(memory) => Some(name),
            TokenMaker::Named(_) => None,
            TokenMaker::External(name) => Some(name),
        }
    }
}

/// Whether the cell `fcode-debug?` isn't 0.
fn is_debugging(memory: &Memory) -> bool
    ensures { result ≡ is_debugging memory.now }
{
    scratch_is_open();
    match memory.read32(DEBUG_CELL) {
        Ok(x) => x.0 != 0,
        // There is no fault there.
        Err(_) => false,
    }
}

/// Whether an FCode is for own words.
pub(crate) fn is_own_code(code: u32) -> bool
    ensures { result ≡ is_own_code code }
{
    (0x800..0x1000).contains(&code)
}

/// What a name is refused for that a word is to bear.
pub(crate) fn name_fault(name: Option<&[u8]>) -> Option<Throw>
    ensures { result ≡ name_fault (option_copied name.entry) }
{
    match name {
        Some(name) if name.is_empty() => Some(Throw::EMPTY_NAME),
        Some(name) if name.len() > LONGEST_NAME => Some(Throw::LONG_NAME),
        _ => None,
    }
}

impl Words {
    /// No words of its own yet; each listed FCode names its written word.
    pub fn new(alloc: Global) -> Result<Words, AllocError>
        ensures { IfOk result (λ w. w ≡
            first_words) }
    {
        Ok(Words {
            dictionary: Dict::new(alloc),
            table: TokenTable::new(alloc)?,
            pending: None,
            waiting: false,
            defining: None,
        })
    }

    /// The own words.
    #[inline]
    pub fn dictionary(&self) -> &Dict
        ensures { result.now ≡ self.now.dictionary }
    {
        &self.dictionary
    }

    /// What each FCode names.
    #[inline]
    pub fn table(&self) -> &TokenTable
        ensures { result.now ≡ self.now.table }
    {
        &self.table
    }

    /// The word whose definition is open, if one is.
    #[inline]
    pub fn defining(&self) -> Option<OwnWord>
        ensures { option_map (λ o. o.0) result ≡ self.now.defining }
    {
        self.defining
    }

    /// The execution token of the open definition, if one is open.
    #[inline]
    pub fn open_xt(&self) -> Option<Cell>
        ensures { result ≡ option_map (λ n. record { 0 = xt_of n }) self.now.defining }
    {
        match self.open_word() {
            Some(word) => Some(word.xt()),
            None => None,
        }
    }

    /// The next word that is defined, and the name that it gets. None where it gets no name, or no word can be made.
    pub fn named_next(&self) -> Option<(OwnWord, &[u8])>
        ensures next { option_map (λ word. (word.0.0, word.1.now)) result
            ≡ named_next self.now.dictionary (name_pending self.now.pending) }
        ensures fits { IfSome result (λ word. word.0.0 < capacity) }
    {
        let name = self.pending.as_ref()?.name.as_ref()?;
        let number = self.dictionary.made();
        if number >= CAPACITY {
            return None;
        }
        Some((OwnWord(number as u32), name.as_bytes()))
    }

    /// The word whose definition is open, and its name. None where none is open, or it has no name.
    pub fn named_open(&self) -> Option<(OwnWord, &[u8])>
        ensures named { option_map (λ word. (word.0.0, word.1.now)) result
            ≡ named_open self.now.dictionary self.now.defining }
        ensures fits { IfSome result (λ word. word.0.0 < capacity) }
    {
        let word = self.open_word()?;
        let name = self.dictionary.name_of(word)?;
        Some((word, name))
    }

    /// The word whose definition is open: the newest one.
    pub(crate) fn open_word(&self) -> Option<OwnWord>
        ensures word { option_map (λ o. o.0) result ≡ self.now.defining }
        ensures fits { IfSome result (λ o. o.0 < capacity) }
    {
        self.defining?;
        self.dictionary.newest()
    }

    /// `new-token`, `named-token` and `external-token`: the next word that is defined gets the FCode, and the name that
    /// the token gives (IEEE 1275-1994, annex A).
    ///
    /// -29 while a definition is open, -16 for a name without bytes, -19 for one of more than 31, -24 for an FCode that
    /// isn't 0x800 to 0xFFF. A refusal changes nothing.
    #[tactic(auto, using(crate::proofs::FaultLemmas::number_nested))]
    pub fn announce(&mut self, maker: TokenMaker, code: FCode, memory: &Memory) -> Result<(), Throw>
        ensures { Becomes (numbered code (name_given memory.now maker.entry) self.old) self.old self.new result }
    {
        if self.defining.is_some() {
            return Err(Throw::COMPILER_NESTING);
        }
        let name = maker.name(memory);
        if let Some(fault) = name_fault(name) {
            return Err(fault);
        }
        if !is_own_code(u32::from(code.0)) {
            return Err(Throw::INVALID_ARGUMENT);
        }
        self.pending = Some(Pending {
            code,
            name: name.map(Name::spelt),
        });
        Ok(())
    }
}
