//! What a name finds.
ghost use Rattle.std.specs.Prelude.{◌≡◌, option_map};
ghost use Rattle.of_dict.specs.Words.{is_immediate_in};
ghost use Rattle.of_compile.specs.Words.{own_word};
ghost use Rattle.of_text.specs.Names.{active_method, known_name, own_named, written_named, xt_named};

use of_cells::Cell;
use of_compile::Words;
use of_fcodes::{Class, Word, word_with_name};
use of_nodes::{Phandle, Tree};
use of_stacks::Throw;
use std::marker::Model;

/// Where names are looked up.
#[derive(Drop)]
pub struct Names<'a> {
    /// The device tree.
    pub tree: &'a Tree,
    /// The active package.
    pub home: Option<Phandle>,
    /// The own words.
    pub words: &'a Words,
}

// Clauses see the nodes and the own words.
impl<'a> Model for Names<'a> {
    ghost use Rattle.of_text.specs.Names.{Names as Where};

    ghost Value = { Where };

    ghost view = { λ n. record { nodes = n.tree.now; home = n.home; words = n.words.now.dictionary } };
}

/// The written word that a name finds, if there is one: those that only an image has are no words of a text.
pub(crate) fn written(name: &[u8]) -> Option<Word>
    ensures { result ≡ written_named name.now }
{
    let word = word_with_name(name)?;
    if word.class() == Class::Stream {
        return None;
    }
    Some(word)
}

impl<'a> Names<'a> {
    /// The method of a name in the active package, if there is one.
    fn active_method(&self, name: &[u8]) -> Option<Cell>
        ensures { result ≡ active_method self.now.nodes self.now.home name.now }
    {
        match self.tree.method(self.home?, name) {
            Ok(method) => method,
            Err(_) => None,
        }
    }

    /// The own word that a name finds, if there is one: a method of the active package comes before a global word.
    pub(crate) fn own(&self, name: &[u8]) -> Option<Cell>
        ensures { result ≡ own_named self.now name.now }
    {
        if let Some(method) = self.active_method(name) {
            return Some(method);
        }
        let word = self.words.dictionary().find(name)?;
        Some(word.xt())
    }

    /// The execution token of the word that a name finds, if there is one: methods of the active package come before
    /// global words, and these before the written words, whatever the case of ASCII letters (IEEE 1275-1994, 5.3.2;
    /// Forth 2012, 3.4.2).
    pub fn xt(&self, name: &[u8]) -> Option<Cell>
        ensures { result ≡ xt_named self.now name.now }
    {
        if let Some(xt) = self.own(name) {
            return Some(xt);
        }
        let word = written(name)?;
        Some(Cell(word.xt()))
    }

    /// The execution token that a name finds: -16 where the name is empty, -13 where it finds none.
    pub(crate) fn known(&self, name: &[u8]) -> Result<Cell, Throw>
        ensures { result ≡ known_name self.now name.now }
    {
        if name.is_empty() {
            return Err(Throw::EMPTY_NAME);
        }
        self.xt(name).ok_or(Throw::UNDEFINED_WORD)
    }

    /// Whether an own word is executed while words are compiled, too.
    pub(crate) fn is_immediate(&self, xt: Cell) -> bool
        ensures { result ≡ is_immediate_in (own_word self.now.words xt.0) }
    {
        self.words.is_immediate_at(xt)
    }
}
