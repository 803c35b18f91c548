//! The names by which words are printed.
ghost use Rattle.std.specs.Prelude.{◌≡◌, option_copied};
ghost use Rattle.of_compile.specs.Words.{own_word};
ghost use Rattle.of_dict.specs.Words.{name_in};
ghost use Rattle.of_fcodes.specs.Finding.{word_with_xt};
ghost use Rattle.of_see.specs.SeeText.{acts, acts_at_once, are_solid, compiling_name, finds, found_name, is_one_word};
ghost use Rattle.of_see.specs.SeeText.{is_xt, name_at, name_if, stored_name};

use of_cells::Cell;
use of_dict::{Dict, OwnWord};
use of_fcodes::{Class, Word, word_with_xt};
use of_text::Names;

/// The name of the own word that has an execution token.
#[tactic(auto, using(crate::proofs::OwnNumbers::own_is, crate::proofs::OwnNumbers::own_none))]
fn own_name(dictionary: &Dict, xt: Cell) -> Option<&[u8]>
    ensures { option_copied result ≡ name_in (own_word dictionary.now xt.0) }
{
    match OwnWord::with_xt(xt) {
        Some(word) => dictionary.name_of(word),
        None => None,
    }
}

/// The name of the word with an execution token, as it was spelt.
pub(crate) fn name_at<'a>(names: &Names<'a>, xt: Cell) -> Option<&'a [u8]>
    ensures { option_copied result ≡ name_at names.now.words xt.0 }
{
    match word_with_xt(xt.0) {
        Some(word) => Some(word.name().as_bytes()),
        None => own_name(names.words.dictionary(), xt),
    }
}

/// Whether no byte separates words.
fn are_solid(name: &[u8]) -> bool
    ensures { result ≡ are_solid name.now }
{
    name.iter().all(|byte| *byte > b' ')
}

/// Whether a name is one word of a line.
fn is_one_word(name: &[u8]) -> bool
    ensures { result ≡ is_one_word name.now }
{
    name.len() > 0 && are_solid(name)
}

/// Whether what was found is an execution token.
fn is_xt(xt: Cell, found: Option<Cell>) -> bool
    ensures { result ≡ is_xt xt.0 found }
{
    match found {
        Some(found) => found.0 == xt.0,
        None => false,
    }
}

/// Whether a name, read as one word of a line, finds the word with an execution token.
fn finds(names: &Names, name: &[u8], xt: Cell) -> bool
    ensures { result ≡ finds names.now name.now xt.0 }
{
    is_one_word(name) && is_xt(xt, names.xt(name))
}

/// The name by which the word with an execution token is found, if it is.
fn found_name<'a>(names: &Names<'a>, xt: Cell) -> Option<&'a [u8]>
    ensures { option_copied result ≡ found_name names.now xt.0 }
{
    match name_at(names, xt) {
        Some(name) => {
            if finds(names, name, xt) {
                return Some(name);
            }
            None
        }
        None => None,
    }
}

/// Whether a written word acts where it is read: it parses, or is only for compiling.
fn acts(word: Option<Word>) -> bool
    ensures { result ≡ acts word }
{
    match word {
        Some(word) => match word.class() {
            Class::Stream | Class::Ordinary => false,
            Class::Parsing | Class::CompileOnly => true,
        },
        None => false,
    }
}

/// Whether a word is executed or parses while words are compiled.
fn acts_at_once(names: &Names, xt: Cell) -> bool
    ensures { result ≡ acts_at_once names.now.words xt.0 }
{
    acts(word_with_xt(xt.0)) || names.words.is_immediate_at(xt)
}

/// The name by which a word is compiled, if it is.
pub(crate) fn compiling_name<'a>(names: &Names<'a>, xt: Cell) -> Option<&'a [u8]>
    ensures { option_copied result ≡ compiling_name names.now xt.0 }
{
    if acts_at_once(names, xt) {
        return None;
    }
    found_name(names, xt)
}

/// The name by which a word is stored into where a definition is compiled, if it is.
pub(crate) fn stored_name<'a>(names: &Names<'a>, itself: Cell, xt: Cell) -> Option<&'a [u8]>
    ensures { option_copied result ≡ stored_name names.now itself.0 xt.0 }
{
    if xt.0 == itself.0 {
        return None;
    }
    found_name(names, xt)
}
