//! The words on words and on their numbers.
ghost use Rattle.std.specs.Prelude.{◌≡◌, ◌≤◌, ◌<◌, MatchOption, None, Some, IfSome, length, true};
ghost use Rattle.of_control.specs.Element.{Plain};
ghost use Rattle.of_compile.specs.Elements.{CanBeStored, own_item};
ghost use Rattle.of_compile.specs.Tokens.{called};
ghost use Rattle.std.specs.Option.{option_map};
ghost use Rattle.of_cells.specs.Outcomes.{Becomes};
ghost use Rattle.of_fcodes.specs.Tokens.{entry_in};
ghost use Rattle.of_dict.specs.Words.{capacity, is_immediate_in, kind_in, newest_below, word_at};
ghost use Rattle.of_compile.specs.Words.{is_word, own_number, own_word};
ghost use Rattle.of_compile.specs.DictionaryWords.{behavior_entry, behavior_of, body_of, created_at, from_body_entry};
ghost use Rattle.of_compile.specs.DictionaryWords.{get_token_entry, immediate_entry, is_body, set_token_entry};
ghost use Rattle.of_compile.specs.DictionaryWords.{store_entry, stored_kind, to_body_entry};

use crate::words::{Words, is_own_code};
use of_cells::Cell;
use of_dict::{Dict, Kind, OwnWord, Slot};
use of_fcodes::{FCode, TokenEntry, TokenTable, word_with_xt};
use of_stacks::{DataStack, Throw};

/// The own word of an execution token, if there is one.
#[tactic(auto, using(crate::proofs::WordsLemmas::own_is, crate::proofs::WordsLemmas::own_none))]
fn own_word(words: &Dict, xt: Cell) -> Option<OwnWord>
    ensures word { MatchOption result (own_word words.now xt.0 ≡ None)
        (λ w. (own_number xt.0 ≡ Some w.0) × (w.0 < capacity)) }
{
    let word = OwnWord::with_xt(xt)?;
    words.kind_of(word)?;
    Some(word)
}

/// What the own word of an execution token does, if there is one.
#[inline(always)]
#[tactic(auto, using(crate::proofs::WordsLemmas::own_is, crate::proofs::WordsLemmas::own_none))]
fn kind_at(words: &Dict, xt: Cell) -> Option<Kind>
    ensures { result ≡ kind_in (own_word words.now xt.0) }
{
    words.kind_of(OwnWord::with_xt(xt)?)
}

/// Whether the own word of an execution token is executed while compiling, too.
#[inline(always)]
#[tactic(auto, using(crate::proofs::WordsLemmas::own_is, crate::proofs::WordsLemmas::own_none))]
fn is_immediate_at(words: &Dict, xt: Cell) -> bool
    ensures { result ≡ is_immediate_in (own_word words.now xt.0) }
{
    match OwnWord::with_xt(xt) {
        Some(word) => words.is_immediate(word),
        None => false,
    }
}

/// Whether a number is the execution token of a word, written or own.
pub(crate) fn is_word(words: &Dict, xt: Cell) -> bool
    ensures { result ≡ is_word words.now xt.0 }
{
    word_with_xt(xt.0).is_some() || kind_at(words, xt).is_some()
}

/// What a word is once a cell is stored into it.
fn stored_kind(kind: Option<Kind>, x: Cell) -> Result<Kind, Throw>
    ensures { result ≡ stored_kind kind x }
{
    match kind {
        Some(Kind::Value { .. }) => Ok(Kind::Value { value: x }),
        Some(Kind::Defer { .. }) => Ok(Kind::Defer { xt: x }),
        Some(
            Kind::PerInstance {
                slot: Slot::Value | Slot::Defer,
                ..
            },
        ) => Err(Throw::NO_INSTANCE),
        _ => Err(Throw::INVALID_NAME),
    }
}

/// What a defer executes.
fn behavior_of(kind: Option<Kind>) -> Result<Cell, Throw>
    ensures { result ≡ behavior_of kind }
{
    match kind {
        Some(Kind::Defer { xt }) => Ok(xt),
        Some(
            Kind::PerInstance {
                slot: Slot::Defer,
                ..
            },
        ) => Err(Throw::NO_INSTANCE),
        _ => Err(Throw::INVALID_NAME),
    }
}

/// The address that a created word gives.
fn body_of(kind: Option<Kind>) -> Result<Cell, Throw>
    ensures { result ≡ body_of kind }
{
    match kind {
        Some(Kind::Create { address } | Kind::Variable { address }) => Ok(address),
        _ => Err(Throw::NOT_CREATED),
    }
}

/// Whether a kind is that of a created word with this address.
fn is_body(address: Cell, kind: Option<Kind>) -> bool
    ensures { result ≡ is_body address.0 kind }
{
    body_of(kind) == Ok(address)
}

/// The newest created word with this address.
fn created_at(words: &Dict, address: Cell) -> Option<OwnWord>
    ensures number { option_map (λ w. w.0) result ≡ created_at words.now address.0 }
    ensures fits { IfSome result (λ w. w.0 < capacity) }
{
    let mut number = words.made();
    while number > 0 {
        let word = OwnWord((number - 1) as u32);
        if is_body(address, words.kind_of(word)) {
            return Some(word);
        }
        number -= 1;
    }
    None
}

/// What a number names as an FCode, if it is one that is assigned.
#[tactic(auto, using(crate::proofs::WordsLemmas::no_entry))]
fn entry_in(table: &TokenTable, code: Cell) -> Option<TokenEntry>
    ensures { result ≡ entry_in table.now code.0 }
{
    if code.0 as usize >= table.len() {
        return None;
    }
    table.get(FCode(code.0 as u16))
}

impl Words {
    /// What the own word of an execution token does, if there is one.
    #[inline(always)]
    pub fn kind_at(&self, xt: Cell) -> Option<Kind>
        ensures { result ≡ kind_in (own_word self.now.dictionary xt.0) }
    {
        kind_at(&self.dictionary, xt)
    }

    /// Whether the own word of an execution token is executed while compiling, too (Forth 2012, 6.1.1710).
    #[inline]
    pub fn is_immediate_at(&self, xt: Cell) -> bool
        ensures { result ≡ is_immediate_in (own_word self.now.dictionary xt.0) }
    {
        is_immediate_at(&self.dictionary, xt)
    }

    /// Whether a number is the execution token of a word, written or own.
    #[inline]
    pub fn is_word(&self, xt: Cell) -> bool
        ensures word { result ≡ is_word self.now.dictionary xt.0 }
        ensures storable { result ≡ true → CanBeStored (own_item (Plain (called xt))) }
    {
        is_word(&self.dictionary, xt)
    }

    /// `immediate` ( -- ): the newest word that still exists is executed while compiling, too (Forth 2012, 6.1.1710).
    /// The token table isn't touched.
    ///
    /// -263 where there is none.
    #[tactic(auto, using(crate::proofs::WordsLemmas::newest_changed))]
    pub fn make_immediate(&mut self) -> Result<(), Throw>
        ensures { Becomes (immediate_entry self.old) self.old self.new result }
    {
        match self.dictionary.newest() {
            Some(word) => {
                self.dictionary.set_immediate(word);
                Ok(())
            }
            None => Err(Throw::BAD_HANDLE),
        }
    }

    /// `get-token` ( fcode -- xt f ): what the FCode names, and whether it is executed while compiling, too.
    ///
    /// -4 without a cell, -256 for an FCode that isn't assigned, -3 where the flag finds no room.
    pub fn get_token(&self, stack: &mut DataStack) -> Result<(), Throw>
        ensures { Becomes (get_token_entry self.now stack.old) stack.old stack.new result }
    {
        let code = stack.peek()?;
        let Some(entry) = entry_in(&self.table, code) else {
            return Err(Throw::NOT_ASSIGNED);
        };
        stack.room_for(1)?;
        stack.replace_top(Cell(entry.xt));
        stack.push(Cell::flag(entry.immediate));
        Ok(())
    }

    /// `set-token` ( xt f fcode -- ): the FCode names the word, which is executed while compiling, too, where the flag
    /// isn't 0.
    ///
    /// -4 with fewer cells, -263 where the first is no word, -24 for an FCode that isn't 0x800 to 0xFFF.
    #[tactic(auto, using(crate::proofs::FaultLemmas::handle_counts))]
    pub fn set_token(&mut self, stack: &mut DataStack) -> Result<(), Throw>
        ensures { Becomes (set_token_entry self.old stack.old) (self.old, stack.old) (self.new, stack.new) result }
    {
        let (xt, flag, code) = stack.top_three()?;
        if !is_word(&self.dictionary, xt) {
            return Err(Throw::BAD_HANDLE);
        }
        if !is_own_code(code.0) {
            return Err(Throw::INVALID_ARGUMENT);
        }
        self.table.set(
            FCode(code.0 as u16),
            TokenEntry {
                xt: xt.0,
                immediate: flag.0 != 0,
            },
        );
        stack.drop_top(3);
        Ok(())
    }

    /// `to` ( x -- ) stores into a value or a defer (Forth 2012, 6.2.2295).
    ///
    /// -4 without a cell, -32 for any other word or number, -260 for a value or defer of an instance.
    #[tactic(auto, using(crate::proofs::WordsLemmas::newest_changed))]
    pub fn store(&mut self, xt: Cell, stack: &mut DataStack) -> Result<(), Throw>
        ensures { Becomes (store_entry xt.0 self.old stack.old) (self.old, stack.old) (self.new, stack.new) result }
    {
        let x = stack.peek()?;
        let kind = stored_kind(kind_at(&self.dictionary, xt), x)?;
        if let Some(word) = own_word(&self.dictionary, xt) {
            self.dictionary.set_kind(word, kind);
        }
        stack.drop_top(1);
        Ok(())
    }

    /// `behavior` ( xt -- xt ): what a defer executes, 0 where it was never set.
    ///
    /// -4 without a cell, -263 for a number that is no word, -32 for any other word, -260 for a defer of an instance.
    pub fn behavior(&self, stack: &mut DataStack) -> Result<(), Throw>
        ensures { Becomes (behavior_entry self.now stack.old) stack.old stack.new result }
    {
        let xt = stack.peek()?;
        if !is_word(&self.dictionary, xt) {
            return Err(Throw::BAD_HANDLE);
        }
        stack.replace_top(behavior_of(kind_at(&self.dictionary, xt))?);
        Ok(())
    }

    /// `>body` ( xt -- a ): the address of a word of `create` or `variable` (Forth 2012, 6.1.0550).
    ///
    /// -4 without a cell, -263 for a number that is no word, -31 for any other word.
    pub fn to_body(&self, stack: &mut DataStack) -> Result<(), Throw>
        ensures { Becomes (to_body_entry self.now stack.old) stack.old stack.new result }
    {
        let xt = stack.peek()?;
        if !is_word(&self.dictionary, xt) {
            return Err(Throw::BAD_HANDLE);
        }
        stack.replace_top(body_of(kind_at(&self.dictionary, xt))?);
        Ok(())
    }

    /// `body>` ( a -- xt ): the newest word of `create` or `variable` with this address.
    ///
    /// -4 without a cell, -263 where there is none.
    pub fn from_body(&self, stack: &mut DataStack) -> Result<(), Throw>
        ensures { Becomes (from_body_entry self.now stack.old) stack.old stack.new result }
    {
        let address = stack.peek()?;
        let Some(word) = created_at(&self.dictionary, address) else {
            return Err(Throw::BAD_HANDLE);
        };
        stack.replace_top(word.xt());
        Ok(())
    }
}
