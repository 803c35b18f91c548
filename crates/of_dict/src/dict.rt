ghost use Rattle.std.specs.Prelude.{◌≡◌, ◌<◌, ◌≤◌, ◌-◌, [], length, take, option_copied, IfSome, IfOk};
ghost use Rattle.std.specs.Prelude.{Option, Some, None, true, false};
ghost use Rattle.std.specs.Prelude.{nat_eq, if◌then◌else◌, slice_set, IsSome, is_some, ℕ};
ghost use Rattle.std.specs.Option.{option_map};
ghost use Rattle.std.specs.HashMap as hash;
ghost use Rattle.std.specs.Cmp.Lexicographic.{pointwise};
ghost use Rattle.arrayvec.specs.ArrayVec.{ArrayVec};
ghost use Rattle.of_dict.specs.Words.{bears, capacity, found, is_hidden_in, is_immediate_in, kind_in, listed, name_in};
ghost use Rattle.of_dict.specs.Words.{has_key, lower, newest, newest_below, word_at};
ghost use Rattle.of_dict.specs.Calls.{Adds, changed, removed};
ghost use Rattle.of_dict.specs.Headers.{word_in};
ghost use Rattle.of_dict.specs.Index.{IsNamed, after, visible_from};

use crate::DictFault;
use crate::header::Header;
use crate::name::{Key, LONGEST_NAME, Name, key_of};
use crate::word::{CAPACITY, Change, Kind, OwnWord, Word};
use std::alloc::Global;
use std::collections::HashMap;
use std::marker::Model;

/// The own words in the order of making, each a header in byte memory. A word that was taken away leaves its number
/// used.
///
/// Only `add` takes memory. A number that no word has, or has any more, changes nothing.
#[derive(Drop)]
pub struct Dict {
    headers: Vec<Header>,
    newest: HashMap<Key, u32>,
}

// Clauses see the words that were ever made, the oldest first.
impl Model for Dict {
    ghost use Rattle.std.specs.Prelude.{List, Option, nat_eq};
    ghost use Rattle.std.specs.Cmp.Lexicographic.{pointwise};
    ghost use Rattle.std.specs.HashMap as hash;
    ghost use Rattle.of_dict.specs.declared.word.Word.{Word};
    ghost use Rattle.of_dict.specs.Headers.{links_of, words_of};
    ghost use Rattle.of_dict.specs.Index.{IsIndexed};

    ghost Value = { List (Option Word) };

    ghost view = { λ d. words_of d.headers.items };

    ghost invariant = { λ d. IsIndexed (words_of d.headers.items) (links_of d.headers.items)
        (hash.get (λ k q. pointwise nat_eq k.items q.items) d.newest) };
}

/// Gives a name that is found another newest word, or none.
fn unlink(newest: &mut HashMap<Key, u32>, key: Key, before: Option<u32>)
    requires { IsSome (hash.get (λ k q. pointwise nat_eq k.items q.items) newest.old key) }
    ensures { (q : ArrayVec ℕ) → hash.get (λ k q. pointwise nat_eq k.items q.items) newest.new q
        ≡ (if pointwise nat_eq key.items q.items then before
        else hash.get (λ k q. pointwise nat_eq k.items q.items) newest.old q) }
{
    match before {
        Some(number) => {
            let _ = newest.insert(key, number);
        }
        None => {
            newest.remove(&key);
        }
    }
}

impl Dict {
    /// No words, and no memory yet.
    pub fn new(alloc: Global) -> Dict
        ensures { result ≡ [] }
    {
        Dict {
            headers: Vec::new(alloc),
            newest: HashMap::new(alloc),
        }
    }

    /// How many words were ever made.
    pub fn made(&self) -> usize
        ensures value { result ≡ length self.now }
        ensures fits { result ≤ capacity }
    {
        self.headers.len()
    }

    /// The newest word that still exists.
    pub fn newest(&self) -> Option<OwnWord>
        ensures newest { option_map (λ word. word.0) result ≡ newest self.now }
        ensures fits { IfSome result (λ word. word.0 < capacity) }
    {
        let mut number = self.headers.len();
        while number > 0 {
            number -= 1;
            if self.headers[number].is_there() {
                return Some(OwnWord(number as u32));
            }
        }
        None
    }

    /// Makes a word, neither immediate nor hidden, and answers its number, the next that was never
    /// used. A name has 1 to 31 bytes (Forth 2012, 3.3.1.2).
    ///
    /// `EmptyName` or `LongName` where the name isn't so, then `Full` where 8,192 words were made;
    /// `NoMemory` may stand in place of any. A refused word leaves nothing behind.
    pub fn add(&mut self, name: Option<&[u8]>, kind: Kind) -> Result<OwnWord, DictFault>
        ensures added { Adds result self.old self.new (option_copied name.entry) kind }
        ensures fits { IfOk result (λ word. word.0 < capacity) }
    {
        match name {
            Some(name) => self.add_named(name, kind),
            None => self.add_nameless(kind),
        }
    }

    fn add_nameless(&mut self, kind: Kind) -> Result<OwnWord, DictFault>
        ensures added { Adds result self.old self.new None kind }
        ensures fits { IfOk result (λ word. word.0 < capacity) }
    {
        if self.headers.len() >= CAPACITY {
            return Err(DictFault::Full);
        }
        let number = self.headers.len() as u32;
        let word = Word {
            name: None,
            immediate: false,
            hidden: false,
            kind,
        };
        self.headers.push(Header::of(&word, None))?;
        Ok(OwnWord(number))
    }

    fn add_named(&mut self, name: &[u8], kind: Kind) -> Result<OwnWord, DictFault>
        ensures added { Adds result self.old self.new (Some name.now) kind }
        ensures fits { IfOk result (λ word. word.0 < capacity) }
    {
        if name.is_empty() {
            return Err(DictFault::EmptyName);
        }
        if name.len() > LONGEST_NAME {
            return Err(DictFault::LongName);
        }
        if self.headers.len() >= CAPACITY {
            return Err(DictFault::Full);
        }
        let number = self.headers.len() as u32;
        self.headers.reserve(1)?;
        let before = self.newest.insert(key_of(name), number)?;
        let word = Word {
            name: Some(Name::spelt(name)),
            immediate: false,
            hidden: false,
            kind,
        };
        self.headers.push(Header::of(&word, before)).unwrap();
        Ok(OwnWord(number))
    }

    /// The header of a number.
    #[inline(always)]
    fn header(&self, number: u32) -> Option<&Header>
        ensures { word_in (option_copied result) ≡ word_at self.now number }
    {
        self.headers.get(number as usize)
    }

    /// What a word does, with what it keeps.
    #[inline(always)]
    pub fn kind_of(&self, word: OwnWord) -> Option<Kind>
        ensures { result ≡ kind_in (word_at self.now word.0) }
    {
        self.header(word.0)?.kind()
    }

    /// Whether a word is executed while compiling.
    pub fn is_immediate(&self, word: OwnWord) -> bool
        ensures { result ≡ is_immediate_in (word_at self.now word.0) }
    {
        match self.header(word.0) {
            Some(header) => header.is_immediate(),
            None => false,
        }
    }

    fn is_hidden(&self, number: u32) -> bool
        ensures { result ≡ is_hidden_in (word_at self.now number) }
    {
        match self.header(number) {
            Some(header) => header.is_hidden(),
            None => false,
        }
    }

    /// The name of a word as it was spelt, whether it is hidden or not.
    pub fn name_of(&self, word: OwnWord) -> Option<&[u8]>
        ensures name { option_copied result ≡ name_in (word_at self.now word.0) }
        ensures fits { IfSome result (λ name. length name.now ≤ 31) }
    {
        self.header(word.0)?.name()
    }

    /// The newest word of a name that isn't hidden, whatever the case of ASCII letters (Forth
    /// 2012, 3.4.2).
    pub fn find(&self, name: &[u8]) -> Option<OwnWord>
        ensures found { option_map (λ word. word.0) result ≡ found self.now name.now }
        ensures fits { IfSome result (λ word. word.0 < capacity) }
    {
        self.visible_from(self.newest_named(name))
    }

    /// The newest word of a name, hidden or not.
    fn newest_named(&self, name: &[u8]) -> Option<u32>
        ensures { result ≡ newest_below (has_key self.now (lower name.now)) (length self.now) }
    {
        if name.len() > LONGEST_NAME {
            let _ = &self.newest;
            return None;
        }
        self.newest.get(&key_of(name)).copied()
    }

    /// The first word that isn't hidden, from one on to the older ones of its name.
    fn visible_from(&self, newest: Option<u32>) -> Option<OwnWord>
        requires { IsNamed self.now newest }
        ensures value { option_map (λ word. word.0) result ≡ visible_from self.now newest }
        ensures fits { IfSome result (λ word. word.0 < capacity) }
    {
        let mut at = newest;
        while let Some(number) = at {
            if !self.is_hidden(number) {
                return Some(OwnWord(number));
            }
            at = self.headers[number as usize].link();
        }
        None
    }

    /// What `words` prints in the place of a word. A name has the place of the oldest word that
    /// bears it and isn't hidden, and is spelt as the newest is. The other words print nothing: from
    /// the newest word on to the oldest these are the names that `words` prints (Forth 2012,
    /// 15.6.1.2465).
    pub fn listed(&self, word: OwnWord) -> Option<&[u8]>
        ensures { option_copied result ≡ listed self.now word.0 }
    {
        if self.is_hidden(word.0) {
            return None;
        }
        let name = self.name_of(word)?;
        if self.is_borne_before(word, name) {
            return None;
        }
        self.name_of(self.find(name)?)
    }

    /// Whether an older word that isn't hidden has the name of this one.
    fn is_borne_before(&self, word: OwnWord, name: &[u8]) -> bool
        requires { name_in (word_at self.now word.0) ≡ Some name.now }
        ensures { result ≡ is_some (newest_below (bears self.now name.now) word.0) }
    {
        self.visible_from(self.headers[word.0 as usize].link())
            .is_some()
    }

    fn change(&mut self, word: OwnWord, change: Change)
        ensures { self.new ≡ changed (after change) self.old word.0 }
    {
        let number = word.0 as usize;
        if number < self.headers.len() {
            self.headers[number].change(change);
        }
    }

    /// Gives a word another kind, as `to` does.
    #[inline(always)]
    pub fn set_kind(&mut self, word: OwnWord, kind: Kind)
        ensures { self.new ≡ changed (λ w. record w { kind = kind }) self.old word.0 }
    {
        self.change(word, Change::Kind(kind));
    }

    /// Makes a word immediate, as `immediate` does (Forth 2012, 6.1.1710).
    pub fn set_immediate(&mut self, word: OwnWord)
        ensures { self.new ≡ changed (λ w. record w { immediate = true }) self.old word.0 }
    {
        self.change(word, Change::Immediate);
    }

    /// Leaves a word out of every search and out of what `words` prints, as `:` does (Forth 2012,
    /// 6.1.0450).
    pub fn hide(&mut self, word: OwnWord)
        ensures { self.new ≡ changed (λ w. record w { hidden = true }) self.old word.0 }
    {
        self.change(word, Change::Hidden(true));
    }

    /// Lets a word be found again, as `;` does (Forth 2012, 6.1.0460).
    pub fn reveal(&mut self, word: OwnWord)
        ensures { self.new ≡ changed (λ w. record w { hidden = false }) self.old word.0 }
    {
        self.change(word, Change::Hidden(false));
    }

    /// Takes the newest word away, as a definition that is abandoned. Its number stays used.
    pub fn remove(&mut self)
        ensures { self.new ≡ removed self.old }
    {
        if let Some(word) = self.newest() {
            self.take_away(word);
        }
    }

    /// Forgets the latest word, as if it had never been made: its number is given again. It is for a caller who made a
    /// word and can't finish what that is for.
    pub fn take_back(&mut self)
        ensures { self.new ≡ take (length self.old - 1) self.old }
    {
        let Some(number) = self.headers.len().checked_sub(1) else {
            return;
        };
        let latest = OwnWord(number as u32);
        if self.newest() == Some(latest) {
            self.take_away(latest);
        }
        self.drop_latest();
    }

    /// Drops the latest word, whose name is in no search.
    fn drop_latest(&mut self)
        requires some { 0 < length self.old }
        requires nameless { name_in (word_at self.old (length self.old - 1)) ≡ None }
        ensures { self.new ≡ take (length self.old - 1) self.old }
    {
        let _ = self.headers.pop();
    }

    fn take_away(&mut self, word: OwnWord)
        requires { newest self.old ≡ Some word.0 }
        ensures { self.new ≡ slice_set self.old word.0 None }
    {
        let number = word.0 as usize;
        match self.name_of(word) {
            Some(name) => {
                let key = key_of(name);
                unlink(&mut self.newest, key, self.headers[number].link());
                self.headers[number].take_away();
            }
            None => self.headers[number].take_away(),
        }
    }
}
