//! The headers of words, as they stand in memory.
ghost use Rattle.std.specs.Prelude.{◌≡◌, ◌<◌, ◌≤◌, List, ℕ, length, is_some, option_copied, IfSome, Some, None};
ghost use Rattle.of_dict.specs.Calls.{changed_in};
ghost use Rattle.of_dict.specs.Headers.{kind_with, link_in, named, number_in};
ghost use Rattle.of_dict.specs.Index.{after};
ghost use Rattle.of_dict.specs.Words.{capacity, is_hidden_in, is_immediate_in, kind_in, name_in};

use crate::word::{Change, Kind, Slot, Word};
use of_cells::Cell;
use std::marker::Model;

/// The link of a header before which no word has its name.
const NO_LINK: u32 = 0xFFFF_FFFF;

/// What a word does, in a byte; what it keeps for that stands beside it.
#[derive(Clone, Copy)]
pub(crate) enum Form {
    Colon,
    Constant,
    Value,
    Variable,
    Create,
    Defer,
    Buffer,
    Field,
    SlotValue,
    SlotVariable,
    SlotBuffer,
    SlotDefer,
}

/// The header of a word: 44 bytes, one after another, in which a number has its high byte first.
#[derive(Drop)]
pub(crate) struct Header {
    /// The number of the word before it that has its name, or `NO_LINK`.
    link: [u8; 4],

    /// The number that it keeps for what it does.
    kept: [u8; 4],

    /// What it does.
    form: Form,

    /// Whether the word is there: not where it was taken away.
    there: bool,

    /// Whether it is executed while compiling.
    immediate: bool,

    /// Whether it is left out of every search.
    hidden: bool,

    /// How many bytes its name has; none where it has no name.
    length: u8,

    /// Where its name stands.
    name: [u8; 31],
}

// Clauses see the word of a header, and the number of the word before it.
impl Model for Header {
    ghost use Rattle.std.specs.Prelude.{◌≤◌, Some, None, if◌then◌else◌};
    ghost use Rattle.of_dict.specs.Headers.{Entry, kind_with, link_in, named, number_in};

    ghost Value = { Entry };

    ghost view = { λ h. record {
      word = if h.there then Some (record {
        name = named h.length h.name;
        immediate = h.immediate;
        hidden = h.hidden;
        kind = kind_with h.form (number_in h.kept);
      }) else None;
      link = link_in (number_in h.link);
    } };

    ghost invariant = { λ h. h.length ≤ 31 };
}

/// What a word does, by its byte, with the number that it keeps.
#[inline(always)]
fn kind_with(form: Form, number: u32) -> Kind
    ensures { result ≡ kind_with form number }
{
    match form {
        Form::Colon => Kind::Colon { start: number },
        Form::Constant => Kind::Constant {
            value: Cell(number),
        },
        Form::Value => Kind::Value {
            value: Cell(number),
        },
        Form::Variable => Kind::Variable {
            address: Cell(number),
        },
        Form::Create => Kind::Create {
            address: Cell(number),
        },
        Form::Defer => Kind::Defer { xt: Cell(number) },
        Form::Buffer => Kind::Buffer {
            address: Cell(number),
        },
        Form::Field => Kind::Field {
            offset: Cell(number),
        },
        Form::SlotValue => Kind::PerInstance {
            slot: Slot::Value,
            number,
        },
        Form::SlotVariable => Kind::PerInstance {
            slot: Slot::Variable,
            number,
        },
        Form::SlotBuffer => Kind::PerInstance {
            slot: Slot::Buffer,
            number,
        },
        Form::SlotDefer => Kind::PerInstance {
            slot: Slot::Defer,
            number,
        },
    }
}

/// The byte for what a word does, and the number that it keeps.
fn parts_of(kind: Kind) -> (Form, u32)
    ensures { kind_with result.0 result.1 ≡ kind }
{
    match kind {
        Kind::Colon { start } => (Form::Colon, start),
        Kind::Constant { value } => (Form::Constant, value.0),
        Kind::Value { value } => (Form::Value, value.0),
        Kind::Variable { address } => (Form::Variable, address.0),
        Kind::Create { address } => (Form::Create, address.0),
        Kind::Defer { xt } => (Form::Defer, xt.0),
        Kind::Buffer { address } => (Form::Buffer, address.0),
        Kind::Field { offset } => (Form::Field, offset.0),
        Kind::PerInstance { slot, number } => match slot {
            Slot::Value => (Form::SlotValue, number),
            Slot::Variable => (Form::SlotVariable, number),
            Slot::Buffer => (Form::SlotBuffer, number),
            Slot::Defer => (Form::SlotDefer, number),
        },
    }
}

/// The bytes of a link.
fn link_bytes(link: Option<u32>) -> [u8; 4]
    requires { IfSome link (λ n. n < capacity) }
    ensures { link_in (number_in result) ≡ link }
{
    match link {
        Some(number) => number.to_be_bytes(),
        None => NO_LINK.to_be_bytes(),
    }
}

/// A name in its place, and how many bytes it has.
fn name_bytes(name: Option<&[u8]>) -> (u8, [u8; 31])
    requires { IfSome name (λ n. (0 < length n.now) × (length n.now ≤ 31)) }
    ensures named { named result.0 result.1 ≡ option_copied name.entry }
    ensures fits { result.0 ≤ 31 }
{
    let mut bytes = [0; 31];
    let Some(name) = name else {
        return (0, bytes);
    };
    bytes[..name.len()].copy_from_slice(name);
    (name.len() as u8, bytes)
}

impl Header {
    /// The header of a word, with the number of the word before it that has its name.
    pub(crate) fn of(word: &Word, link: Option<u32>) -> Header
        requires named { (name : List ℕ) → word.now.name ≡ Some name → 0 < length name }
        requires linked { IfSome link (λ n. n < capacity) }
        ensures { result ≡ record { word = Some word.now; link = link } }
    {
        let (form, kept) = parts_of(word.kind);
        let (length, name) = match &word.name {
            Some(name) => name_bytes(Some(name.as_bytes())),
            None => name_bytes(None),
        };
        Header {
            link: link_bytes(link),
            kept: kept.to_be_bytes(),
            form,
            there: true,
            immediate: word.immediate,
            hidden: word.hidden,
            length,
            name,
        }
    }

    /// Whether its word is there.
    #[inline(always)]
    pub(crate) fn is_there(&self) -> bool
        ensures { result ≡ is_some self.now.word }
    {
        self.there
    }

    /// The number of the word before it that has its name.
    #[inline(always)]
    pub(crate) fn link(&self) -> Option<u32>
        ensures { result ≡ self.now.link }
    {
        let number = u32::from_be_bytes(self.link);
        if number == NO_LINK {
            None
        } else {
            Some(number)
        }
    }

    /// What its word does, with what it keeps.
    #[inline(always)]
    pub(crate) fn kind(&self) -> Option<Kind>
        ensures { result ≡ kind_in self.now.word }
    {
        if !self.there {
            return None;
        }
        Some(kind_with(self.form, u32::from_be_bytes(self.kept)))
    }

    /// Whether its word is executed while compiling.
    #[inline(always)]
    pub(crate) fn is_immediate(&self) -> bool
        ensures { result ≡ is_immediate_in self.now.word }
    {
        self.there && self.immediate
    }

    /// Whether its word is left out of every search.
    #[inline(always)]
    pub(crate) fn is_hidden(&self) -> bool
        ensures { result ≡ is_hidden_in self.now.word }
    {
        self.there && self.hidden
    }

    /// The name of its word, as it was spelt.
    pub(crate) fn name(&self) -> Option<&[u8]>
        ensures name { option_copied result ≡ name_in self.now.word }
        ensures fits { IfSome result (λ name. length name.now ≤ 31) }
    {
        if !self.there || self.length == 0 {
            return None;
        }
        Some(&self.name[..self.length as usize])
    }

    /// Changes its word, if that is there.
    #[inline(always)]
    pub(crate) fn change(&mut self, change: Change)
        ensures { self.new ≡ record self.old { word = changed_in (after change) self.old.word } }
    {
        match change {
            Change::Kind(kind) => {
                let (form, kept) = parts_of(kind);
                self.form = form;
                self.kept = kept.to_be_bytes();
            }
            Change::Immediate => self.immediate = true,
            Change::Hidden(hidden) => self.hidden = hidden,
        }
    }

    /// Takes its word away.
    pub(crate) fn take_away(&mut self)
        ensures { self.new ≡ record self.old { word = None } }
    {
        self.there = false;
    }
}
