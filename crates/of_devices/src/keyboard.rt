ghost use Rattle.std.specs.Prelude.{◌≡◌, true, IfOk};
ghost use Rattle.of_asking.specs.Questions.{fits};
ghost use Rattle.of_devices.specs.Keyboards.{is_of_keys, keys_after, keys_answer};

use crate::rack::nothing;
use of_asking::{Answer, Query};
use std::alloc::{AllocError, Global};
use std::marker::Model;

/// A keyboard with keys that were typed already, each a byte.
#[derive(Drop)]
pub struct Keyboard {
    keys: Vec<u8>,
    /// How many keys were taken away.
    taken: usize,
}

// Clauses see the keys that are left, the next one first.
impl Model for Keyboard {
    ghost use Rattle.std.specs.Prelude.{ℕ, ◌≤◌, List, drop, length};

    ghost Value = { List ℕ };

    ghost view = { λ k. drop k.taken k.keys.items };

    ghost invariant = { λ k. k.taken ≤ length k.keys.items };
}

/// Whether a keyboard takes a question.
pub(crate) fn is_of_keys(query: Query) -> bool
    ensures { result ≡ is_of_keys query }
{
    match query {
        Query::Read(_, _) => false,
        Query::Write(_, _, _) => false,
        Query::Peek(_, _) => false,
        Query::Poke(_, _, _) => false,
        Query::Key => true,
        Query::KeyReady => true,
        Query::Milliseconds => false,
        Query::Wait(_) => false,
    }
}

impl Keyboard {
    /// A keyboard with these keys, the first the next.
    ///
    /// A refused allocation is the error.
    pub fn new(alloc: Global, keys: &[u8]) -> Result<Keyboard, AllocError>
        ensures { IfOk result (λ k. k ≡ keys.now) }
    {
        Ok(Keyboard {
            keys: Vec::from_slice(alloc, keys)?,
            taken: 0,
        })
    }

    /// A keyboard with the keys that are left.
    ///
    /// A refused allocation is the error.
    pub(crate) fn copy(&self, alloc: Global) -> Result<Keyboard, AllocError>
        ensures { IfOk result (λ k. k ≡ self.now) }
    {
        Keyboard::new(alloc, &self.keys[self.taken..])
    }

    /// The next key, which it takes away: 0 where there is none.
    fn key(&mut self) -> Answer
        ensures answer { result ≡ keys_answer self.old Query.Key }
        ensures fits { fits Query.Key result ≡ true }
        ensures keys { self.new ≡ keys_after self.old Query.Key }
    {
        if self.taken < self.keys.len() {
            let key = self.keys[self.taken];
            self.taken += 1;
            Answer::Value(u32::from(key))
        } else {
            Answer::Value(0)
        }
    }

    /// Whether there is a key, 1 or 0.
    fn ready(&self) -> Answer
        ensures answer { result ≡ keys_answer self.now Query.KeyReady }
        ensures fits { fits Query.KeyReady result ≡ true }
    {
        if self.taken < self.keys.len() {
            Answer::Value(1)
        } else {
            Answer::Value(0)
        }
    }

    /// Its answer to a question.
    pub(crate) fn answer(&mut self, query: Query) -> Answer
        ensures answer { result ≡ keys_answer self.old query }
        ensures fits { fits query result ≡ true }
        ensures keys { self.new ≡ keys_after self.old query }
    {
        match query {
            Query::Read(_, _) => nothing(query),
            Query::Write(_, _, _) => nothing(query),
            Query::Peek(_, _) => nothing(query),
            Query::Poke(_, _, _) => nothing(query),
            Query::Key => self.key(),
            Query::KeyReady => self.ready(),
            Query::Milliseconds => nothing(query),
            Query::Wait(_) => nothing(query),
        }
    }
}
