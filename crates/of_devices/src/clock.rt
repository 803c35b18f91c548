ghost use Rattle.std.specs.Prelude.{◌≡◌, true};
ghost use Rattle.of_asking.specs.Questions.{fits};
ghost use Rattle.of_devices.specs.Clocks.{clock_after, clock_answer, is_of_time};

use crate::rack::nothing;
use of_asking::{Answer, Query};
use std::marker::Model;

/// A clock: its first answer is 0 milliseconds, and each next one is a millisecond later. Behind 2^32 - 1 comes 0.
#[derive(Drop)]
pub struct Clock {
    time: u32,
}

// Clauses see the time that it answers next.
impl Model for Clock {
    ghost use Rattle.std.specs.Prelude.{ℕ};

    ghost Value = { ℕ };

    ghost view = { λ c. c.time };
}

/// Whether a clock takes a question.
pub(crate) fn is_of_time(query: Query) -> bool
    ensures { result ≡ is_of_time query }
{
    match query {
        Query::Read(_, _) => false,
        Query::Write(_, _, _) => false,
        Query::Peek(_, _) => false,
        Query::Poke(_, _, _) => false,
        Query::Key => false,
        Query::KeyReady => false,
        Query::Milliseconds => true,
        Query::Wait(_) => false,
    }
}

impl Clock {
    /// A clock that was not asked yet.
    pub fn new() -> Clock
        ensures { result ≡ 0 }
    {
        Clock { time: 0 }
    }

    /// A clock with the same time.
    pub(crate) fn copy(&self) -> Clock
        ensures { result ≡ self.now }
    {
        Clock { time: self.time }
    }

    /// The time, which is one millisecond later from then on.
    fn tick(&mut self) -> Answer
        ensures answer { result ≡ clock_answer self.old Query.Milliseconds }
        ensures fits { fits Query.Milliseconds result ≡ true }
        ensures time { self.new ≡ clock_after self.old Query.Milliseconds }
    {
        let time = self.time;
        self.time = time.wrapping_add(1);
        Answer::Value(time)
    }

    /// Its answer to a question.
    pub(crate) fn answer(&mut self, query: Query) -> Answer
        ensures answer { result ≡ clock_answer self.old query }
        ensures fits { fits query result ≡ true }
        ensures time { self.new ≡ clock_after self.old query }
    {
        match query {
            Query::Read(_, _) => nothing(query),
            Query::Write(_, _, _) => nothing(query),
            Query::Peek(_, _) => nothing(query),
            Query::Poke(_, _, _) => nothing(query),
            Query::Key => nothing(query),
            Query::KeyReady => nothing(query),
            Query::Milliseconds => self.tick(),
            Query::Wait(_) => nothing(query),
        }
    }
}
