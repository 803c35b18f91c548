ghost use Rattle.std.specs.Prelude.{◌≡◌, [], true};
ghost use Rattle.of_asking.specs.Questions.{fits};
ghost use Rattle.of_devices.specs.Racks.{Meant, told};

use of_asking::{Answer, Query};

/// A device: which questions it takes, and what it answers.
///
/// What it answers follows from the questions that it was asked alone.
pub trait Device: Drop {
    /// Which questions it takes, and its answer to each behind others.
    ghost meant: { Self → Meant };

    /// Whether it takes a question.
    fn takes(&self, query: Query) -> bool
        ensures { result ≡ (meant self.now).takes query };

    /// Its answer to a question that it takes. An answer fits its question.
    fn answer(&mut self, query: Query) -> Answer
        requires { (meant self.old).takes query ≡ true }
        ensures answer { result ≡ (meant self.old).meaning [] query }
        ensures fits { fits query result ≡ true }
        ensures told { meant self.new ≡ told query (meant self.old) };
}
