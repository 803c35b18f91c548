use crate::query::Query;
use of_stacks::{Stop, Throw};
use std::alloc::AllocError;

/// Why a word that may ask did not run to its end. Nothing has changed.
#[derive(Clone, Copy)]
pub enum Halt {
    /// It throws.
    Thrown(Throw),
    /// A growth of memory was refused; no word of this crate asks for one.
    NoMemory,
    /// It asks, and is run again when the answer is at hand.
    Asks(Query),
}

impl From<Throw> for Halt {
    ghost use Rattle.std.specs.Prelude.{◌≡◌};
    ghost use Rattle.of_asking.specs.declared.halt.Halt.TheVariants.{Thrown};

    ghost from_gives = { λ t e. e ≡ Thrown t };

    fn from(fault: Throw) -> Halt {
        Halt::Thrown(fault)
    }
}

impl From<Stop> for Halt {
    ghost use Rattle.std.specs.Prelude.{◌≡◌};
    ghost use Rattle.of_asking.specs.Questions.{halted};

    ghost from_gives = { λ s e. e ≡ halted s };

    fn from(stop: Stop) -> Halt {
        match stop {
            Stop::Thrown(fault) => Halt::Thrown(fault),
            Stop::NoMemory => Halt::NoMemory,
        }
    }
}

impl From<AllocError> for Halt {
    ghost use Rattle.std.specs.Prelude.{◌≡◌};
    ghost use Rattle.of_asking.specs.declared.halt.Halt.TheVariants.{NoMemory};

    ghost from_gives = { λ _ e. e ≡ NoMemory };

    fn from(_refused: AllocError) -> Halt {
        Halt::NoMemory
    }
}
