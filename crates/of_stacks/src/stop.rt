use crate::throws::Throw;
use std::alloc::AllocError;

/// Why a word did not run to its end. Nothing has changed.
#[derive(Clone, Copy, Debug, PartialEq, Eq)]
pub enum Stop {
    /// It throws.
    Thrown(Throw),
    /// A growth of memory was refused.
    NoMemory,
}

impl From<Throw> for Stop {
    ghost use Rattle.std.specs.Prelude.{◌≡◌};
    ghost use Rattle.of_stacks.specs.declared.stop.Stop.TheVariants.{Thrown};

    ghost from_gives = { λ t e. e ≡ Thrown t };

    fn from(fault: Throw) -> Stop {
        Stop::Thrown(fault)
    }
}

impl From<AllocError> for Stop {
    ghost use Rattle.std.specs.Prelude.{◌≡◌};
    ghost use Rattle.of_stacks.specs.declared.stop.Stop.TheVariants.{NoMemory};

    ghost from_gives = { λ _ e. e ≡ NoMemory };

    fn from(_refused: AllocError) -> Stop {
        Stop::NoMemory
    }
}
