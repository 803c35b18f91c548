use of_source::Place;
use std::alloc::AllocError;
use thiserror::Error;

/// Why a text has no calls, no answers, no devices or no commands of a debugger: the first word that fits nowhere; or
/// no console lines.
#[derive(Clone, Copy, Debug, PartialEq, Eq, Error)]
pub enum TextFault {
    /// Here stands the first word of a line, or none, and it names no service, no answer, no device or no command.
    #[error("unknown word")]
    Unknown(Place),

    /// Here stands a name or a path with a carriage return in it.
    #[error("bad name")]
    BadName(Place),

    /// Here a number or bytes stand that can't be read or are too many, or that no cell holds, or none where some are
    /// missing.
    #[error("bad number")]
    BadNumber(Place),

    /// Here a word stands behind the last that the line takes.
    #[error("a word too many")]
    TooMany(Place),

    /// Here the first byte stands that a console line has no room for.
    #[error("line too long")]
    TooLong(Place),

    /// A growth was refused.
    #[error("no memory")]
    NoMemory,
}

impl From<AllocError> for TextFault {
    ghost use Rattle.std.specs.Prelude.{◌≡◌};
    ghost use Rattle.of_calls.specs.declared.fault.TextFault.TheVariants.{NoMemory};

    ghost from_gives = { λ _ e. e ≡ NoMemory };

    fn from(_error: AllocError) -> TextFault {
        TextFault::NoMemory
    }
}
