use of_stream::StreamFault;
use std::alloc::AllocError;
use thiserror::Error;

/// Why an image has no listing, or a text is none.
#[derive(Clone, Copy, Debug, Error)]
pub enum DetokFault {
    /// The header of the image, or a token up to the end token, can't be read.
    #[error("{0}")]
    Stream(StreamFault),

    /// The line of this number, from 1, is not one of a listing.
    #[error("line {0}: not a line of a listing")]
    BadLine(usize),

    /// The growth of the text or of the image was refused.
    #[error("out of memory")]
    NoMemory,
}

impl From<AllocError> for DetokFault {
    ghost use Rattle.std.specs.Prelude.{◌≡◌};
    ghost use Rattle.of_detok.specs.declared.fault.DetokFault.TheVariants.{NoMemory};

    ghost from_gives = { λ _ e. e ≡ NoMemory };

    fn from(_error: AllocError) -> DetokFault {
        DetokFault::NoMemory
    }
}

impl From<StreamFault> for DetokFault {
    ghost use Rattle.std.specs.Prelude.{◌≡◌};
    ghost use Rattle.of_detok.specs.declared.fault.DetokFault.TheVariants.{Stream};

    ghost from_gives = { λ f e. e ≡ Stream f };

    fn from(fault: StreamFault) -> DetokFault {
        DetokFault::Stream(fault)
    }
}
