ghost use Rattle.std.specs.Prelude.{◌≡◌};
ghost use Rattle.of_check.specs.Findings.{position_of};

use of_fcodes::FCode;
use of_stream::StreamFault;

/// What is wrong with an image, and where: positions count its bytes from 0.
#[derive(Clone, Copy)]
pub enum Finding {
    /// The image can't be opened (IEEE 1275-1994, 5.2.2.5): it is shorter than a header, or its first byte begins none.
    Unopened(StreamFault),
    /// The header says another checksum than the sum of the bytes behind it, up to its length and modulo 65,536.
    Sum {
        /// What the header says.
        said: usize,
        /// What the sum is.
        actual: usize,
    },
    /// The header says more bytes than the image has.
    Cut {
        /// What the header says.
        said: usize,
        /// How many bytes the image has.
        actual: usize,
    },
    /// The header says fewer bytes than the image has.
    Longer {
        /// What the header says.
        said: usize,
        /// How many bytes stand behind them.
        more: usize,
    },
    /// The image ends within the token at this position, or within its operand.
    Unread(usize),
    /// The image ends at this position, and no `end0` or `end1` stands before.
    Endless(usize),
    /// The offset of a branch leads before the first token, or to the end of the image or past it (5.2.2 and 5.3.3.2).
    Outside {
        /// Where the branch stands.
        position: usize,
        /// The FCode of the branch.
        code: FCode,
        /// How far it leads, counted from the first byte of the offset.
        by: i16,
    },
    /// The definition that the `b(:)` at this position opens isn't a nest of control structures (5.3.3.2): at its
    /// `b(;)` -22 is thrown.
    Unnested(usize),
    /// An FCode of 0x800 to 0xFFF is a word's, and no `new-token`, `named-token` or `external-token` before it makes
    /// that word (5.2.2.2 and 5.3.3.1).
    Unmade {
        /// Where it stands.
        position: usize,
        /// The FCode.
        code: FCode,
    },
}

impl Finding {
    /// Where it is: 0 for an image that can't be opened, 2 and 4 for the sum and the length of its header, else where
    /// the token stands or is to stand.
    pub fn position(self) -> usize
        ensures { result ≡ position_of self }
    {
        match self {
            Finding::Unopened(_) => 0,
            Finding::Sum { .. } => 2,
            Finding::Cut { .. } | Finding::Longer { .. } => 4,
            Finding::Unread(position) | Finding::Endless(position) | Finding::Unnested(position) =>
                position,
            Finding::Outside { position, .. } | Finding::Unmade { position, .. } => position,
        }
    }
}
