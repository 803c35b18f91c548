ghost use Rattle.std.specs.Prelude.{◌≡◌};
ghost use Rattle.of_tok.specs.Shown.{written_shown};
ghost use Rattle.of_tok.specs.Tokens.{straight, aimed};

use crate::place::Place;
use of_fcodes::FCode;
use of_stream::{Argument, OffsetSize, Token};

/// A token whose offset leads to a position.
#[derive(Clone, Copy)]
pub struct Aim {
    /// The position of its word in the text of the source.
    pub word: usize,
    /// Where it stands.
    pub place: Place,
    /// Its FCode.
    pub code: FCode,
    /// The position to which its offset leads.
    pub target: usize,
}

/// A token as it is written.
#[derive(Clone, Copy)]
pub enum Written<'a> {
    /// A token without an offset, under the size that offsets have there.
    Straight(OffsetSize, Token<'a>),
    /// A token with an offset.
    Aimed(Aim),
}

/// The token of an FCode alone at a place.
pub fn straight<'a>(code: FCode, place: Place) -> Written<'a>
    ensures { written_shown result ≡ straight code.0 place }
{
    Written::Straight(
        place.size,
        Token {
            code,
            argument: Argument::Nothing,
        },
    )
}

/// The token of an FCode at a place whose offset leads to a position.
pub fn aimed<'a>(word: usize, code: FCode, place: Place, target: usize) -> Written<'a>
    ensures { written_shown result ≡ aimed word code.0 place target }
{
    Written::Aimed(Aim {
        word,
        place,
        code,
        target,
    })
}
