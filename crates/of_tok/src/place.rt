ghost use Rattle.std.specs.Prelude.{◌≡◌, ◌≤◌, ◌<◌, ◌+◌, ◌^◌};
ghost use Rattle.of_stream.specs.Bytes.{IsEncodable};
ghost use Rattle.of_stream.specs.Decoding.{token_shown};
ghost use Rattle.of_tok.specs.Places.{behind, first_place, past, past_offset};

use of_stream::{HEADER_LENGTH, OffsetSize, Token};

/// Where a token stands in an image.
#[derive(Clone, Copy)]
pub struct Place {
    /// The position of its first byte.
    pub position: usize,
    /// The size that offsets have there.
    pub size: OffsetSize,
}

impl Place {
    /// The place behind the header.
    pub fn first(size: OffsetSize) -> Place
        ensures { result ≡ first_place size }
    {
        Place {
            position: HEADER_LENGTH,
            size,
        }
    }

    /// So many bytes on.
    pub fn past(self, count: usize) -> Place
        requires { self.position + count < 2 ^ 64 }
        ensures { result ≡ past count self }
    {
        Place {
            position: self.position + count,
            size: self.size,
        }
    }

    /// Behind a token that carries an offset.
    pub fn past_offset(self) -> Place
        requires { self.position ≤ 2 ^ 62 }
        ensures { result ≡ past_offset self }
    {
        self.past(1 + self.size.bytes())
    }

    /// Behind another token.
    #[tactic(auto, using(crate::proofs::Lengths::few))]
    pub fn behind(self, token: &Token<'_>) -> Place
        requires near { self.position ≤ 2 ^ 62 }
        requires bytes { IsEncodable self.size (token_shown token.now) }
        ensures value { result ≡ behind (token_shown token.now) self }
        ensures near { result.position ≤ self.position + 260 }
    {
        Place {
            position: self.position + token.length(self.size),
            size: token.size_behind(self.size),
        }
    }
}
