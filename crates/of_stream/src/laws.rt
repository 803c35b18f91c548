// A law has no parameters and does nothing: its contract is the law.

ghost use Rattle.of_stream.specs.Decoding.{TokenStandsAlone};
ghost use Rattle.of_stream.specs.Bytes.{TokensReadBack};

/// A token has bytes of its own, at least one, and whatever stands behind them it is read the
/// same: so positions rise, and decoding depends on the token's own bytes alone.
pub fn tokens_stand_alone()
    ensures { TokenStandsAlone }
{}

/// A token that has bytes is read back from them, whatever stands behind them; and each token that
/// is read from bytes was read from its own.
#[tactic(auto, using(crate::proofs::ReadBack::tokens_read_back))]
pub fn tokens_read_back()
    ensures { TokensReadBack }
{}
