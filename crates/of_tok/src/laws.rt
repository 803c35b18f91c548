// A function without parameters does nothing: its contract is a law.

ghost use Rattle.of_tok.specs.Laws.{HeaderIsTheSum, ImageHasTokens, NestsEndAtTheirPlaces};
ghost use Rattle.of_tok.specs.Layout.{PassesGiveTokens};
ghost use Rattle.of_tok.specs.Origins.{TokensHaveOrigins};

use of_source::items_give_nest;
use of_stream::tokens_read_back;

/// Two passes over the items of a nest of words, places from the front and targets from the end,
/// give the tokens of the nest.
#[tactic(auto, using(crate::proofs::PassLemmas::tokens_laid))]
pub fn passes_give_tokens()
    ensures { PassesGiveTokens }
{}

/// The image of a source has the tokens of its nest behind the header, `end0` the last, and no
/// others, each at its place; each offset leads to its target, behind the header and before the end.
#[tactic(auto, using(crate::proofs::OrderLemmas::image_has_tokens))]
pub fn image_has_tokens()
    ensures { ImageHasTokens }
{
    items_give_nest();
    tokens_read_back();
}

/// The header of an image says the sum and the length of its bytes, and begins it with the source's
/// offset size.
#[tactic(auto, using(crate::proofs::HeaderLemmas::header_is_the_sum))]
pub fn header_is_the_sum()
    ensures { HeaderIsTheSum }
{}

/// What follows the tokens of a nest in an image stands where the nest ends.
#[tactic(auto, using(crate::proofs::FollowLemmas::nests_end))]
pub fn nests_end_at_their_places()
    ensures { NestsEndAtTheirPlaces }
{}

/// The tokens of an image are those of the items of its source, one item behind the other, and `end0`: so the header
/// and each token come from one word.
#[tactic(auto, using(crate::proofs::OriginLemmas::tokens_have_origins))]
pub fn tokens_have_origins()
    ensures { TokensHaveOrigins }
{
    items_give_nest();
}
