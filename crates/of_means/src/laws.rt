// A law has no parameters and does nothing: its contract is the law.
ghost use Rattle.of_compile.specs.Structured.{Definitions};
ghost use Rattle.of_means.specs.Accepted.{SourcesBehave, WordsAreFollowed};
ghost use Rattle.of_means.specs.Kept.{IsKept};
ghost use Rattle.of_means.specs.Laws.{SourceIsFollowed};
ghost use Rattle.of_means.specs.Outputs.{SourcesPrintAlike};

use of_eval_laws::{
    images_are_readings, images_run, space_stays_sound, stack_leads_back, states_stay_placed,
    throws_settle, tokens_are_typed,
};
use of_meaning::body_of_nest;
use of_print_laws::printed_stays;
use of_source::{accepted_is_plain, items_give_nest, parsed_is_nested};
use of_tok::{header_is_the_sum, image_has_tokens, nests_end_at_their_places};

/// The image of a source does what the source means, and only that: it ends, throws and waits for an answer where the
/// source does, in the same state. These are premises: what is kept at the source stays so in each step; what a word
/// of the source started comes back to it; the tokens of a definition are read up to its end.
#[tactic(auto, using(crate::proofs::Main::source_is_followed))]
pub fn source_is_followed()
    ensures { SourceIsFollowed Definitions IsKept }
{
    throws_settle();
    tokens_are_typed();
    nests_end_at_their_places();
}

/// What a word of a source started comes back to the source, behind the word's token and within the same loops or some
/// of them, and the tokens of a definition are read up to its end, where its word gets the body of its nest: so these
/// premises hold of each source over structured definitions.
#[tactic(auto, using(crate::proofs::Whole::words_are_followed))]
pub fn words_are_followed()
    ensures { WordsAreFollowed }
{
    tokens_are_typed();
    throws_settle();
    stack_leads_back();
    states_stay_placed();
    space_stays_sound();
    images_are_readings();
    images_run();
    nests_end_at_their_places();
    body_of_nest();
}

/// The image of an accepted source does what the source means, and only that, from where it begins on: it ends,
/// throws, waits for an answer and goes on where the source does, in the same state.
#[tactic(auto, using(crate::proofs::Whole::sources_behave))]
pub fn sources_behave()
    ensures { SourcesBehave }
{
    tokens_are_typed();
    throws_settle();
    stack_leads_back();
    states_stay_placed();
    space_stays_sound();
    images_are_readings();
    images_run();
    nests_end_at_their_places();
    image_has_tokens();
    header_is_the_sum();
    parsed_is_nested();
    accepted_is_plain();
    items_give_nest();
    words_are_followed();
}

/// While the image of an accepted source and the source go on, what either has printed begins what the other prints: at
/// each bound the source has printed what the image has printed after some steps, and what the image has printed after
/// some steps begins what the source has printed at a bound as large.
#[tactic(auto, using(crate::proofs::Outputs::sources_print_alike))]
pub fn sources_print_alike()
    ensures { SourcesPrintAlike }
{
    sources_behave();
    printed_stays();
}
