// A function without parameters does nothing: its contract is a law.

ghost use Rattle.of_text.specs.Laws.{StreamWordsHaveNoName};

/// Each written word is found by its name, but for the 32 that only images have: these have none in a text.
#[tactic(auto, using(crate::proofs::NameLemmas::stream_words_have_no_name))]
pub fn stream_words_have_no_name()
    ensures { StreamWordsHaveNoName }
{}
