// A function without parameters does nothing: its contract is a law.

ghost use Rattle.of_margin.specs.Margin.{LinesHaveMargins};

/// Each line of a listing stands as it is, what is beside it behind.
#[tactic(auto, using(crate::proofs::MarginLemmas::lines_have_margins))]
pub fn lines_have_margins()
    ensures { LinesHaveMargins }
{}
