//! What the calls of every store say of one another, by the definitions that their contracts cite.
ghost use Rattle.of_code.specs.Laws.{AbandonedItemsAreForgotten, AppendedItemsAreFound, FinishedWordsAreBound};
ghost use Rattle.of_code.specs.Laws.{TargetsChangeAlone};

/// An item that was appended begins at the answered place, and the next place is the new end. All
/// other items stay.
#[tactic(auto, using(crate::proofs::CodeLemmas::appended_items_are_found))]
pub fn appended_items_are_found()
    ensures { AppendedItemsAreFound }
{}

/// A new target changes the target of the one item. All other items and all places stay.
#[tactic(auto, using(crate::proofs::CodeLemmas::targets_change_alone))]
pub fn targets_change_alone()
    ensures { TargetsChangeAlone }
{}

/// A finished word begins where its definition was opened and ends with a return. All items and
/// the places of the other words stay, and nothing is left to abandon.
#[tactic(auto, using(crate::proofs::CodeLemmas::finished_words_are_bound))]
pub fn finished_words_are_bound()
    ensures { FinishedWordsAreBound }
{}

/// Once abandoned, a definition has no item, whatever was appended to it. All finished items and
/// the places of the words stay.
#[tactic(auto, using(crate::proofs::CodeLemmas::abandoned_items_are_forgotten))]
pub fn abandoned_items_are_forgotten()
    ensures { AbandonedItemsAreForgotten }
{}
