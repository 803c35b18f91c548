//! What the calls of the dictionary say of one another, by the definitions that their contracts cite.
ghost use Rattle.of_dict.specs.Laws.{ChangesAreFound, NamesAreListedOnce, NewestIsFound};

/// A search gives the newest word that has the name and isn't hidden, whatever the case of ASCII
/// letters, and nothing exactly where there is none.
#[tactic(auto, using(crate::proofs::LawLemmas::newest_is_found))]
pub fn newest_is_found()
    ensures { NewestIsFound }
{}

/// What is found after a word was made, hidden, revealed or taken away.
#[tactic(auto, using(crate::proofs::LawLemmas::changes_are_found))]
pub fn changes_are_found()
    ensures { ChangesAreFound }
{}

/// Each name that is found is listed once, in the place where it was first borne, and spelt as it
/// was last defined.
#[tactic(auto, using(crate::proofs::LawLemmas::names_are_listed_once))]
pub fn names_are_listed_once()
    ensures { NamesAreListedOnce }
{}
