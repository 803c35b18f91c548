// A law has no parameters and does nothing: its contract is the law.

ghost use Rattle.of_fcodes.specs.Finding.{FindsEachWord};
ghost use Rattle.of_fcodes.specs.Lookup.{FindsEachRow};
ghost use Rattle.of_fcodes.specs.Tokens.{TableIsMap};

/// Each row is found by its number and by its name: `name_of` and `fcode_of` are each other's
/// inverse on what is listed.
pub fn names_and_numbers()
    ensures { FindsEachRow }
{}

/// Each written word is found by its execution token, by no other number, and by its name; and the
/// word that an FCode names has the FCode's name. The words of each class stand together.
#[tactic(auto, using(crate::proofs::WrittenLemmas::words_found))]
pub fn written_words_are_found()
    ensures { FindsEachWord }
{}

/// The token table is a finite map from FCodes to entries, with the listed FCodes at first.
#[tactic(auto, using(crate::proofs::TokenLemmas::table_is_map))]
pub fn table_is_map()
    ensures { TableIsMap }
{}
