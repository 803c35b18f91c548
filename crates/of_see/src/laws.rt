// A law has no parameters and does nothing: its contract is the law.

ghost use Rattle.of_see.specs.Counts.{BeginsAreCounted, ThensAreCounted};
ghost use Rattle.of_see.specs.Laws.{PlainItemsAreListed, StringsReadBack, WordsReadBack};

use of_fcodes::written_words_are_found;
use of_format::texts_read_back;
use of_scan::{quoted_parts_are_read, words_are_read};

/// The items of a definition that goes on from each to the next are printed one by one, in their order.
#[tactic(auto, using(crate::proofs::PlainItems::plain_items_are_listed))]
pub fn plain_items_are_listed()
    ensures { PlainItemsAreListed }
{}

/// As many `begin`s are printed as items go back, where an item begins wherever one goes back to.
#[tactic(auto, using(crate::proofs::CountedBegins::begins_are_counted))]
pub fn begins_are_counted()
    ensures { BeginsAreCounted }
{}

/// As many `then`s are printed as branches go forward, where each goes to an item or to the end.
#[tactic(auto, using(crate::proofs::CountedThens::thens_are_counted))]
pub fn thens_are_counted()
    ensures { ThensAreCounted }
{}

/// A name that is printed of a call is read as that word, and compiles it; one that is printed behind `to` finds the
/// word that is stored into; and the digits behind `h#` are read as the number.
#[tactic(auto, using(crate::proofs::WordsBack::words_read_back))]
pub fn words_read_back()
    ensures { WordsReadBack }
{
    words_are_read();
    written_words_are_found();
    texts_read_back();
}

/// What is printed of a string is read as its bytes.
pub fn strings_read_back()
    ensures { StringsReadBack }
{
    quoted_parts_are_read();
}
