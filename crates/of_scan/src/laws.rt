// A function without parameters does nothing: its contract is a law.

ghost use Rattle.of_scan.specs.Laws.{PartsAreRead, StringsAreRead, WordsAreRead};
ghost use Rattle.of_scan.specs.Groups.{QuotedPartsAreRead};

/// A text of blanks and a word, which ends at a blank or at the end of the text, gives that word, with the position
/// of its first byte, and what follows it is left; a text of blanks alone gives none.
#[tactic(auto, using(crate::proofs::WordLemmas::words_are_read))]
pub fn words_are_read()
    ensures { WordsAreRead }
{}

/// A string or a comment begins behind one byte and goes on up to the first that ends it, all on one line, and what
/// follows that is left; nothing else is one.
#[tactic(auto, using(crate::proofs::StringLemmas::strings_are_read))]
pub fn strings_are_read()
    ensures { StringsAreRead }
{}

/// A string that no line ends goes up to the first byte that ends it, and what follows that is left; a text without
/// that byte is the whole string.
#[tactic(auto, using(crate::proofs::PartLemmas::parts_are_read))]
pub fn parts_are_read()
    ensures { PartsAreRead }
{}

/// The string of a word `"` is its bytes up to the first `"`, and where a group stands behind that, the bytes that its
/// pairs of digits say and the string behind the group; a text without `"` is the whole string.
#[tactic(auto, using(crate::proofs::GroupLemmas::quoted_parts_are_read))]
pub fn quoted_parts_are_read()
    ensures { QuotedPartsAreRead }
{}
