// A law has no parameters and does nothing: its contract is the law.

ghost use Rattle.of_see_runs.specs.Alike.{SeeReadsBack};
ghost use Rattle.of_see_runs.specs.Remade.{PrintedWordsAreRemade};

use of_compile::PlainItem;
use of_control::{closed_is_read, compiled_is_flat};
use of_eval::words_are_executed;
use of_fcodes::written_words_are_found;
use of_see_laws::{printed_definitions_have_their_bodies, text_scans_back};

/// The words of a text that compile printed elements, read and done step by step while a definition is open, compile
/// these elements again, up to the addresses of strings and with calls of itself as calls of itself, if none throws.
pub fn printed_words_are_remade()
    ensures { PrintedWordsAreRemade }
{
    words_are_executed();
    written_words_are_found();
}

/// What `see` prints of a finished definition, read and done word by word, opens a definition and compiles into it
/// elements that have a body, whose items are those of the printed one, with the same targets, up to the addresses of
/// strings and with calls of itself as calls of itself; behind it stands `;`. It asks that names find there what they
/// found when it was printed. Where no definition is open and the words that it names are words, none of its own words
/// throws, unless the data stack, the words, the code or the data space have no room.
pub fn see_reads_back()
    ensures { SeeReadsBack }
{
    printed_definitions_have_their_bodies();
    text_scans_back();
    printed_words_are_remade();
    closed_is_read::<PlainItem, 32>();
    compiled_is_flat::<PlainItem, 32>();
    words_are_executed();
    written_words_are_found();
}
