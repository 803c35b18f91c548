// A law has no parameters and does nothing: its contract is the law.

ghost use Rattle.of_see_laws.specs.Finished.{PrintedDefinitionsHaveTheirBodies};
ghost use Rattle.of_see_laws.specs.ReadsBack.{PrintedElementsHaveTheBody};
ghost use Rattle.of_see_laws.specs.Scanning.{TextScansBack};

use of_compile::{PlainItem, compiles_reading};
use of_control::{
    closed_is_read, compiled_is_flat, items_are_counted, one_reading, places_stay_within,
};
use of_scan::words_are_read;
use of_see::{strings_read_back, words_read_back};
use of_text::stream_words_have_no_name;

/// What `see` prints of the cells of a definition has the body of the definition: the elements are matched, with never
/// more than 32 structures open, and are read as that body, for each body that some elements have.
#[tactic(auto, using(crate::proofs::Whole::printed_elements_have_the_body))]
pub fn printed_elements_have_the_body()
    ensures { PrintedElementsHaveTheBody }
{
    closed_is_read::<PlainItem, 32>();
    compiled_is_flat::<PlainItem, 32>();
    items_are_counted::<PlainItem, 32>();
    one_reading::<PlainItem, 32>();
    places_stay_within::<PlainItem, 32>();
}

/// What `see` prints of a finished definition, while another is open or none, is what it prints of the cells of its
/// body, and so has that body, if it is one that some elements have. Of a definition that was just ended it has the
/// body of the elements that were compiled.
#[tactic(auto, using(crate::proofs::FinishedWords::printed_definitions_have_their_bodies))]
pub fn printed_definitions_have_their_bodies()
    ensures { PrintedDefinitionsHaveTheirBodies }
{
    closed_is_read::<PlainItem, 32>();
    compiles_reading();
    printed_elements_have_the_body();
}

/// The words of what `see` prints of a definition are `:` with its name, words that compile its elements one behind the
/// other, and `;`, where no own word bears the name of a word that `see` prints with.
#[tactic(auto, using(crate::proofs::ScansBack::text_scans_back))]
pub fn text_scans_back()
    ensures { TextScansBack }
{
    words_are_read();
    stream_words_have_no_name();
    words_read_back();
    strings_read_back();
}
