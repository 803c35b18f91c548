// A law has no parameters and does nothing: its contract is the law.
ghost use Rattle.of_words.specs.Listed.{ThrowListedNumbers};
ghost use Rattle.of_words.specs.Sequences.{ConsoleWordsAreSequences};
ghost use Rattle.of_words.specs.SpaceKept.{ConsoleWordsKeepTheSpace};

use of_calc::calculations_throw_listed;
use of_cells::floored_division;
use of_memory::{
    changes_stay_sound, images_change_by_images_alone, properties_change_by_puts_alone,
    scratch_is_open, writes_join,
};
use of_nodes::stored_stays;
use of_prims::prims_throw_listed;

/// Each of the console's words leaves what the words and numbers leave that the standard gives for it, such as `1 +`
/// for `1+` and `0 fill` for `erase`. Where there are none, the law says it by itself: `allot` moves `here` by a signed
/// number, and `*/mod` divides the whole product. Only `space` and `spaces` may find no memory.
pub fn console_words_are_sequences()
    ensures { ConsoleWordsAreSequences }
{
    floored_division();
    scratch_is_open();
    writes_join();
}

/// What the console's words throw has one of the numbers that words raise of themselves.
#[tactic(auto, using(crate::proofs::ConsoleListed::throw_listed_numbers))]
pub fn console_words_throw_listed()
    ensures { ThrowListedNumbers }
{
    calculations_throw_listed();
    prims_throw_listed();
}

/// A word of the console that doesn't throw leaves a sound data space sound, the images that run and their bytes as
/// they were, and the properties of the tree stored if they were.
pub fn console_words_keep_the_space()
    ensures { ConsoleWordsKeepTheSpace }
{
    changes_stay_sound();
    images_change_by_images_alone();
    properties_change_by_puts_alone();
    scratch_is_open();
    stored_stays();
}
