// A law has no parameters and does nothing: its contract is the law.
ghost use Rattle.of_instances.specs.Listed.{ThrowListedNumbers};
ghost use Rattle.of_instances.specs.Openings.{InstancesOpen};
ghost use Rattle.of_instances.specs.SpaceKept.{WordsKeepTheSpace};

use of_ihandles::{ihandles_are_new, instances_begin, instances_keep_the_space};
use of_memory::{
    changes_stay_sound, images_change_by_images_alone, properties_change_by_puts_alone,
};
use of_nodes::{properties_keep_the_space, stored_stays};

/// What these words throw has one of the numbers that words raise of themselves.
#[tactic(auto, using(crate::proofs::ListedWords::throw_listed_numbers))]
pub fn tree_words_throw_listed()
    ensures { ThrowListedNumbers }
{}

/// A word that doesn't throw leaves a sound data space sound, the images that run and their bytes as they were, and
/// the properties of the tree stored if they were.
pub fn words_keep_the_space()
    ensures { WordsKeepTheSpace }
{
    changes_stay_sound();
    images_change_by_images_alone();
    properties_change_by_puts_alone();
    properties_keep_the_space();
    stored_stays();
    instances_keep_the_space();
}

/// An opening makes a new instance of its package, below the current one, with the arguments that stood in memory.
pub fn instances_open()
    ensures { InstancesOpen }
{
    ihandles_are_new();
    instances_begin();
    words_keep_the_space();
}
