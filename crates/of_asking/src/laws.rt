// A law has no parameters and does nothing: its contract is the law.
ghost use Rattle.of_asking.specs.Images.{ImagesStayAsked};
ghost use Rattle.of_asking.specs.Listed.{ThrowListedNumbers};
ghost use Rattle.of_asking.specs.Said.{QuestionsAreSaid};
ghost use Rattle.of_asking.specs.Settling.{AnswersSettle};

use of_memory::{
    changes_stay_sound, images_change_by_images_alone, properties_change_by_puts_alone,
};
use of_prims::prims_throw_listed;

/// With an answer at hand no word asks: where it would, the answer decides about the data stack and about nothing
/// else, and where it wouldn't, it isn't looked at. An answer that fits throws -258 where it is the BusFault of a read
/// or a write, -3 where it is a peek's number for which there is no room, and never else.
#[tactic(auto, using(crate::proofs::SettlingLemmas::answers_settle))]
pub fn answers_settle()
    ensures { AnswersSettle }
{}

/// Which words ask what, and when. A register has an address that is a multiple of its width, with all bytes from
/// 0x80000000 to 0xBFFFFFFF, and none of the data space; the number to be written is the low bytes of the cell.
#[tactic(auto, using(crate::proofs::SaidLemmas::questions_are_said))]
pub fn questions_are_said()
    ensures { QuestionsAreSaid }
{}

/// What these words throw has one of the numbers that words raise of themselves.
pub fn asking_words_throw_listed()
    ensures { ThrowListedNumbers }
{
    prims_throw_listed();
}

/// A word that doesn't throw or ask leaves the images that run and the properties with their bytes as they were, and
/// the device tree; and a sound data space sound.
pub fn images_stay_asked()
    ensures { ImagesStayAsked }
{
    changes_stay_sound();
    images_change_by_images_alone();
    properties_change_by_puts_alone();
}
