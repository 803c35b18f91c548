// A law has no parameters and does nothing: its contract is the law.
ghost use Rattle.of_compile.specs.Structured.{Definitions};
ghost use Rattle.of_compile.specs.Coding.{Coding};
ghost use Rattle.of_eval_laws.specs.Asking.{MemoryIsAsked};
ghost use Rattle.of_eval_laws.specs.Calling.{CallsComeBack};
ghost use Rattle.of_eval_laws.specs.Structured.{MismatchIsNoBody, StepsAgree};
ghost use Rattle.of_eval_laws.specs.Frames.{FramesHold, TargetsCountLast};
ghost use Rattle.of_eval_laws.specs.Going.{CatchKeeps, DefinitionsRun, EndsGoBack, ItemsGo, ItemsThrow, LoadsBegin};
ghost use Rattle.of_eval_laws.specs.Homes.{NamesStayHome};
ghost use Rattle.of_eval_laws.specs.Images.{ImagesStand};
ghost use Rattle.of_eval_laws.specs.Listed.{StepsThrowListed, WordsThrowListed};
ghost use Rattle.of_eval_laws.specs.Placed.{StatesStayPlaced};
ghost use Rattle.of_eval_laws.specs.Questions.{QuestionsSettle};
ghost use Rattle.of_eval_laws.specs.Readings.{ImagesAreReadings};
ghost use Rattle.of_eval_laws.specs.Returning.{StackLeadsBack};
ghost use Rattle.of_eval_laws.specs.Running.{ImagesRun};
ghost use Rattle.of_eval_laws.specs.Sound.{SpaceStaysSound};
ghost use Rattle.of_eval_laws.specs.Throws.{ThrowsSettle};
ghost use Rattle.of_eval_laws.specs.Tokens.{DictionaryWordsKeep, ThrowTakes, TokensAreTyped, TokensCompile, TokensGo};

use of_asking::{answers_settle, asking_words_throw_listed, images_stay_asked};
use of_compile::{compiles_reading, runs_by_structure, structures_are_flat};
use of_eval::plans_unroll;
use of_ihandles::instances_keep_the_space;
use of_instances::{tree_words_throw_listed, words_keep_the_space};
use of_memory::{
    changes_stay_sound, images_change_by_images_alone, latest_is_pushed, parts_are_good,
    properties_change_by_puts_alone, scratch_is_open,
};
use of_nodes::{properties_keep_the_space, stored_stays};
use of_prims::prims_throw_listed;
use of_words::{console_words_keep_the_space, console_words_throw_listed};

/// What the ordinary words throw has one of the numbers that words raise of themselves.
#[tactic(auto, using(crate::proofs::ListedLemmas::words_throw_listed))]
pub fn words_throw_listed()
    ensures { WordsThrowListed }
{
    prims_throw_listed();
    tree_words_throw_listed();
    console_words_throw_listed();
}

/// What a token, a word of a text or an item throws has one of these numbers, too, but for -22 where `b(;)` or `;` ends
/// a definition, and for the number of the cell that `throw` takes where that runs.
#[tactic(auto, using(crate::proofs::Raised::steps_throw_listed))]
pub fn steps_throw_listed()
    ensures { StepsThrowListed }
{
    words_throw_listed();
    prims_throw_listed();
    tree_words_throw_listed();
    asking_words_throw_listed();
}

/// A step over structured definitions is, with these laid out as cells, the step over their cells, wherever control
/// goes on in what is read or in a finished definition; and it asks the same.
pub fn steps_agree()
    ensures { StepsAgree }
{
    structures_are_flat();
    compiles_reading();
}

/// From the beginning on, and whatever image or console line begins, control goes on in what is read or in a finished
/// definition: each step leaves all items of the return stack and all own words so that it does.
pub fn states_stay_placed()
    ensures { StatesStayPlaced }
{
    structures_are_flat();
}

/// `b(;)` throws -22 exactly where the elements of the open definition have no body. Where they have one, and there is
/// room for a return, that is the body of the word from then on.
#[tactic(auto, using(crate::proofs::Mismatch::mismatch_is_no_body))]
pub fn mismatch_is_no_body()
    ensures { MismatchIsNoBody }
{}

/// The acts of a step leave as they were what is read, the size of its offsets, and the items of the return stack, but
/// for what executing a word pushes or drops, which is said exactly, and the target of a word of control counts only
/// where control goes there, after all else.
#[tactic(auto, using(crate::proofs::Frames::targets, crate::proofs::Frames::frames_hold))]
pub fn frames_hold()
    ensures cells { FramesHold Coding }
    ensures bodies { FramesHold Definitions }
    ensures targets { TargetsCountLast }
{}

/// What runs inside an image that runs goes back to it: the return stack leads there, what executing a word pushes
/// leads back, and each step keeps it so, until control is at that image again; then no other loops of that image are
/// open than some of those that were.
#[tactic(auto, using(crate::proofs::LeadingSteps::stack_leads_back))]
pub fn stack_leads_back()
    ensures cells { StackLeadsBack Coding }
    ensures bodies { StackLeadsBack Definitions }
{}

/// An ordinary word keeps the images that run: what it does to the data space changes none.
pub fn images_stand()
    ensures { ImagesStand }
{
    changes_stay_sound();
    images_change_by_images_alone();
    properties_change_by_puts_alone();
    parts_are_good();
    scratch_is_open();
    latest_is_pushed();
    properties_keep_the_space();
    stored_stays();
    instances_keep_the_space();
    words_keep_the_space();
    console_words_keep_the_space();
    images_stay_asked();
}

/// A throw ends all that runs, or control goes on behind the latest `catch` that waits, and what is due beneath it is
/// worked off.
#[tactic(auto, using(crate::proofs::ThrowsSettle::throws_settle))]
pub fn throws_settle()
    ensures cells { ThrowsSettle Coding }
    ensures bodies { ThrowsSettle Definitions }
{}

/// The data space is sound at first, and a load, a console line and each step leave it so, whatever is done or thrown;
/// and so the properties of the tree stay stored in it.
pub fn space_stays_sound()
    ensures cells { SpaceStaysSound Coding }
    ensures bodies { SpaceStaysSound Definitions }
{
    changes_stay_sound();
    images_change_by_images_alone();
    properties_change_by_puts_alone();
    parts_are_good();
    scratch_is_open();
    latest_is_pushed();
    properties_keep_the_space();
    stored_stays();
    instances_keep_the_space();
    words_keep_the_space();
    console_words_keep_the_space();
    images_stay_asked();
}

/// The images that run are a stack, and each has the bytes that it had while it runs: a step ends some of the latest,
/// or one more begins. All it asks is a data space that is sound, as `space_stays_sound` has it at first, behind a load
/// and behind each step; so it goes on from step to step, and over any number of them.
pub fn images_run()
    ensures cells { ImagesRun Coding }
    ensures bodies { ImagesRun Definitions }
{
    changes_stay_sound();
    images_change_by_images_alone();
    properties_change_by_puts_alone();
    parts_are_good();
    scratch_is_open();
    latest_is_pushed();
    properties_keep_the_space();
    stored_stays();
    instances_keep_the_space();
    words_keep_the_space();
    console_words_keep_the_space();
    images_stay_asked();
}

/// The images that stand in the image region are as many as the images that are being read, at first and whatever is
/// done or thrown: one begins to stand where it begins to be read, and is given back where it is read no more, so none
/// stands where nothing runs. All it asks beside a sound data space is that it was so before, and it gives that back.
pub fn images_are_readings()
    ensures cells { ImagesAreReadings Coding }
    ensures bodies { ImagesAreReadings Definitions }
{
    changes_stay_sound();
    images_change_by_images_alone();
    properties_change_by_puts_alone();
    parts_are_good();
    scratch_is_open();
    latest_is_pushed();
    properties_keep_the_space();
    stored_stays();
    instances_keep_the_space();
    words_keep_the_space();
    console_words_keep_the_space();
    images_stay_asked();
}

/// Each item of a definition leaves both stacks, and control goes on at its target, exactly as its control structure
/// says; what it throws changes nothing.
#[tactic(auto, using(crate::proofs::GoingLemmas::items_go, crate::proofs::GoingLemmas::items_throw))]
pub fn items_go()
    ensures cells { ItemsGo Coding }
    ensures bodies { ItemsGo Definitions }
    ensures cells_throw { ItemsThrow Coding }
    ensures bodies_throw { ItemsThrow Definitions }
{}

/// Each FCode of the stream is the token that the standard gives its number.
#[tactic(auto, using(crate::proofs::TokenLemmas::tokens_are_typed))]
pub fn tokens_are_typed()
    ensures { TokensAreTyped }
{}

/// A token of control leaves both stacks, and the image is read on at its target, as an item of the same word goes on
/// at its own; while words are compiled it leaves the element of its word.
#[tactic(auto, using(crate::proofs::TokenLemmas::tokens_go, crate::proofs::TokenLemmas::tokens_compile))]
pub fn tokens_go()
    ensures cells { TokensGo Coding }
    ensures bodies { TokensGo Definitions }
    ensures cells_compile { TokensCompile Coding }
    ensures bodies_compile { TokensCompile Definitions }
{}

/// `throw` takes the number that it throws.
#[tactic(auto, using(crate::proofs::TokenLemmas::throw_takes))]
pub fn throw_takes()
    ensures cells { ThrowTakes Coding }
    ensures bodies { ThrowTakes Definitions }
{}

/// `]` changes whether words are compiled, `immediate` the words and `$find` the data stack, and nothing else.
#[tactic(auto, using(crate::proofs::TokenLemmas::dictionary_words_keep))]
pub fn dictionary_words_keep()
    ensures cells { DictionaryWordsKeep Coding }
    ensures bodies { DictionaryWordsKeep Definitions }
{}

/// A definition runs as its structure reads: at each point that is reached in its body the item is done that the
/// structure takes there, and control goes on at the points that the structure gives.
pub fn definitions_run()
    ensures { DefinitionsRun }
{
    runs_by_structure();
}

/// `execute` runs the word of the cell that it takes, and `catch` keeps what was there then.
#[tactic(auto, using(crate::proofs::GoingLemmas::catch_keeps))]
pub fn catch_keeps()
    ensures cells { CatchKeeps Coding }
    ensures bodies { CatchKeeps Definitions }
{
    plans_unroll();
}

/// A method runs for its instance, and the caller's is the current one again at its end.
#[tactic(auto, using(crate::proofs::CallingLemmas::calls_come_back))]
pub fn calls_come_back()
    ensures cells { CallsComeBack Coding }
    ensures bodies { CallsComeBack Definitions }
{
    plans_unroll();
}

/// The end of an image goes back to what began it, and leaves the rest as it was.
#[tactic(auto, using(crate::proofs::GoingLemmas::ends_go_back))]
pub fn ends_go_back()
    ensures cells { EndsGoBack Coding }
    ensures bodies { EndsGoBack Definitions }
{}

/// An image that begins leaves all as it was but for what runs and is read.
#[tactic(auto, using(crate::proofs::GoingLemmas::loads_begin))]
pub fn loads_begin()
    ensures cells { LoadsBegin Coding }
    ensures bodies { LoadsBegin Definitions }
{}

/// With an answer at hand nothing asks, so that a step which asked is made. Without one a word over keys, devices or
/// time asks just what its table says; `execute`, `catch` and words that call a method ask what the word asks that they
/// run; and nothing else asks. What asks needs no memory, unless it opens an instance.
#[tactic(auto, using(crate::proofs::QuestionLemmas::questions_settle))]
pub fn questions_settle()
    ensures cells { QuestionsSettle Coding }
    ensures bodies { QuestionsSettle Definitions }
{
    answers_settle();
    plans_unroll();
}

/// Which tokens, items and words of a text ask for no memory.
pub fn memory_is_asked()
    ensures cells { MemoryIsAsked Coding }
    ensures bodies { MemoryIsAsked Definitions }
{}

/// The name of a definition belongs to the package that was active at its `b(:)` or `:`, whatever package is active at
/// its `b(;)` or `;`.
#[tactic(auto, using(crate::proofs::HomeLemmas::names_stay_home))]
pub fn names_stay_home()
    ensures cells { NamesStayHome Coding }
    ensures bodies { NamesStayHome Definitions }
{}
