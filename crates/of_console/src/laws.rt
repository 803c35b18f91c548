// A law has no parameters and does nothing: its contract is the law.

ghost use Rattle.of_console.specs.Laws.{ChildrenAreListed, PropertiesAreListed, ValuesAreShown};
ghost use Rattle.of_console.specs.NameLaws.{NamesAreListed};

use of_dict::{names_are_listed_once, newest_is_found};

/// A text stands between quotes as it is, and any other value in digits that read back as its bytes.
#[tactic(auto, using(crate::proofs::Shown::values_are_shown))]
pub fn values_are_shown()
    ensures { ValuesAreShown }
{}

/// The properties of a node stand in their order, a line for each, under the names that they were set by.
#[tactic(auto, using(crate::proofs::Named::properties_are_listed))]
pub fn properties_are_listed()
    ensures { PropertiesAreListed }
{}

/// The children of a node are the nodes but the root that have it as the node above them, each once, the oldest first.
#[tactic(auto, using(crate::proofs::ChildLists::children_are_listed))]
pub fn children_are_listed()
    ensures { ChildrenAreListed }
{}

/// `words` prints each name that is found once, at the place of the oldest word that has it and isn't hidden, spelt as
/// the one that is found, the newest place first. A package's new method stands first, and one that is made again keeps
/// its place.
#[tactic(auto, using(crate::proofs::NamesListed::names_are_listed))]
pub fn names_are_listed()
    ensures { NamesAreListed }
{
    newest_is_found();
    names_are_listed_once();
}
