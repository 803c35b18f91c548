//! What the calls over the nodes say of the tree.
ghost use Rattle.of_nodes.specs.ComponentLaw.{ComponentsAreMeant};
ghost use Rattle.of_nodes.specs.FirstPaths.{FirstPathsFind};
ghost use Rattle.of_nodes.specs.MethodLaw.{MethodsAreFound};
ghost use Rattle.of_nodes.specs.Preorder.{AfterRuns};
ghost use Rattle.of_nodes.specs.PropertyLaw.{PropertiesAreFound};
ghost use Rattle.of_nodes.specs.SpaceKept.{PropertiesKeepTheSpace};
ghost use Rattle.of_nodes.specs.Stored.{StoredStays};
ghost use Rattle.of_nodes.specs.Tree.{TreeIsShown};
ghost use Rattle.of_nodes.specs.TreePaths.{TreeFinds};
ghost use Rattle.of_nodes.specs.WayLaw.{WaysLead};
ghost use Rattle.of_nodes.specs.Ways.{PathsFind};

use of_memory::{changes_stay_sound, images_change_by_images_alone};

/// Each node stands in the tree; its parent is the one round it there, its child the first of its children,
/// and its peer the sibling behind it.
#[tactic(auto, using(crate::proofs::TreeIsShown::tree_is_shown))]
pub fn tree_is_shown()
    ensures { TreeIsShown }
{}

/// The path of the root finds the root. So does that of a node with a good name below one whose path finds it,
/// unless its component fits an older sibling.
#[tactic(auto, using(crate::proofs::PathsFind::paths_find))]
pub fn paths_find()
    ensures { PathsFind }
{}

/// `find` and `find_package` find what the path leads to in the tree, and `path_of` gives the node's path
/// there.
#[tactic(auto, using(crate::proofs::TreeFinds::tree_finds))]
pub fn tree_finds()
    ensures { TreeFinds }
{}

/// In the tree that is made first, `/packages` finds the second node, and `/slot` the third.
#[tactic(auto, using(crate::proofs::FirstPathsFind::first_paths_find))]
pub fn first_paths_find()
    ensures { FirstPathsFind }
{}

/// A method that was added is found by its name, other names find what they did, and all is as before once it is
/// taken back.
#[tactic(auto, using(crate::proofs::MethodsAreFound::methods_are_found))]
pub fn methods_are_found()
    ensures { MethodsAreFound }
{}

/// A property that was set has its name's bytes and its value's, all others are as they were, and it keeps its
/// place or goes last; one that was deleted is found no more. The names are met in their order, one after the other.
#[tactic(auto, using(crate::proofs::PropertiesAreFound::properties_are_found))]
pub fn properties_are_found()
    ensures { PropertiesAreFound }
{}

/// Each property has the bytes of its name and those of its value in the property region, and no node has two of
/// one name: so it is in the first tree, and stays whatever is done with tree and data space.
#[tactic(auto, using(crate::proofs::StoredStays::stored_stays))]
pub fn stored_stays()
    ensures { StoredStays }
{}

/// The first tree, and each property that is set, leave a sound data space sound, and the images that run as they
/// were.
pub fn properties_keep_the_space()
    ensures { PropertiesKeepTheSpace }
{
    changes_stay_sound();
    images_change_by_images_alone();
}

/// From a node the empty path leads to the node itself, `..` to its parent, a longer path on from where its first
/// part leads to; and a path without `..` leads from the root to what it finds behind a slash.
#[tactic(auto, using(crate::proofs::WaysLead::ways_lead))]
pub fn ways_lead()
    ensures { WaysLead }
{}

/// From the root on `after` goes through the tree in preorder, from each node to the next, to the last.
#[tactic(auto, using(crate::proofs::AfterRuns::after_runs))]
pub fn after_runs()
    ensures { AfterRuns }
{}

/// Names, unit addresses and components are what the standard says: which names are good, which `#address-cells`
/// count, how a unit address is written, and which nodes a component fits.
#[tactic(auto, using(crate::proofs::ComponentsAreMeant::components_are_meant))]
pub fn components_are_meant()
    ensures { ComponentsAreMeant }
{}
