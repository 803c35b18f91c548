// A law has no parameters and does nothing: its contract is the law.
ghost use Rattle.of_ihandles.specs.Beginnings.{InstancesBegin};
ghost use Rattle.of_ihandles.specs.Ihandles.{IhandlesAreNew};
ghost use Rattle.of_ihandles.specs.OwnedBlocks.{BlocksAreOwned};
ghost use Rattle.of_ihandles.specs.OwnSlots.{SlotsAreOwn};
ghost use Rattle.of_ihandles.specs.SpaceKept.{InstancesKeepTheSpace};

use of_memory::{
    changes_stay_sound, images_change_by_images_alone, properties_change_by_puts_alone,
};

/// The live blocks of the instance region are those of the live instances, whatever is done with these, and no two of
/// them meet. So a release gives back exactly the blocks of its instance.
#[tactic(auto, using(crate::proofs::OwnedByCalls::blocks_are_owned))]
pub fn blocks_are_owned()
    ensures { BlocksAreOwned }
{}

/// A live instance has a block of its own for each slot of its package, whatever is done. What was stored in it is
/// read there, and what any other instance or slot holds stays as it was.
#[tactic(auto, using(crate::proofs::SlotsAreOwn::slots_are_own))]
pub fn slots_are_own()
    ensures { SlotsAreOwn }
{}

/// An opening answers an ihandle that no instance ever had, of an instance of the package with the parent that were
/// given; a release ends what it is the handle of; and each call leaves all other instances as they were.
#[tactic(auto, using(crate::proofs::IhandlesAreNew::ihandles_are_new))]
pub fn ihandles_are_new()
    ensures { IhandlesAreNew }
{}

/// What an opening leaves has the arguments in the new instance's block, and in each slot of its package what the
/// slot's template says.
#[tactic(auto, using(crate::proofs::InstancesBegin::instances_begin))]
pub fn instances_begin()
    ensures { InstancesBegin }
{}

/// Each call over instances leaves the data space sound, and the images that run and the properties as they were.
pub fn instances_keep_the_space()
    ensures { InstancesKeepTheSpace }
{
    changes_stay_sound();
    images_change_by_images_alone();
    properties_change_by_puts_alone();
}
