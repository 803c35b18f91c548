// A law has no parameters and does nothing: its contract is the law.
ghost use Rattle.of_board.specs.Nest.{InstancesNest};

use of_ihandles::ihandles_are_new;

/// The instances of a load and of the `new-device`s opened in it are exactly those that are released at its end; each
/// `new-device` has a new one below the current one, and finishing releases just that.
pub fn instances_nest()
    ensures { InstancesNest }
{
    ihandles_are_new();
}
