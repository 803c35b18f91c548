// A law has no parameters and does nothing: its contract is the law.
ghost use Rattle.of_own.specs.SlotLaw.{SlotsHold};

use of_ihandles::slots_are_own;

/// What was stored in a slot of the current instance is what the slot holds there, and any other slot, and the slot in
/// any other instance, holds what it did; and a slot is there just where the current instance is one of its package.
pub fn slots_hold()
    ensures { SlotsHold }
{
    slots_are_own();
}
