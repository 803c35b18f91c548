//! The `new-device`s of the board, each with an instance of the package that it made.
ghost use Rattle.std.specs.Prelude.{◌≡◌};
ghost use Rattle.of_board.specs.Active.{all_finished, device_finished, device_opened, image_left, since_released};
ghost use Rattle.of_cells.specs.Outcomes.{MayBecome};
ghost use Rattle.of_board.specs.DeviceOutcomes.{Finishes, IsForMemory};

use crate::active::{NewDevice, keep_before};
use crate::board::Board;
use crate::device_fault::DeviceFault;
use of_cells::Cell;
use of_ihandles::Instances;
use of_memory::Memory;
use of_nodes::Phandle;

/// Releases the instances of those of these `new-device`s that were opened since so many had been, the latest first.
fn release_since(opened: &[NewDevice], count: usize, instances: &mut Instances, memory: &mut Memory)
    ensures { since_released count opened.now (instances.old, memory.old) ≡ (instances.new, memory.new) }
{
    let [first, rest @ ..] = opened else {
        return;
    };
    release_since(rest, count, instances, memory);
    if first.number >= count {
        instances.release(memory, first.instance);
    }
}

impl Board {
    /// Opens a `new-device` that found a package (IEEE 1275-1994, annex A): makes a child of it and an instance of
    /// the child below the current one; both are active then.
    ///
    /// Node, if there is no such package (NoNode) or there are 1,024 (TooManyNodes); Instance, if the instance finds
    /// no room (Full); either for memory, also where one more can't be counted. Then nothing changes, and no number
    /// is given.
    pub fn open_device(&mut self, found: Phandle) -> Result<(), DeviceFault>
        ensures outcome { MayBecome IsForMemory (device_opened self.old found) self.old self.new result }
        ensures console { self.new.console ≡ self.old.console }
    {
        let number = self.active.new_devices.ever;
        let Some(ever) = number.checked_add(1) else {
            return Err(DeviceFault::NO_MEMORY);
        };
        self.active.new_devices.opened.reserve(1)?;
        let child = self.tree.add_node(found)?;
        let before = self.active.my_self;
        let instance = match self.instances.open(&mut self.memory, child, before, &[]) {
            Ok(instance) => instance,
            Err(fault) => {
                self.tree.take_back_node();
                return Err(DeviceFault::Instance(fault));
            }
        };
        self.active.new_devices.opened.push_reserved(NewDevice {
            package: found,
            my_self: before,
            instance,
            number,
        });
        self.active.new_devices.ever = ever;
        self.active.package = Some(child);
        self.active.my_self = instance;
        Ok(())
    }

    /// Finishes the latest open `new-device` (IEEE 1275-1994, annex A, `finish-device`): releases its instance, and
    /// the package and the instance that it found are active again. Answers whether one was open; else nothing
    /// changes.
    pub fn finish_device(&mut self) -> bool
        ensures outcome { Finishes result self.old self.new (device_finished self.old) }
        ensures console { self.new.console ≡ self.old.console }
    {
        let Some(latest) = self.active.new_devices.finish() else {
            return false;
        };
        self.active.package = Some(latest.package);
        self.active.my_self = latest.my_self;
        self.instances.release(&mut self.memory, latest.instance);
        true
    }

    /// At the end of a loaded image, before which `count` `new-device`s had ever been opened: those that were opened
    /// in it are open no more, their instances and that of the load are released, and the package is active.
    pub fn leave_image(&mut self, count: usize, before: Option<Phandle>, instance: Cell)
        ensures { self.new ≡ image_left self.old count before instance }
    {
        let opened = self.active.new_devices.opened.as_slice();
        release_since(opened, count, &mut self.instances, &mut self.memory);
        self.instances.release(&mut self.memory, instance);
        keep_before(&mut self.active.new_devices.opened, count);
        self.active.package = before;
    }

    /// Finishes all open `new-device`s, the latest first: the package and the instance are active that the oldest
    /// found, or the same as before where none is open.
    pub fn finish_all(&mut self)
        ensures value { self.new ≡ all_finished self.old }
        ensures console { self.new.console ≡ self.old.console }
    {
        let Some(oldest) = self.active.new_devices.opened.first().copied() else {
            return;
        };
        let opened = self.active.new_devices.opened.as_slice();
        release_since(opened, 0, &mut self.instances, &mut self.memory);
        self.active.new_devices.opened.clear();
        self.active.package = Some(oldest.package);
        self.active.my_self = oldest.my_self;
    }
}
