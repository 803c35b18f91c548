ghost use Rattle.std.specs.Prelude.{◌≡◌, length};
ghost use Rattle.of_board.specs.Active.{latest, none_opened, nothing_active, opened_before, without_latest};

use of_cells::Cell;
use of_nodes::Phandle;
use std::alloc::Global;
use std::marker::Model;

/// An open `new-device` (IEEE 1275-1994, annex A).
#[derive(Clone, Copy)]
pub struct NewDevice {
    /// The package that was active before.
    pub package: Phandle,
    /// The current instance before, or 0.
    pub my_self: Cell,
    /// The instance of its own package.
    pub instance: Cell,
    /// How many had been opened before it.
    pub number: usize,
}

/// The open `new-device`s, the oldest first, and how many were ever opened.
#[derive(Drop)]
pub struct NewDevices {
    pub(crate) opened: Vec<NewDevice>,
    pub(crate) ever: usize,
    alloc: Global,
}

// Clauses see those that are open and the count.
impl Model for NewDevices {
    ghost use Rattle.of_board.specs.OpenDevices.{OpenDevices};

    ghost Value = { OpenDevices };

    ghost view = { λ d. record { opened = d.opened.items; ever = d.ever } };
}

/// Where in the device tree words work.
#[derive(Drop)]
pub struct Active {
    /// The active package, if there is one.
    pub package: Option<Phandle>,
    /// The current instance, or 0 (IEEE 1275-1994, annex A, `my-self`).
    pub my_self: Cell,
    /// The `new-device`s that are open.
    pub new_devices: NewDevices,
}

/// Keeps those that were opened before so many had been.
pub(crate) fn keep_before(opened: &mut Vec<NewDevice>, count: usize)
    ensures { opened.new.items ≡ opened_before count opened.old.items }
{
    opened.retain(|device| device.number < count);
}

impl NewDevices {
    /// None.
    fn new(alloc: Global) -> NewDevices
        ensures { result ≡ none_opened }
    {
        NewDevices {
            opened: Vec::new(alloc),
            ever: 0,
            alloc,
        }
    }

    /// What copies of names and values are allocated with.
    pub fn alloc(&self) -> Global {
        self.alloc
    }

    /// How many are open.
    pub fn len(&self) -> usize
        ensures { result ≡ length self.now.opened }
    {
        self.opened.len()
    }

    /// How many were ever opened.
    pub fn ever(&self) -> usize
        ensures { result ≡ self.now.ever }
    {
        self.ever
    }

    /// Closes the latest, if one is open, and answers it. Its number isn't given again.
    pub(crate) fn finish(&mut self) -> Option<NewDevice>
        ensures latest { result ≡ latest self.old }
        ensures others { self.new ≡ without_latest self.old }
    {
        self.opened.pop()
    }
}

impl Active {
    /// No active package, no current instance, and no open `new-device`.
    pub fn new(alloc: Global) -> Active
        ensures { result ≡ nothing_active }
    {
        Active {
            package: None,
            my_self: Cell::ZERO,
            new_devices: NewDevices::new(alloc),
        }
    }
}
