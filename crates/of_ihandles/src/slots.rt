ghost use Rattle.std.specs.Prelude.{◌≡◌};
ghost use Rattle.of_ihandles.specs.Slots.{size_of};

use of_cells::Cell;
use of_nodes::Phandle;

/// How a slot begins in each instance.
#[derive(Clone, Copy, Debug, PartialEq, Eq)]
pub enum Template {
    /// One cell, which holds this.
    Value(Cell),

    /// So many bytes, all 0.
    Zeros(Cell),
}

impl Template {
    /// How many bytes the slot has.
    pub(crate) fn size(self) -> Cell
        ensures { result ≡ size_of self }
    {
        match self {
            Template::Value(_) => Cell(4),
            Template::Zeros(count) => count,
        }
    }
}

/// A slot that each instance of a package has of its own.
#[derive(Clone, Copy, Debug, PartialEq, Eq)]
pub struct Slot {
    /// The package.
    pub package: Phandle,
    /// How many slots the package had before.
    pub place: usize,
    /// How it begins in each instance.
    pub template: Template,
}
