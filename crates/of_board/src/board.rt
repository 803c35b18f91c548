use crate::active::Active;
use crate::console::Console;
use of_format::Pictured;
use of_ihandles::Instances;
use of_memory::Memory;
use of_nodes::Tree;
use of_stacks::DataStack;

/// What words work on.
#[derive(Drop)]
pub struct Board {
    /// The data stack.
    pub stack: DataStack,
    /// The data space.
    pub memory: Memory,
    /// The pictured text.
    pub pictured: Pictured,
    /// What was printed.
    pub console: Console,
    /// The device tree.
    pub tree: Tree,
    /// Where in the tree words work.
    pub active: Active,
    /// The instances of packages.
    pub instances: Instances,
}
