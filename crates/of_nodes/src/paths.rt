ghost use Rattle.std.specs.Prelude.{◌≡◌, ◌<◌, ◌++◌, ◌∷◌, length, OnOk};
ghost use Rattle.of_nodes.specs.Components.{component};
ghost use Rattle.of_nodes.specs.Nodes.{AreNodes};
ghost use Rattle.of_nodes.specs.Paths.{components_to};

use crate::components::{address_cells, node_name, unit_address};
use crate::tree::{Node, node_at};
use of_memory::Memory;
use std::alloc::AllocError;

/// Appends how a node below one stands in a path.
pub(crate) fn push_component(
    memory: &Memory,
    above: &Node,
    node: &Node,
    path: &mut Vec<u8>,
) -> Result<(), AllocError>
    ensures { OnOk result (path.new.items ≡ path.old.items ++ component memory.now above.now node.now) }
{
    path.extend_from_slice(node_name(memory, node))?;
    let Some(unit) = unit_address(memory, node, address_cells(memory, above)) else {
        return Ok(());
    };
    path.push(b'@')?;
    path.extend_from_slice(unit.as_slice())?;
    Ok(())
}

/// Appends the components from the root down to a node, at most so many levels below it.
#[tactic(auto, using(crate::proofs::NodeLists::parent_within, crate::proofs::PathPieces::paths))]
pub(crate) fn push_path(
    memory: &Memory,
    nodes: &[Node],
    most: usize,
    number: usize,
    path: &mut Vec<u8>,
) -> Result<(), AllocError>
    requires nodes { AreNodes nodes.now }
    requires within { number < length nodes.now }
    ensures { OnOk result (path.new.items ≡ path.old.items ++ components_to memory.now nodes.now most number) }
{
    if most == 0 || number == 0 {
        return Ok(());
    }
    let node = node_at(nodes, number);
    push_path(memory, nodes, most - 1, node.parent, path)?;
    path.push(b'/')?;
    push_component(memory, node_at(nodes, node.parent), node, path)?;
    Ok(())
}
