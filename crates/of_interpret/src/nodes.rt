//! `dev`: nodes by their paths.
ghost use Rattle.std.specs.Prelude.{◌≡◌};
ghost use Rattle.of_interpret.specs.TextWords.{node_at, node_below, node_found};

use of_board::Board;
use of_cells::Cell;
use of_memory::Memory;
use of_nodes::{NodeFault, Phandle, Tree};
use of_stacks::Throw;

/// The root of the device tree.
const ROOT: Phandle = Phandle(Cell(0xD000_0000));

/// The node that was found: -259 where there is none.
fn node_found(found: Result<Option<Phandle>, NodeFault>) -> Result<Phandle, Throw>
    ensures { result ≡ node_found found }
{
    match found {
        Ok(Some(node)) => Ok(node),
        Ok(None) => Err(Throw::NO_NODE),
        Err(_) => Err(Throw::NO_NODE),
    }
}

/// The node of a path from the active package on: -259 where there is none.
fn node_below(
    home: Option<Phandle>,
    path: &[u8],
    memory: &Memory,
    tree: &Tree,
) -> Result<Phandle, Throw>
    ensures { result ≡ node_below home path.now memory.now tree.now }
{
    match home {
        Some(node) => node_found(tree.find_from(memory, node, path)),
        None => Err(Throw::NO_NODE),
    }
}

/// The node of a path, from the root on behind a slash, else from the active package on; `..` leads to the node above.
///
/// -16 for the empty path, -259 where it leads to no node.
pub(crate) fn node_at(path: &[u8], board: &Board) -> Result<Phandle, Throw>
    ensures { result ≡ node_at path.now board.now }
{
    let [first, rest @ ..] = path else {
        return Err(Throw::EMPTY_NAME);
    };
    if *first == b'/' {
        return node_found(board.tree.find_from(&board.memory, ROOT, rest));
    }
    node_below(board.active.package, path, &board.memory, &board.tree)
}
