ghost use Rattle.std.specs.Prelude.{◌≡◌, ◌≤◌, length, Ok, Err, IfOk, MatchResult};
ghost use Rattle.of_instances.specs.Reading.{active_package, cells_in, cells_of, package_at, package_in, text_at};

use crate::faults::{node_throw, of_instance};
use of_board::Board;
use of_cells::Cell;
use of_memory::Memory;
use of_nodes::{Phandle, Tree};
use of_stacks::Throw;

/// How many cells an address below no package has.
const CELLS: usize = 2;

/// The text of an address and a length, or -9 where a byte can't be read.
pub(crate) fn text_at(memory: &Memory, address: Cell, length: Cell) -> Result<&[u8], Throw>
    ensures value { let text = text_at memory.now address length in
        MatchResult result (λ s. text ≡ Ok s.now) (λ t. text ≡ Err t) }
{
    match memory.slice(address, length) {
        Ok(bytes) => Ok(bytes),
        // The address is the only fault of bytes.
        Err(_) => Err(Throw::INVALID_ADDRESS),
    }
}

/// The package that a cell is the phandle of, or -263 where there is none.
pub(crate) fn package_at(tree: &Tree, handle: Cell) -> Result<Phandle, Throw>
    ensures { result ≡ package_at tree.now handle }
{
    let package = Phandle(handle);
    match tree.parent(package) {
        Ok(_) => Ok(package),
        // There is no such node.
        Err(_) => Err(Throw::BAD_HANDLE),
    }
}

/// The active package of the tree, or -259 where there is none.
fn package_in(tree: &Tree, active: Option<Phandle>) -> Result<Phandle, Throw>
    ensures { result ≡ package_in tree.now active }
{
    match active {
        Some(package) => package_at(tree, package.0),
        None => Err(Throw::NO_NODE),
    }
}

/// The package that words work on: that of the current instance, or -260 where that was released; the active one
/// where no instance is current, or -259 where none is.
pub(crate) fn active_package(board: &Board) -> Result<Phandle, Throw>
    ensures { result ≡ active_package board.now }
{
    if board.active.my_self.0 == 0 {
        return package_in(&board.tree, board.active.package);
    }
    of_instance(board.instances.package(board.active.my_self))
}

/// How many cells an address of a package has: as its parent says, and 2 for the root.
pub(crate) fn cells_of(memory: &Memory, tree: &Tree, node: Phandle) -> Result<usize, Throw>
    ensures value { result ≡ cells_of memory.now tree.now node }
    ensures few { IfOk result (λ count. count ≤ 4) }
{
    match tree.parent(node) {
        Ok(Some(above)) => match tree.address_cells(memory, above) {
            Ok(count) => Ok(count),
            Err(fault) => Err(node_throw(fault)),
        },
        Ok(None) => Ok(CELLS),
        Err(fault) => Err(node_throw(fault)),
    }
}

/// How many cells an address of the package has that words work on, or why there is none.
pub(crate) fn active_cells(board: &Board) -> Result<usize, Throw>
    ensures value { result ≡ cells_in board.now.memory board.now.tree (active_package board.now) }
    ensures few { IfOk result (λ count. count ≤ 4) }
{
    let package = active_package(board)?;
    cells_of(&board.memory, &board.tree, package)
}
