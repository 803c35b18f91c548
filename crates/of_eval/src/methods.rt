//! Named words become methods of the active package.
ghost use Rattle.std.specs.Prelude.{◌≡◌, List, Option, Some, IfOk, OnErr};
ghost use Rattle.of_nodes.specs.declared.tree.Node.{Node};
ghost use Rattle.of_nodes.specs.declared.phandles.Phandle.{Phandle};
ghost use Rattle.of_eval.specs.Methods.{MayMake};

use of_cells::Cell;
use of_nodes::{NodeFault, Phandle, Tree};
use std::alloc::AllocError;

/// What a name meant in a package before a word was made its method there.
#[derive(Clone, Copy)]
pub struct Former {
    /// The package.
    pub node: Phandle,
    /// The execution token of the method that the name had, if it had one.
    pub before: Option<Cell>,
}

/// Makes a word the method of a name of the package, where one is active. A refusal is one of memory, and changes
/// nothing.
pub(crate) fn make_method(
    tree: &mut Tree,
    home: Option<Phandle>,
    name: &[u8],
    xt: Cell,
) -> Result<Option<Former>, AllocError>
    ensures made { IfOk result (λ former. MayMake home name.now xt former tree.old tree.new) }
    ensures err { OnErr result (tree.new ≡ tree.old) }
{
    let Some(node) = home else {
        return Ok(None);
    };
    let Ok(before) = tree.method(node, name) else {
        return Ok(None);
    };
    match tree.add_method(node, name, xt) {
        Ok(()) => Ok(Some(Former { node, before })),
        Err(NodeFault::NoMemory) => Err(AllocError),
        Err(_) => Ok(None),
    }
}

/// The word is no method after all: the tree is as it was before.
pub(crate) fn take_back(tree: &mut Tree, name: &[u8], former: Option<Former>)
    ensures { (home : Option Phandle) (xt : Cell) (nodes : List Node)
        → MayMake home name.now xt former nodes tree.old → tree.new ≡ nodes }
{
    if let Some(former) = former {
        tree.take_back_method(former.node, name, former.before);
    }
}
