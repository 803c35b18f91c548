ghost use Rattle.std.specs.Prelude.{◌≡◌, ◌<◌, ◌==◌, length, IfOk, IfSome, None, Some, if◌then◌else◌};
ghost use Rattle.of_nodes.specs.Nodes.{parent_in};
ghost use Rattle.of_console.specs.Links.{AreLinked, AreNext, behind_of};

use of_cells::Cell;
use of_nodes::{Phandle, Tree};
use std::alloc::{AllocError, Global};

/// The links between the nodes, each under the number of its node.
#[derive(Drop)]
struct Links {
    /// The oldest child of each node.
    oldest: Vec<Option<usize>>,
    /// The next younger child of the same parent.
    younger: Vec<Option<usize>>,
}

/// The number of the node above a node; the root has none.
#[tactic(auto, using(crate::proofs::LinkLemmas::above_is))]
fn above(tree: &Tree, number: usize) -> Option<usize>
    requires { number < length tree.now }
    ensures { result ≡ (if number == 0 then None else Some (parent_in tree.now number)) }
{
    let _ = tree.node_count();
    match tree.parent(Phandle::of(number)) {
        Ok(Some(Phandle(Cell(parent)))) => Some(((parent - 0xd000_0000) / 4) as usize),
        Ok(None) | Err(_) => None,
    }
}

/// The links between all nodes. The youngest node is linked first: the child that was the oldest until then is the next
/// younger one.
#[tactic(auto, using(crate::proofs::LinkLemmas::parent_older))]
fn linked(alloc: Global, tree: &Tree) -> Result<Links, AllocError>
    ensures { IfOk result (λ links. AreLinked tree.now 1 links.oldest.items links.younger.items) }
{
    let count = tree.node_count();
    let mut oldest = vec![in alloc; None; count]?;
    let mut younger = vec![in alloc; None; count]?;
    let mut number = count;
    while number > 1 {
        number -= 1;
        if let Some(parent) = above(tree, number) {
            younger[number] = oldest[parent];
            oldest[parent] = Some(number);
        }
    }
    Ok(Links { oldest, younger })
}

/// What stands behind all that is below a node, by the next younger child of the same parent, and what stands behind
/// all that is below the parent.
fn behind_all(
    younger: Option<usize>,
    parent: Option<usize>,
    behind: &[Option<usize>],
) -> Option<usize>
    requires { IfSome parent (λ p. p < length behind.now) }
    ensures { result ≡ behind_of younger parent behind.now }
{
    match (younger, parent) {
        (Some(peer), _) => Some(peer),
        (None, Some(parent)) => behind[parent],
        (None, None) => None,
    }
}

/// The node behind each in preorder, if there is one, under the number of its node: the oldest child, or else the node
/// behind all that is below, which is the next younger child of the same parent, or else what is behind all that is
/// below the parent. So a walk looks at each node a few times, however many children one has.
#[tactic(auto, using(crate::proofs::LinkLemmas::walk))]
pub(crate) fn next_nodes(alloc: Global, tree: &Tree) -> Result<Vec<Option<usize>>, AllocError>
    ensures { IfOk result (λ next. AreNext tree.now next.items) }
{
    let links = linked(alloc, tree)?;
    let mut behind = Vec::new(alloc);
    let mut next = Vec::new(alloc);
    for number in 0..tree.node_count() {
        let after = behind_all(links.younger[number], above(tree, number), &behind);
        behind.push(after)?;
        next.push(links.oldest[number].or(after))?;
    }
    Ok(next)
}
