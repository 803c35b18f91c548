ghost use Rattle.std.specs.Prelude.{◌≡◌, ◌⊎◌, ◌++◌, List, ℕ, IfOk, IfErr, OnOk, Ok, Err};
ghost use Rattle.of_console.specs.Texts.{devs_text, node_text, pwd_text, tree_text, walk_text};

use crate::links::next_nodes;
use crate::properties::push_properties;
use of_memory::Memory;
use of_nodes::{NodeFault, Phandle, Tree, after_runs};
use std::alloc::Global;

/// What is shown of a node.
#[derive(Clone, Copy)]
pub enum Detail {
    /// Its path alone.
    Path,
    /// Its path, and its properties behind it.
    Properties,
}

/// The path of a node, as a line (IEEE 1275-1994, 7.4.11.1, `pwd`).
///
/// NoNode, if there is no such node; or NoMemory.
pub fn pwd_text(memory: &Memory, tree: &Tree, node: Phandle) -> Result<Vec<u8>, NodeFault>
    ensures ok { IfOk result (λ text. pwd_text memory.now tree.now node ≡ Ok text.items) }
    ensures err { IfErr result (λ e. (e ≡ NodeFault.NoMemory) ⊎ (pwd_text memory.now tree.now node ≡ Err e)) }
{
    let mut out = tree.path_of(memory, node)?;
    out.push(b'\n')?;
    Ok(out)
}

/// Appends a node: its path as a line, and its properties behind it where they are asked for.
///
/// NoNode, if there is no such node; or NoMemory.
#[tactic(auto, using(crate::proofs::NodeTexts::joined, crate::proofs::NodeTexts::joined_path))]
fn push_node(
    alloc: Global,
    memory: &Memory,
    tree: &Tree,
    node: Phandle,
    detail: Detail,
    out: &mut Vec<u8>,
) -> Result<(), NodeFault>
    ensures ok { OnOk result ((text : List ℕ) × (node_text detail memory.now tree.now node ≡ Ok text)
        × (out.new.items ≡ out.old.items ++ text)) }
    ensures err { IfErr result (λ e. (e ≡ NodeFault.NoMemory)
        ⊎ (node_text detail memory.now tree.now node ≡ Err e)) }
{
    let path = tree.path_of(memory, node)?;
    out.extend_from_slice(path.as_slice())?;
    out.push(b'\n')?;
    match detail {
        Detail::Path => Ok(()),
        Detail::Properties => push_properties(alloc, memory, tree, node, out),
    }
}

/// Each node of the device tree in preorder.
///
/// NoMemory is the only error.
fn walk_text(
    alloc: Global,
    memory: &Memory,
    tree: &Tree,
    detail: Detail,
) -> Result<Vec<u8>, NodeFault>
    ensures ok { IfOk result (λ text. text.items ≡ walk_text detail memory.now tree.now) }
    ensures err { IfErr result (λ e. e ≡ NodeFault.NoMemory) }
{
    after_runs();
    let next = next_nodes(alloc, tree)?;
    let _ = tree.node_count();
    let mut out = Vec::new(alloc);
    let mut left = Some(0);
    while let Some(number) = left {
        push_node(alloc, memory, tree, Phandle::of(number), detail, &mut out)?;
        left = next[number];
    }
    Ok(out)
}

/// The device tree (IEEE 1275-1994, 3.2.1): each node in preorder, its path as a line and behind it its properties, as
/// `properties_text` has them.
///
/// NoMemory is the only error.
pub fn tree_text(alloc: Global, memory: &Memory, tree: &Tree) -> Result<Vec<u8>, NodeFault>
    ensures ok { IfOk result (λ text. text.items ≡ tree_text memory.now tree.now) }
    ensures err { IfErr result (λ e. e ≡ NodeFault.NoMemory) }
{
    walk_text(alloc, memory, tree, Detail::Properties)
}

/// The paths of all nodes in preorder, a line each (IEEE 1275-1994, 7.4.11.3, `show-devs`).
///
/// NoMemory is the only error.
pub fn devs_text(alloc: Global, memory: &Memory, tree: &Tree) -> Result<Vec<u8>, NodeFault>
    ensures ok { IfOk result (λ text. text.items ≡ devs_text memory.now tree.now) }
    ensures err { IfErr result (λ e. e ≡ NodeFault.NoMemory) }
{
    walk_text(alloc, memory, tree, Detail::Path)
}
