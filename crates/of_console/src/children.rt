ghost use Rattle.std.specs.Prelude.{◌≡◌, ◌⊎◌, ◌++◌, List, ℕ, IfOk, IfErr, OnOk, Ok, Err};
ghost use Rattle.of_console.specs.Children.{handle_line, ls_text};
ghost use Rattle.of_nodes.specs.Paths.{component_found};

use crate::values::push_digits;
use of_memory::Memory;
use of_nodes::{NodeFault, Phandle, Tree};
use std::alloc::Global;

/// Appends a child as a line: its phandle in 8 digits, a space, and how it stands in a path.
///
/// NoNode, if there is no such node; or NoMemory.
fn push_child(
    alloc: Global,
    memory: &Memory,
    tree: &Tree,
    child: Phandle,
    out: &mut Vec<u8>,
) -> Result<(), NodeFault>
    ensures ok { OnOk result ((text : List ℕ) × (component_found memory.now tree.now child ≡ Ok text)
        × (out.new.items ≡ out.old.items ++ handle_line child text)) }
    ensures err { IfErr result (λ e. (e ≡ NodeFault.NoMemory)
        ⊎ (component_found memory.now tree.now child ≡ Err e)) }
{
    push_digits(alloc, out, &child.0.0.to_be_bytes())?;
    out.push(b' ')?;
    let component = tree.component_of(memory, child)?;
    out.extend_from_slice(component.as_slice())?;
    out.push(b'\n')?;
    Ok(())
}

/// The children of a node, a line for each, the oldest first (IEEE 1275-1994, 7.4.11.1, `ls`): its phandle in 8 digits,
/// a space, and how it stands in a path.
///
/// NoNode, if there is no such node; or NoMemory.
pub fn ls_text(
    alloc: Global,
    memory: &Memory,
    tree: &Tree,
    node: Phandle,
) -> Result<Vec<u8>, NodeFault>
    ensures ok { IfOk result (λ text. ls_text memory.now tree.now node ≡ Ok text.items) }
    ensures err { IfErr result (λ e. (e ≡ NodeFault.NoMemory) ⊎ (ls_text memory.now tree.now node ≡ Err e)) }
{
    let mut out = Vec::new(alloc);
    let mut left = tree.child(node)?;
    while let Some(child) = left {
        push_child(alloc, memory, tree, child, &mut out)?;
        left = tree.peer(child)?;
    }
    Ok(out)
}
