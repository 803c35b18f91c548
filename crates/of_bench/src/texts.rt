//! What the console prints of a tree in which `/slot` has so many children with ten properties each, and of a
//! dictionary of so many names.
use crate::dictionary::make_words;
use crate::nodes::spelt;
use of_console::{devs_text, ls_text, tree_text, words_text};
use of_dict::Dict;
use of_memory::Memory;
use of_nodes::{NodeFault, Phandle, Tree};
use std::alloc::Global;

/// The node `/slot`.
const SLOT: usize = 2;

/// Makes the children with their properties.
fn make_children(tree: &mut Tree, memory: &mut Memory, count: u32) -> Result<(), NodeFault> {
    for _ in 0..count {
        let child = tree.add_node(Phandle::of(SLOT))?;
        for property in 0..10u32 {
            tree.set_property(memory, child, &spelt(property), &property.to_be_bytes())?;
        }
    }
    Ok(())
}

/// Makes the names, then what `words` prints of them where that is asked for, and answers its length.
fn names(alloc: Global, tree: &Tree, kind: &str, count: u32) -> Option<u32> {
    let mut dictionary = Dict::new(alloc);
    make_words(&mut dictionary, count).ok()?;
    if kind == "names" {
        return Some(0);
    }
    let text = words_text(alloc, tree, None, &dictionary).ok()?;
    u32::try_from(text.len()).ok()
}

/// Makes the children, then a text of a kind, or none, and answers its length. `names` and `words` make names in their
/// place.
pub fn calls(alloc: Global, kind: &str, count: u32) -> Option<u32> {
    let mut memory = Memory::new(alloc).ok()?;
    let mut tree = Tree::new(alloc, &mut memory).ok()?;
    if kind == "names" || kind == "words" {
        return names(alloc, &tree, kind, count);
    }
    make_children(&mut tree, &mut memory, count).ok()?;
    let text = match kind {
        "ls" => ls_text(alloc, &memory, &tree, Phandle::of(SLOT)),
        "devs" => devs_text(alloc, &memory, &tree),
        "tree" => tree_text(alloc, &memory, &tree),
        _ => return Some(0),
    };
    u32::try_from(text.ok()?.len()).ok()
}
