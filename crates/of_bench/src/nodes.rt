//! Properties set and found on one node, or on 1,000 in turn.
use of_memory::Memory;
use of_nodes::{NodeFault, Phandle, Tree};
use std::alloc::Global;

/// How many nodes there are behind the first three.
const NODES: u32 = 1000;

/// How many properties there are before some are found or changed.
const PROPERTIES: u32 = 10_000;

/// The name of a property: four digits.
pub fn spelt(number: u32) -> [u8; 4] {
    let thousands = b'0' + (number / 1000 % 10) as u8;
    let hundreds = b'0' + (number / 100 % 10) as u8;
    let tens = b'0' + (number / 10 % 10) as u8;
    let ones = b'0' + (number % 10) as u8;
    [thousands, hundreds, tens, ones]
}

/// The node of a property: the fourth, or that and those behind it in turn.
fn node_for(number: u32, is_spread: bool) -> Phandle {
    if is_spread {
        return Phandle::of(3 + (number % NODES) as usize);
    }
    Phandle::of(3)
}

/// Makes the nodes.
fn make_nodes(tree: &mut Tree) -> Result<(), NodeFault> {
    for _ in 0..NODES {
        tree.add_node(Phandle::of(2))?;
    }
    Ok(())
}

/// Sets properties to cells: those that aren't there are made.
fn set(tree: &mut Tree, memory: &mut Memory, is_spread: bool, count: u32) -> Result<(), NodeFault> {
    for i in 0..count {
        let node = node_for(i, is_spread);
        tree.set_property(memory, node, &spelt(i), &i.to_be_bytes())?;
    }
    Ok(())
}

/// Finds properties, and adds up the addresses of their values.
fn find(tree: &Tree, is_spread: bool, count: u32) -> Result<u32, NodeFault> {
    let mut sum = 0u32;
    for i in 0..count {
        if let Some(property) = tree.property(node_for(i, is_spread), &spelt(i))? {
            sum = sum.wrapping_add(property.value.address.0);
        }
    }
    Ok(sum)
}

/// Spells names, and adds up their last bytes and their nodes: what the other loops spend beside their
/// calls.
fn spell(is_spread: bool, count: u32) -> u32 {
    let mut sum = 0u32;
    for i in 0..count {
        sum = sum.wrapping_add(u32::from(spelt(i)[3]));
        sum = sum.wrapping_add(node_for(i, is_spread).0.0);
    }
    sum
}

/// Makes so many calls of a kind, and answers a number that depends on all of them.
pub fn calls(alloc: Global, kind: &str, is_spread: bool, count: u32) -> Option<u32> {
    let mut memory = Memory::new(alloc).ok()?;
    let mut tree = Tree::new(alloc, &mut memory).ok()?;
    make_nodes(&mut tree).ok()?;
    if kind == "find" || kind == "change" {
        set(&mut tree, &mut memory, is_spread, PROPERTIES).ok()?;
    }
    match kind {
        "spell" => Some(spell(is_spread, count)),
        "find" => find(&tree, is_spread, count).ok(),
        "set" | "change" => {
            set(&mut tree, &mut memory, is_spread, count).ok()?;
            find(&tree, is_spread, 1).ok()
        }
        _ => None,
    }
}
