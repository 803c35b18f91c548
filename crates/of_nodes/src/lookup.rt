ghost use Rattle.std.specs.Prelude.{◌≡◌, ◌<◌, ◌≤◌, ◌==◌, ◌&&◌, length, IfSome};
ghost use Rattle.of_nodes.specs.Asked.{fits};
ghost use Rattle.of_nodes.specs.Lookup.{child_for, step_for, walk, way};
ghost use Rattle.of_nodes.specs.Nodes.{AreNodes};
ghost use Rattle.of_nodes.specs.declared.lookup.Age.TheVariants.{Newest, Oldest};
ghost use Rattle.of_nodes.specs.Texts.{components, split};

use crate::asked::{Component, asked, fits};
use crate::components::address_cells;
use crate::texts::{before, behind};
use crate::tree::{Node, node_at};
use of_memory::Memory;

/// Which of the children that fit a component is taken.
#[derive(Clone, Copy)]
pub(crate) enum Age {
    /// That which was made first.
    Oldest,
    /// That which was made last.
    Newest,
}

/// Whether a component fits a child of a node.
fn fits_child(
    memory: &Memory,
    node: &Node,
    parent: usize,
    count: usize,
    component: &Component,
) -> bool
    requires { count ≤ 4 }
    ensures { result ≡ node.now.parent == parent && fits memory.now count node.now component.now }
{
    node.parent == parent && fits(memory, node, count, component)
}

/// The oldest child of a node that a component fits.
fn oldest_child(memory: &Memory, nodes: &[Node], parent: usize, text: &[u8]) -> Option<usize>
    requires { parent < length nodes.now }
    ensures value { result ≡ child_for memory.now nodes.now Oldest parent text.now }
    ensures within { IfSome result (λ i. i < length nodes.now) }
{
    let count = address_cells(memory, node_at(nodes, parent));
    let component = asked(text);
    for i in 1..nodes.len() {
        if fits_child(memory, &nodes[i], parent, count, &component) {
            return Some(i);
        }
    }
    None
}

/// The youngest child of a node that a component fits.
fn newest_child(memory: &Memory, nodes: &[Node], parent: usize, text: &[u8]) -> Option<usize>
    requires { parent < length nodes.now }
    ensures value { result ≡ child_for memory.now nodes.now Newest parent text.now }
    ensures within { IfSome result (λ i. i < length nodes.now) }
{
    let count = address_cells(memory, node_at(nodes, parent));
    let component = asked(text);
    let mut found = None;
    for i in 1..nodes.len() {
        if fits_child(memory, &nodes[i], parent, count, &component) {
            found = Some(i);
        }
    }
    found
}

/// The child of a node that is taken for a component.
fn child_for(memory: &Memory, nodes: &[Node], age: Age, parent: usize, text: &[u8]) -> Option<usize>
    requires { parent < length nodes.now }
    ensures value { result ≡ child_for memory.now nodes.now age parent text.now }
    ensures within { IfSome result (λ i. i < length nodes.now) }
{
    match age {
        Age::Oldest => oldest_child(memory, nodes, parent, text),
        Age::Newest => newest_child(memory, nodes, parent, text),
    }
}

/// The node that the components of a text lead to from a node on.
#[tactic(auto, using(crate::proofs::TextWalks::walks))]
fn walk(memory: &Memory, nodes: &[Node], age: Age, number: usize, text: &[u8]) -> Option<usize>
    requires { number < length nodes.now }
    ensures value { result ≡ walk memory.now nodes.now age number (split text.now) }
    ensures within { IfSome result (λ i. i < length nodes.now) }
{
    let child = child_for(memory, nodes, age, number, before(text, b'/'))?;
    match behind(text, b'/') {
        Some(rest) => walk(memory, nodes, age, child, rest),
        None => Some(child),
    }
}

/// Where a component leads to from a node in a path that may go up.
#[tactic(auto, using(crate::proofs::NodeLists::parent_within))]
fn step_for(memory: &Memory, nodes: &[Node], number: usize, text: &[u8]) -> Option<usize>
    requires nodes { AreNodes nodes.now }
    requires within { number < length nodes.now }
    ensures value { result ≡ step_for memory.now nodes.now number text.now }
    ensures within { IfSome result (λ i. i < length nodes.now) }
{
    if text != b"..".as_slice() {
        return child_for(memory, nodes, Age::Oldest, number, text);
    }
    if number == 0 {
        return None;
    }
    Some(node_at(nodes, number).parent)
}

/// The node that the components of a text lead to from a node on, up or down.
#[tactic(auto, using(crate::proofs::TextWalks::ways))]
fn way(memory: &Memory, nodes: &[Node], number: usize, text: &[u8]) -> Option<usize>
    requires nodes { AreNodes nodes.now }
    requires within { number < length nodes.now }
    ensures value { result ≡ way memory.now nodes.now number (split text.now) }
    ensures within { IfSome result (λ i. i < length nodes.now) }
{
    let next = step_for(memory, nodes, number, before(text, b'/'))?;
    match behind(text, b'/') {
        Some(rest) => way(memory, nodes, next, rest),
        None => Some(next),
    }
}

/// The node that a text's components lead to from a node on, up or down.
pub(crate) fn found_by(memory: &Memory, nodes: &[Node], number: usize, text: &[u8]) -> Option<usize>
    requires nodes { AreNodes nodes.now }
    requires within { number < length nodes.now }
    ensures value { result ≡ way memory.now nodes.now number (components text.now) }
    ensures within { IfSome result (λ i. i < length nodes.now) }
{
    if text.len() == 0 {
        return Some(number);
    }
    way(memory, nodes, number, text)
}

/// The node that a text's components, of which the empty text has none, lead to from a node on.
pub(crate) fn found_below(
    memory: &Memory,
    nodes: &[Node],
    age: Age,
    number: usize,
    text: &[u8],
) -> Option<usize>
    requires { number < length nodes.now }
    ensures value { result ≡ walk memory.now nodes.now age number (components text.now) }
    ensures within { IfSome result (λ i. i < length nodes.now) }
{
    if text.len() == 0 {
        return Some(number);
    }
    walk(memory, nodes, age, number, text)
}
