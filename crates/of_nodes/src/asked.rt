ghost use Rattle.std.specs.Prelude.{◌≡◌, ◌≤◌, Some};
ghost use Rattle.of_nodes.specs.Asked.{asked, fits, is_own};
ghost use Rattle.of_nodes.specs.Components.{node_name, unit_of};

use crate::components::{node_name, unit_address};
use crate::texts::{before, behind};
use crate::tree::Node;
use of_memory::Memory;
use std::marker::Model;

/// What a component of a path asks for (IEEE 1275-1994, 4.3.1).
#[derive(Drop)]
pub(crate) struct Component<'a> {
    /// The name, if it isn't left out before a unit address.
    name: Option<&'a [u8]>,
    /// The unit address.
    unit: Option<&'a [u8]>,
}

impl<'a> Model for Component<'a> {
    ghost use Rattle.std.specs.Prelude.{option_map};
    ghost use Rattle.of_nodes.specs.Asked.{Asked};

    ghost Value = { Asked };

    ghost view = { λ c. record {
      name = option_map (λ s. s.now) c.name;
      unit = option_map (λ s. s.now) c.unit;
    } };
}

/// What a component asks for: the name before `@` and the unit address behind. Arguments behind `:` are none
/// of it.
pub(crate) fn asked(text: &[u8]) -> Component
    ensures { result ≡ asked text.now }
{
    let plain = before(text, b':');
    let name = before(plain, b'@');
    match behind(plain, b'@') {
        Some(unit) => Component {
            name: if name.len() == 0 { None } else { Some(name) },
            unit: Some(unit),
        },
        None => Component {
            name: Some(name),
            unit: None,
        },
    }
}

/// Whether the name that a component asks for, if it does, is a node's.
fn has_name(memory: &Memory, node: &Node, component: &Component) -> bool
    ensures { result ≡ is_own component.now.name (Some (node_name memory.now node.now)) }
{
    match component.name {
        Some(name) => name == node_name(memory, node),
        None => true,
    }
}

/// Whether the unit address that a component asks for, if it does, is that of a node, whose own has so many cells.
fn has_unit(memory: &Memory, node: &Node, count: usize, component: &Component) -> bool
    requires { count ≤ 4 }
    ensures { result ≡ is_own component.now.unit (unit_of memory.now count node.now) }
{
    let Some(unit) = component.unit else {
        return true;
    };
    match unit_address(memory, node, count) {
        Some(own) => unit == own.as_slice(),
        None => false,
    }
}

/// Whether a component fits a node: each part that is asked is the node's.
pub(crate) fn fits(memory: &Memory, node: &Node, count: usize, component: &Component) -> bool
    requires { count ≤ 4 }
    ensures { result ≡ fits memory.now count node.now component.now }
{
    has_name(memory, node, component) && has_unit(memory, node, count, component)
}
