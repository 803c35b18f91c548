ghost use Rattle.std.specs.Prelude.{◌≡◌, ◌⊎◌, ◌++◌, List, ℕ, IfOk, IfErr, OnOk, Ok, Err};
ghost use Rattle.of_console.specs.Texts.{properties_shown, properties_text, property_line};

use crate::values::push_behind_name;
use of_memory::Memory;
use of_nodes::{NodeFault, Phandle, Property, Tree};
use std::alloc::{AllocError, Global};

/// Appends a property as a line: its name and its value.
fn push_property(
    alloc: Global,
    memory: &Memory,
    property: Property,
    out: &mut Vec<u8>,
) -> Result<(), AllocError>
    ensures { OnOk result (out.new.items ≡ out.old.items ++ property_line memory.now property) }
{
    out.extend_from_slice(property.name.bytes(memory))?;
    push_behind_name(alloc, out, property.value.bytes(memory))?;
    out.push(b'\n')?;
    Ok(())
}

/// Appends a line for each property of a node, in their order.
///
/// NoNode, if there is no such node; or NoMemory.
pub(crate) fn push_properties(
    alloc: Global,
    memory: &Memory,
    tree: &Tree,
    node: Phandle,
    out: &mut Vec<u8>,
) -> Result<(), NodeFault>
    ensures ok { OnOk result ((text : List ℕ) × (properties_text memory.now tree.now node ≡ Ok text)
        × (out.new.items ≡ out.old.items ++ text)) }
    ensures err { IfErr result (λ e. (e ≡ NodeFault.NoMemory)
        ⊎ (properties_text memory.now tree.now node ≡ Err e)) }
{
    for place in 0..tree.property_count(node)? {
        match tree.property_at(node, place)? {
            Some(property) => push_property(alloc, memory, property, out)?,
            None => {}
        }
    }
    Ok(())
}

/// The properties of a node, a line for each in their order (IEEE 1275-1994, 7.4.11.2, `.properties`): the name, and
/// behind a space the value. A value of one or more bytes 0x20 to 0x7E and a zero byte stands between quotes, without
/// the zero byte; any other in hexadecimal digits, with a space behind each four bytes but the last; an empty one
/// leaves the name alone.
///
/// NoNode, if there is no such node; or NoMemory.
pub fn properties_text(
    alloc: Global,
    memory: &Memory,
    tree: &Tree,
    node: Phandle,
) -> Result<Vec<u8>, NodeFault>
    ensures ok { IfOk result (λ text. properties_text memory.now tree.now node ≡ Ok text.items) }
    ensures err { IfErr result (λ e. (e ≡ NodeFault.NoMemory)
        ⊎ (properties_text memory.now tree.now node ≡ Err e)) }
{
    let mut out = Vec::new(alloc);
    push_properties(alloc, memory, tree, node, &mut out)?;
    Ok(out)
}
