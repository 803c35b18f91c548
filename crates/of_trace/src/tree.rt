//! What a step has changed in the device tree.
use crate::json::{say_bytes, say_comma, say_text};
use of_machine::ScriptMachine;
use of_memory::Memory;
use of_nodes::{NodeFault, Phandle, Property, Tree};
use std::alloc::{AllocError, Global};
use std::io::{self, ErrorKind, Write};

/// The properties of each node, as they were.
#[derive(Drop)]
pub(crate) struct Properties {
    alloc: Global,
    nodes: Vec<Vec<Property>>,
}

/// The property of a node at a place.
fn property_at(tree: &Tree, node: Phandle, place: usize) -> Option<Property> {
    match tree.property_at(node, place) {
        Ok(property) => property,
        Err(_) => None,
    }
}

/// How many properties a node has.
fn count_of(tree: &Tree, node: Phandle) -> usize {
    match tree.property_count(node) {
        Ok(count) => count,
        Err(_) => 0,
    }
}

/// The properties of a node.
fn properties_of(alloc: Global, tree: &Tree, node: Phandle) -> Result<Vec<Property>, AllocError> {
    let mut properties = Vec::new(alloc);
    for place in 0..count_of(tree, node) {
        if let Some(property) = property_at(tree, node, place) {
            properties.push(property)?;
        }
    }
    Ok(properties)
}

/// Whether a node has these properties, and no others.
fn has_same(tree: &Tree, node: Phandle, old: &[Property]) -> bool {
    if count_of(tree, node) != old.len() {
        return false;
    }
    for (place, property) in old.iter().enumerate() {
        if property_at(tree, node, place) != Some(*property) {
            return false;
        }
    }
    true
}

/// Writes the path of a node.
fn say_path(memory: &Memory, tree: &Tree, node: Phandle, line: &mut Vec<u8>) -> io::Result<()> {
    match tree.path_of(memory, node) {
        Ok(path) => say_text(&path, line),
        Err(NodeFault::NoMemory) => Err(io::Error::from(ErrorKind::OutOfMemory)),
        Err(_) => write!(line, "null"),
    }
}

/// Writes a property of a node, with its value, or without one where it is there no more.
fn say_property(
    machine: &ScriptMachine,
    node: Phandle,
    property: Property,
    is_gone: bool,
    line: &mut Vec<u8>,
) -> io::Result<()> {
    let memory = machine.memory();
    write!(line, "{{\"node\":")?;
    say_path(memory, machine.tree(), node, line)?;
    write!(line, ",\"name\":")?;
    say_text(property.name.bytes(memory), line)?;
    write!(line, ",\"value\":")?;
    if is_gone {
        write!(line, "null")?;
    } else {
        say_bytes(property.value.bytes(memory), line)?;
    }
    write!(line, "}}")
}

/// Whether a property of this name is among others.
fn has_name(memory: &Memory, properties: &[Property], name: &[u8]) -> bool {
    properties
        .iter()
        .any(|property| property.name.bytes(memory) == name)
}

/// Writes the properties of a node that are new or have another value, and those that are there no more, behind others
/// of which there are so many; gives how many there are then.
fn say_changes(
    machine: &ScriptMachine,
    node: Phandle,
    old: &[Property],
    new: &[Property],
    before: usize,
    line: &mut Vec<u8>,
) -> io::Result<usize> {
    let memory = machine.memory();
    let mut count = before;
    for property in new {
        if !old.contains(property) {
            say_comma(count, line)?;
            say_property(machine, node, *property, false, line)?;
            count = count.saturating_add(1);
        }
    }
    for property in old {
        if !has_name(memory, new, property.name.bytes(memory)) {
            say_comma(count, line)?;
            say_property(machine, node, *property, true, line)?;
            count = count.saturating_add(1);
        }
    }
    Ok(count)
}

impl Properties {
    /// Nothing is known yet: there is no node.
    pub(crate) fn new(alloc: Global) -> Properties {
        Properties {
            alloc,
            nodes: Vec::new(alloc),
        }
    }

    /// Writes the paths of the nodes that are new; nothing where none is.
    fn say_nodes(&mut self, machine: &ScriptMachine, line: &mut Vec<u8>) -> io::Result<()> {
        let known = self.nodes.len();
        let count = machine.tree().node_count();
        if known >= count {
            return Ok(());
        }
        write!(line, ",\"nodes\":[")?;
        for number in known..count {
            say_comma(number - known, line)?;
            say_path(machine.memory(), machine.tree(), Phandle::of(number), line)?;
            self.nodes.push(Vec::new(self.alloc))?;
        }
        write!(line, "]")
    }

    /// Writes the properties that have changed; gives how many have.
    fn say_all(&mut self, machine: &ScriptMachine, line: &mut Vec<u8>) -> io::Result<usize> {
        let tree = machine.tree();
        let mut count = 0;
        for number in 0..self.nodes.len().min(tree.node_count()) {
            let node = Phandle::of(number);
            let Some(old) = self.nodes.get_mut(number) else {
                break;
            };
            if !has_same(tree, node, old) {
                let new = properties_of(self.alloc, tree, node)?;
                count = say_changes(machine, node, old, &new, count, line)?;
                *old = new;
            }
        }
        Ok(count)
    }

    /// Writes what a step has changed in the device tree: the paths of new nodes, and each property that is new or has
    /// another value, or is there no more; nothing where all is as it was.
    pub(crate) fn say(&mut self, machine: &ScriptMachine, line: &mut Vec<u8>) -> io::Result<()> {
        self.say_nodes(machine, line)?;
        let mut changes = Vec::new(self.alloc);
        if self.say_all(machine, &mut changes)? == 0 {
            return Ok(());
        }
        write!(line, ",\"properties\":[")?;
        line.write_all(&changes)?;
        write!(line, "]")
    }
}
