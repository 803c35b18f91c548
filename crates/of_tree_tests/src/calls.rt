//! Calls on the nodes of a tree, one a line, and what is shown of their answers.

use crate::rows::Rows;
use crate::running::number;
use of_cells::Cell;
use of_memory::Memory;
use of_nodes::{NodeFault, Phandle, Property, Tree};
use std::alloc::{AllocError, Global};
use std::test::Fail;

/// A call by its name, the node or the path that it is given, a name of a property or of a method, and a value. `-`
/// stands for none.
#[derive(Clone, Copy)]
struct Call<'a> {
    call: &'a str,
    target: &'a str,
    name: &'a [u8],
    value: &'a str,
}

/// Appends the bytes of cells, which stand between commas.
fn push_cells(bytes: &mut Vec<u8>, cells: &str) -> Result<(), AllocError> {
    for digits in cells.split(',') {
        bytes.extend_from_slice(&number(digits).to_be_bytes())?;
    }
    Ok(())
}

impl Call<'_> {
    /// The call of a line.
    fn read(line: &str) -> Call<'_> {
        let mut words = line.split_whitespace();
        let call = words.next().unwrap_or("");
        let target = match words.next() {
            Some("-") | None => "",
            Some(target) => target,
        };
        let name = match words.next() {
            Some("-") | None => "",
            Some(name) => name,
        };
        Call {
            call,
            target,
            name: name.as_bytes(),
            value: words.next().unwrap_or("-"),
        }
    }

    /// The node that it is given.
    fn node(&self) -> Phandle {
        Phandle(Cell(number(self.target)))
    }

    /// The place in an order that it is given.
    fn place(&self) -> usize {
        number(std::str::from_utf8(self.name).unwrap_or("")) as usize
    }

    /// The xt that it is given.
    fn xt(&self) -> Option<Cell> {
        match self.value {
            "-" => None,
            digits => Some(Cell(number(digits))),
        }
    }

    /// The bytes of the value: cells behind `#`, joined by commas, so many bytes of 1 behind `!`, else those of the
    /// text, where `~` is a zero byte.
    fn bytes(&self, alloc: Global) -> Result<Vec<u8>, AllocError> {
        let mut bytes = Vec::new(alloc);
        if self.value == "-" {
            return Ok(bytes);
        }
        if let Some(digits) = self.value.strip_prefix('!') {
            bytes.resize(number(digits) as usize, 1)?;
            return Ok(bytes);
        }
        if let Some(cells) = self.value.strip_prefix('#') {
            push_cells(&mut bytes, cells)?;
            return Ok(bytes);
        }
        for byte in self.value.as_bytes() {
            bytes.push(if *byte == b'~' { 0 } else { *byte })?;
        }
        Ok(bytes)
    }
}

/// A node's phandle.
fn shown_node(alloc: Global, node: Option<Phandle>) -> Result<String, AllocError> {
    match node {
        Some(Phandle(Cell(bits))) => format!(in alloc; "{bits:x}"),
        None => String::from_str(alloc, "-"),
    }
}

/// Where a property's name and value stand, and how long they are.
fn shown_property(alloc: Global, found: Option<Property>) -> Result<String, AllocError> {
    match found {
        Some(Property { name, value }) => {
            let (start, length) = (value.address.0, value.length.0);
            format!(in alloc;
                "{:x} {:x} {start:x} {length:x}",
                name.address.0, name.length.0
            )
        }
        None => String::from_str(alloc, "-"),
    }
}

/// A method's name and xt.
fn shown_method(alloc: Global, found: Option<(&[u8], Cell)>) -> Result<String, AllocError> {
    match found {
        Some((name, Cell(bits))) => {
            format!(in alloc; "{} {bits:x}", std::str::from_utf8(name).unwrap_or(""))
        }
        None => String::from_str(alloc, "-"),
    }
}

/// A method's xt.
fn shown_xt(alloc: Global, xt: Option<Cell>) -> Result<String, AllocError> {
    match xt {
        Some(Cell(bits)) => format!(in alloc; "{bits:x}"),
        None => String::from_str(alloc, "-"),
    }
}

/// The byte at an address.
fn shown_byte(alloc: Global, memory: &Memory, address: Cell) -> Result<String, AllocError> {
    match memory.read8(address) {
        Ok(byte) => format!(in alloc; "{byte:x}"),
        Err(fault) => format!(in alloc; "{fault}"),
    }
}

/// The node that a call leads to.
fn led_to(tree: &Tree, memory: &Memory, call: &Call<'_>) -> Result<Option<Phandle>, NodeFault> {
    match call.call {
        "parent" => tree.parent(call.node()),
        "child" => tree.child(call.node()),
        "peer" => tree.peer(call.node()),
        "after" => tree.after(call.node()),
        "find" => Ok(tree.find(memory, call.target.as_bytes())),
        "find_package" => Ok(tree.find_package(memory, call.target.as_bytes())),
        _ => tree.find_from(memory, call.node(), call.name),
    }
}

/// A node's component of a path, or its path.
fn named(
    alloc: Global,
    tree: &Tree,
    memory: &Memory,
    call: &Call<'_>,
) -> Result<String, NodeFault> {
    let text = match call.call {
        "component_of" => tree.component_of(memory, call.node())?,
        _ => tree.path_of(memory, call.node())?,
    };
    Ok(String::from_str(alloc, std::str::from_utf8(&text).unwrap_or(""))?)
}

/// The property that a call asks for.
fn property_of(tree: &Tree, call: &Call<'_>) -> Result<Option<Property>, NodeFault> {
    match call.call {
        "property" => tree.property(call.node(), call.name),
        "next_property" => tree.next_property(call.node(), call.name),
        _ => tree.property_at(call.node(), call.place()),
    }
}

/// How many cells an address below a node has, or how many properties it has.
fn shown_count(
    alloc: Global,
    tree: &Tree,
    memory: &Memory,
    call: &Call<'_>,
) -> Result<String, NodeFault> {
    let count = match call.call {
        "address_cells" => tree.address_cells(memory, call.node())?,
        _ => tree.property_count(call.node())?,
    };
    Ok(format!(in alloc; "{count}")?)
}

/// What a call that asks for what a node has answers.
fn had(alloc: Global, tree: &Tree, memory: &Memory, call: &Call<'_>) -> Result<String, NodeFault> {
    let node = call.node();
    match call.call {
        "property" | "next_property" | "property_at" => {
            Ok(shown_property(alloc, property_of(tree, call)?)?)
        }
        "method" => Ok(shown_xt(alloc, tree.method(node, call.name)?)?),
        "method_at" => Ok(shown_method(alloc, tree.method_at(node, call.place())?)?),
        "address_cells" | "property_count" => shown_count(alloc, tree, memory, call),
        "byte" => Ok(shown_byte(alloc, memory, node.0)?),
        "component_of" | "path_of" => named(alloc, tree, memory, call),
        _ => Ok(shown_node(alloc, led_to(tree, memory, call)?)?),
    }
}

/// Adds so many nodes below one, and gives the last.
fn add_nodes(tree: &mut Tree, parent: Phandle, count: usize) -> Result<Phandle, NodeFault> {
    let mut last = parent;
    for _ in 0..count {
        last = tree.add_node(parent)?;
    }
    Ok(last)
}

/// Adds a node and takes it back.
fn add_and_take_back(tree: &mut Tree, parent: Phandle) -> Result<Phandle, NodeFault> {
    let made = tree.add_node(parent)?;
    tree.take_back_node();
    Ok(made)
}

/// The node that a call adds.
fn added(tree: &mut Tree, call: &Call<'_>) -> Result<Phandle, NodeFault> {
    match call.call {
        "add_node" => tree.add_node(call.node()),
        "add_nodes" => add_nodes(tree, call.node(), call.place()),
        _ => add_and_take_back(tree, call.node()),
    }
}

/// What a call answers.
fn answer(
    alloc: Global,
    tree: &mut Tree,
    memory: &mut Memory,
    call: &Call<'_>,
) -> Result<String, NodeFault> {
    let node = call.node();
    match call.call {
        "add_node" | "add_nodes" | "add_and_take_back" => {
            return Ok(shown_node(alloc, Some(added(tree, call)?))?);
        }
        "set_property" => tree.set_property(memory, node, call.name, &call.bytes(alloc)?)?,
        "delete_property" => tree.delete_property(node, call.name)?,
        "add_method" => tree.add_method(node, call.name, Cell(number(call.value)))?,
        "take_back_method" => tree.take_back_method(node, call.name, call.xt()),
        _ => return had(alloc, tree, memory, call),
    }
    Ok(String::from_str(alloc, "done")?)
}

/// What a call answers, or why it is refused.
fn given(
    alloc: Global,
    tree: &mut Tree,
    memory: &mut Memory,
    call: &Call<'_>,
) -> Result<String, AllocError> {
    match answer(alloc, tree, memory, call) {
        Ok(given) => Ok(given),
        Err(fault) => format!(in alloc; "{fault}"),
    }
}

/// A tree and its memory. A line has a call, and behind `=` what it answers on the tree that the lines before it have
/// made of the first tree.
#[derive(Drop)]
pub(crate) struct TreeRows {
    pub(crate) tree: Tree,
    pub(crate) memory: Memory,
}

impl Rows for TreeRows {
    fn new(alloc: Global) -> Result<TreeRows, Fail> {
        let mut memory = Memory::new(alloc)?;
        let tree = Tree::new(alloc, &mut memory)?;
        Ok(TreeRows { tree, memory })
    }

    fn halves(line: &str) -> (&str, &str) {
        line.split_once('=').unwrap_or(("", "none"))
    }

    fn given(&mut self, alloc: Global, call: &str) -> Result<String, Fail> {
        let call = Call::read(call);
        Ok(given(alloc, &mut self.tree, &mut self.memory, &call)?)
    }
}
