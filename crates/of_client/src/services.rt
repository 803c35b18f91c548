ghost use Rattle.std.specs.Prelude.{◌≡◌, [], true, nat_eq, take, length, IfOk, OnErr};
ghost use Rattle.of_client.specs.Services.{found_handle, handle, has_bytes, name_bytes, next_name};
ghost use Rattle.of_client.specs.Services.{package_handle, path_bytes, relative, reply_to, service_of, value_bytes};
ghost use Rattle.of_client.specs.Services.{value_length};
ghost use Rattle.of_nodes.specs.Paths.{path_found};

use crate::calls::{ClientCall, ClientReply};
use of_cells::Cell;
use of_ihandles::{InstanceFault, Instances};
use of_memory::Memory;
use of_nodes::{NodeFault, Phandle, Property, Tree};
use std::alloc::{AllocError, Global};

/// What a bad handle, an unknown path, property or previous name is answered.
const MISSING: Cell = Cell(0xffff_ffff);

/// A number without bytes.
fn bare(alloc: Global, number: Cell) -> ClientReply
    ensures number { result.number ≡ number }
    ensures bytes { result.bytes.items ≡ [] }
{
    ClientReply {
        number,
        bytes: Vec::new(alloc),
    }
}

/// A number and bytes.
fn with_bytes(alloc: Global, number: Cell, bytes: &[u8]) -> Result<ClientReply, AllocError>
    ensures number { IfOk result (λ r. r.number ≡ number) }
    ensures bytes { IfOk result (λ r. r.bytes.items ≡ bytes.now) }
{
    let bytes = Vec::from_slice(alloc, bytes)?;
    Ok(ClientReply { number, bytes })
}

/// The phandle of a node, or 0 for none.
fn handle(node: Option<Phandle>) -> Cell
    ensures { (result, []) ≡ handle node }
{
    match node {
        Some(node) => node.0,
        None => Cell(0),
    }
}

/// The phandle of a node, 0 for none, or -1 for a bad handle.
fn relative(node: Result<Option<Phandle>, NodeFault>) -> Cell
    ensures { (result, []) ≡ relative node }
{
    match node {
        Ok(node) => handle(node),
        Err(_) => MISSING,
    }
}

/// The phandle of a path's node, or -1 for none.
fn found_handle(node: Option<Phandle>) -> Cell
    ensures { (result, []) ≡ found_handle node }
{
    match node {
        Some(node) => node.0,
        None => MISSING,
    }
}

/// The phandle of an instance's package, or -1 for a bad handle.
fn package_handle(node: Result<Phandle, InstanceFault>) -> Cell
    ensures { (result, []) ≡ package_handle node }
{
    match node {
        Ok(node) => node.0,
        Err(_) => MISSING,
    }
}

/// The first bytes of some, as many as there is room for.
fn first(bytes: &[u8], room: u32) -> &[u8]
    ensures { result.now ≡ take room bytes.now }
{
    &bytes[..bytes.len().min(room as usize)]
}

/// `getproplen`
fn value_length(found: Result<Option<Property>, NodeFault>) -> Cell
    ensures { (result, []) ≡ value_length found }
{
    match found {
        Ok(Some(property)) => property.value.length,
        _ => MISSING,
    }
}

/// `getprop`
fn value_bytes(
    alloc: Global,
    memory: &Memory,
    room: u32,
    found: Result<Option<Property>, NodeFault>,
) -> Result<ClientReply, AllocError>
    ensures { IfOk result (λ r. (r.number, r.bytes.items) ≡ value_bytes memory.now room found) }
{
    match found {
        Ok(Some(property)) => {
            let bytes = first(property.value.bytes(memory), room);
            with_bytes(alloc, property.value.length, bytes)
        }
        _ => Ok(bare(alloc, MISSING)),
    }
}

/// 1 and the name of a property, or 0 behind the last.
fn name_bytes(
    alloc: Global,
    memory: &Memory,
    next: Result<Option<Property>, NodeFault>,
) -> Result<ClientReply, AllocError>
    ensures { IfOk result (λ r. (r.number, r.bytes.items) ≡ name_bytes memory.now next) }
{
    match next {
        Ok(Some(property)) => with_bytes(alloc, Cell(1), property.name.bytes(memory)),
        Ok(None) => Ok(bare(alloc, Cell(0))),
        Err(_) => Ok(bare(alloc, MISSING)),
    }
}

/// `nextprop`
fn next_name(
    alloc: Global,
    memory: &Memory,
    tree: &Tree,
    node: Phandle,
    name: &[u8],
) -> Result<ClientReply, AllocError>
    ensures { IfOk result (λ r. (r.number, r.bytes.items) ≡ next_name memory.now tree.now node name.now) }
{
    match tree.property(node, name) {
        Ok(None) if !name.is_empty() => Ok(bare(alloc, MISSING)),
        Ok(_) => name_bytes(alloc, memory, tree.next_property(node, name)),
        Err(_) => Ok(bare(alloc, MISSING)),
    }
}

/// `package-to-path`
fn path_bytes(
    alloc: Global,
    memory: &Memory,
    tree: &Tree,
    node: Phandle,
    room: u32,
) -> Result<ClientReply, AllocError>
    ensures { IfOk result (λ r. (r.number, r.bytes.items)
        ≡ path_bytes room (path_found memory.now tree.now node)) }
{
    match tree.path_of(memory, node) {
        Ok(path) => {
            let number = Cell((path.len() % 0x1_0000_0000) as u32);
            with_bytes(alloc, number, first(&path, room))
        }
        Err(NodeFault::NoMemory) => Err(AllocError),
        Err(_) => Ok(bare(alloc, MISSING)),
    }
}

/// What a client is answered (IEEE 1275-1994, 6.3.2.1 and 6.3.2.2). -1, as 0xFFFFFFFF, stands for a bad handle, a path
/// without a node, a property that isn't there, and a previous name that is none of the node's.
///
/// An error is for memory alone, and comes only where the reply may have bytes.
#[tactic(auto, unfolding(crate::specs::Services::reply_to))]
pub fn reply_to(
    alloc: Global,
    memory: &Memory,
    tree: &Tree,
    instances: &Instances,
    call: &ClientCall,
) -> Result<ClientReply, AllocError>
    ensures reply { IfOk result (λ r. (r.number, r.bytes.items)
        ≡ reply_to memory.now tree.now instances.now (service_of call.now)) }
    ensures memory { OnErr result (has_bytes (service_of call.now) ≡ true) }
{
    let number = match call {
        ClientCall::GetProp(node, name, room) => {
            return value_bytes(alloc, memory, *room, tree.property(*node, name));
        }
        ClientCall::NextProp(node, name) => return next_name(alloc, memory, tree, *node, name),
        ClientCall::PackageToPath(node, room) => {
            return path_bytes(alloc, memory, tree, *node, *room);
        }
        ClientCall::FindDevice(path) => found_handle(tree.find(memory, path)),
        ClientCall::Child(node) => relative(tree.child(*node)),
        ClientCall::Peer(node) => {
            if node.0.0 == 0 {
                handle(Some(Phandle::of(0)))
            } else {
                relative(tree.peer(*node))
            }
        }
        ClientCall::Parent(node) => relative(tree.parent(*node)),
        ClientCall::GetPropLen(node, name) => value_length(tree.property(*node, name)),
        ClientCall::InstanceToPackage(ihandle) => package_handle(instances.package(*ihandle)),
    };
    Ok(bare(alloc, number))
}
