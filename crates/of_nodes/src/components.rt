ghost use Rattle.std.specs.Prelude.{◌≡◌, ◌≤◌, ◌+◌, ◌*◌, ◌++◌, length, option_map};
ghost use Rattle.arrayvec.specs.ArrayVec.{array_vec_len};
ghost use Rattle.of_format.specs.Digits.{unsigned_text};
ghost use Rattle.of_nodes.specs.Components.{address_cells, address_text, cells_by, comma, node_name, unit_of};
ghost use Rattle.of_nodes.specs.Components.{value_of};

use crate::tree::Node;
use arrayvec::ArrayVec;
use byteorder::{BigEndian, ByteOrder};
use of_cells::Cell;
use of_format::unsigned_text;
use of_memory::Memory;

/// The text of a unit address.
pub(crate) type UnitText = ArrayVec<u8, 160>;

/// The bytes of a property of a node, if it has one of the name.
fn value_of<'a>(memory: &'a Memory, node: &Node, name: &[u8]) -> Option<&'a [u8]>
    ensures { option_map (λ s. s.now) result ≡ value_of memory.now node.now name.now }
{
    let property = node.properties.get(name)?;
    match memory.slice(property.value.address, property.value.length) {
        Ok(bytes) => Some(bytes),
        Err(_) => None,
    }
}

/// The name of a node.
pub(crate) fn node_name<'a>(memory: &'a Memory, node: &Node) -> &'a [u8]
    ensures { result.now ≡ node_name memory.now node.now }
{
    match value_of(memory, node, b"name") {
        Some(bytes) if bytes.len() > 0 => &bytes[..bytes.len() - 1],
        _ => &[],
    }
}

/// The most cells that an address has.
const MOST_CELLS: u32 = 4;

/// How many cells an address has by a number: 1 to 4, else 2.
fn cells_by(count: u32) -> usize
    ensures value { result ≡ cells_by count }
    ensures few { result ≤ 4 }
{
    if 1 <= count && count <= MOST_CELLS {
        count as usize
    } else {
        2
    }
}

/// How many cells the addresses of a node's children have.
pub(crate) fn address_cells(memory: &Memory, node: &Node) -> usize
    ensures value { result ≡ address_cells memory.now node.now }
    ensures few { result ≤ 4 }
{
    let Some(bytes) = value_of(memory, node, b"#address-cells") else {
        return 2;
    };
    if bytes.len() != 4 {
        return 2;
    }
    cells_by(BigEndian::read_u32(bytes))
}

/// Appends bytes for which there is room.
fn push_bytes(text: &mut UnitText, bytes: &[u8])
    requires room { array_vec_len text.old + length bytes.now ≤ 160 }
    ensures { text.new.items ≡ text.old.items ++ bytes.now }
{
    for byte in bytes {
        text.push(*byte);
    }
}

/// Appends a cell in hexadecimal, behind a comma unless it is the first.
fn push_cell(text: &mut UnitText, place: usize, cell: Cell)
    requires room { array_vec_len text.old + 33 ≤ 160 }
    ensures items { text.new.items ≡ text.old.items ++ (comma place ++ unsigned_text 16 cell.0) }
    ensures len { array_vec_len text.new ≤ array_vec_len text.old + 33 }
{
    if place > 0 {
        text.push(b',');
    }
    let digits = unsigned_text(cell, 16);
    push_bytes(text, digits.as_bytes());
}

/// The text of an address of so many cells.
fn address_text(bytes: &[u8], count: usize) -> UnitText
    requires few { count ≤ 4 }
    requires enough { 4 * count ≤ length bytes.now }
    ensures { result.items ≡ address_text bytes.now count }
{
    let mut text = ArrayVec::new();
    for i in 0..count {
        push_cell(&mut text, i, Cell(BigEndian::read_u32(&bytes[4 * i..])));
    }
    text
}

/// The unit address of a node, whose parent's addresses have so many cells.
pub(crate) fn unit_address(memory: &Memory, node: &Node, count: usize) -> Option<UnitText>
    requires { count ≤ 4 }
    ensures { option_map (λ t. t.items) result ≡ unit_of memory.now count node.now }
{
    let bytes = value_of(memory, node, b"reg")?;
    if bytes.len() < 4 * count {
        return None;
    }
    Some(address_text(bytes, count))
}
