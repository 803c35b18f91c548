ghost use Rattle.std.specs.Prelude.{◌≡◌, ◌+◌, ◌*◌, ◌≤◌, ◌++◌, length};
ghost use Rattle.byteorder.specs.Endian.{big_bytes};
ghost use Rattle.arrayvec.specs.ArrayVec.{array_vec_len};
ghost use Rattle.of_cells.specs.Outcomes.{Answers};
ghost use Rattle.of_props.specs.Encoding.{bytes_encoded, copy_encoded, encoded, int_encoded, up_to_here};
ghost use Rattle.of_cells.specs.Outcomes.{Answers};
ghost use Rattle.of_props.specs.Encoding.{phys_bytes, phys_encoded};
ghost use Rattle.of_cells.specs.Outcomes.{Answers};
ghost use Rattle.of_props.specs.Encoding.{string_encoded};

use crate::arrays::Array;
use crate::fault::PropFault;
use arrayvec::ArrayVec;
use byteorder::{BigEndian, ByteOrder};
use of_cells::Cell;
use of_memory::Memory;

/// The bytes from an address to `here`.
fn up_to_here(memory: &Memory, address: Cell) -> Array
    requires { address.0 ≤ memory.now.here }
    ensures { result ≡ up_to_here memory.now address }
{
    Array {
        address,
        length: Cell(memory.here().0 - address.0),
    }
}

/// Puts bytes at `here`, at any alignment, and allots as many.
#[tactic(auto, using(crate::proofs::Put::puts))]
fn encode(memory: &mut Memory, bytes: &[u8]) -> Result<Array, PropFault>
    ensures { Answers (encoded memory.old bytes.now) memory.old memory.new result }
{
    let address = memory.append(bytes)?;
    Ok(up_to_here(memory, address))
}

/// Puts bytes of memory, as they were before, and a tail at `here`, as `encode` does.
#[tactic(auto, using(crate::proofs::Put::copies))]
fn encode_copy(
    memory: &mut Memory,
    from: Cell,
    count: Cell,
    tail: &[u8],
) -> Result<Array, PropFault>
    ensures { Answers (copy_encoded memory.old from count tail.now) memory.old memory.new result }
{
    let address = memory.append_copy(from, count, tail)?;
    Ok(up_to_here(memory, address))
}

/// Encodes a number at `here`: 4 bytes, the high byte first, which are allotted (IEEE 1275-1994,
/// annex A, `encode-int`).
///
/// Full, if they would leave the data region; then nothing changes.
pub fn encode_int(memory: &mut Memory, number: Cell) -> Result<Array, PropFault>
    ensures { Answers (int_encoded memory.old number) memory.old memory.new result }
{
    let mut bytes = [0; 4];
    BigEndian::write_u32(&mut bytes, number.0);
    encode(memory, &bytes)
}

/// Encodes `length` bytes of memory, as they were before, and a zero byte at `here`, where they are
/// allotted (IEEE 1275-1994, annex A, `encode-string`).
///
/// Address, if one of the bytes can't be read; else Full, if they and the zero byte would leave the
/// data region. Then nothing changes.
pub fn encode_string(memory: &mut Memory, address: Cell, length: Cell) -> Result<Array, PropFault>
    ensures { Answers (string_encoded memory.old address length) memory.old memory.new result }
{
    encode_copy(memory, address, length, &[0])
}

/// Encodes `length` bytes of memory, as they were before, at `here`, where they are allotted
/// (IEEE 1275-1994, annex A, `encode-bytes`).
///
/// Address, if one of the bytes can't be read; else Full, if they would leave the data region. Then
/// nothing changes.
pub fn encode_bytes(memory: &mut Memory, address: Cell, length: Cell) -> Result<Array, PropFault>
    ensures { Answers (bytes_encoded memory.old address length) memory.old memory.new result }
{
    encode_copy(memory, address, length, &[])
}

/// Appends the bytes of cells, each with the high byte first.
fn push_cells(bytes: &mut ArrayVec<u8, 16>, cells: &[Cell])
    requires room { array_vec_len bytes.old + 4 * length cells.now ≤ 16 }
    ensures bytes { bytes.new.items ≡ bytes.old.items ++ phys_bytes cells.now }
    ensures len { array_vec_len bytes.new ≡ array_vec_len bytes.old + 4 * length cells.now }
{
    let [first, rest @ ..] = cells else {
        return;
    };
    let mut four = [0; 4];
    BigEndian::write_u32(&mut four, first.0);
    bytes.push(four[0]);
    bytes.push(four[1]);
    bytes.push(four[2]);
    bytes.push(four[3]);
    push_cells(bytes, rest);
}

/// Encodes a physical address of up to 4 cells, the high cell first, at `here`: 4 bytes for each,
/// which are allotted together (IEEE 1275-1994, annex A, `encode-phys`).
///
/// Full, if they would leave the data region; then nothing changes.
pub fn encode_phys(memory: &mut Memory, cells: &[Cell]) -> Result<Array, PropFault>
    requires { length cells.now ≤ 4 }
    ensures { Answers (phys_encoded memory.old cells.now) memory.old memory.new result }
{
    let mut bytes = ArrayVec::new();
    push_cells(&mut bytes, cells);
    encode(memory, bytes.as_slice())
}
