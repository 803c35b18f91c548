ghost use Rattle.std.specs.Prelude.{◌≡◌, ◌==◌, ◌+◌, ◌*◌, ◌<◌, ◌≤◌, ◌++◌, length, IfSome, MatchResult, Ok, Err};
ghost use Rattle.std.specs.List.{position};
ghost use Rattle.arrayvec.specs.ArrayVec.{array_vec_len};
ghost use Rattle.of_props.specs.Decoding.{cells_in, int_decoded, phys_decoded, string_decoded};

use crate::arrays::Array;
use crate::fault::PropFault;
use arrayvec::ArrayVec;
use byteorder::{BigEndian, ByteOrder};
use of_cells::Cell;
use of_memory::Memory;

/// Decodes a number from the first 4 bytes of an array, and gives what follows them (IEEE 1275-1994,
/// annex A, `decode-int`).
///
/// Address, if a byte of the array can't be read; else Short, if it has less than 4.
pub fn decode_int(memory: &Memory, array: Array) -> Result<(Cell, Array), PropFault>
    ensures { result ≡ int_decoded memory.now array }
{
    let bytes = array.bytes(memory)?;
    if bytes.len() < 4 {
        return Err(PropFault::Short);
    }
    Ok((Cell(BigEndian::read_u32(bytes)), array.behind(4)))
}

/// Where the first zero byte stands.
fn first_zero(bytes: &[u8]) -> Option<usize>
    ensures place { result ≡ position (λ b. b == 0) bytes.now }
    ensures within { IfSome result (λ i. i < length bytes.now) }
{
    bytes.iter().position(|byte| *byte == 0)
}

/// Decodes a string: the bytes of an array before its first zero byte, and what follows that
/// (IEEE 1275-1994, annex A, `decode-string`).
///
/// Address, if a byte of the array can't be read; else Short, if none is zero.
pub fn decode_string(memory: &Memory, array: Array) -> Result<(Array, Array), PropFault>
    ensures { result ≡ string_decoded memory.now array }
{
    let bytes = array.bytes(memory)?;
    let Some(count) = first_zero(bytes) else {
        return Err(PropFault::Short);
    };
    Ok((array.front(count as u32), array.behind(count as u32 + 1)))
}

/// Appends so many cells from bytes, each from 4, the high byte first.
fn push_cells(cells: &mut ArrayVec<Cell, 4>, bytes: &[u8], count: usize)
    requires room { array_vec_len cells.old + count ≤ 4 }
    requires enough { 4 * count ≤ length bytes.now }
    ensures cells { cells.new.items ≡ cells.old.items ++ cells_in count bytes.now }
{
    if count == 0 {
        return;
    }
    cells.push(Cell(BigEndian::read_u32(bytes)));
    push_cells(cells, &bytes[4..], count - 1);
}

/// Decodes a physical address of `count` cells, the high cell first, each from 4 bytes, and gives
/// what follows them (IEEE 1275-1994, annex A, `decode-phys`).
///
/// Address, if a byte of the array can't be read; else Short, if it has less than 4 for each cell.
pub fn decode_phys(
    memory: &Memory,
    array: Array,
    count: usize,
) -> Result<(ArrayVec<Cell, 4>, Array), PropFault>
    requires { count ≤ 4 }
    ensures { let decoded = phys_decoded memory.now array count in
        MatchResult result (λ x. decoded ≡ Ok (x.0.items, x.1)) (λ e. decoded ≡ Err e) }
{
    let bytes = array.bytes(memory)?;
    if bytes.len() < 4 * count {
        return Err(PropFault::Short);
    }
    let mut cells = ArrayVec::new();
    push_cells(&mut cells, bytes, count);
    Ok((cells, array.behind(4 * count as u32)))
}
