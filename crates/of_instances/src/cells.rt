ghost use Rattle.std.specs.Prelude.{◌≡◌, ◌≤◌, ◌<◌, ◌+◌, ◌*◌, ◌++◌, length, take, drop, IfOk, IfErr, OnOk};
ghost use Rattle.arrayvec.specs.ArrayVec.{array_vec_len};
ghost use Rattle.of_props.specs.Encoding.{phys_bytes};
ghost use Rattle.of_stacks.specs.Throws.{stack_underflow};

use arrayvec::ArrayVec;
use byteorder::{BigEndian, ByteOrder};
use of_cells::Cell;
use of_stacks::{DataStack, Throw};

/// So many cells under some others, which must be there, the top first, or -4 where there are fewer.
#[tactic(auto, using(crate::proofs::Under::past, crate::proofs::Under::one_more))]
pub(crate) fn cells_under(
    stack: &DataStack,
    others: usize,
    count: usize,
) -> Result<ArrayVec<Cell, 5>, Throw>
    requires others { others ≤ length stack.now }
    requires near { others ≤ 1 }
    requires few { count ≤ 4 }
    ensures cells { IfOk result (λ c. c.items ≡ take count (drop others stack.now)) }
    ensures len { IfOk result (λ c. array_vec_len c ≡ count) }
    ensures there { OnOk result (others + count ≤ length stack.now) }
    ensures missing { IfErr result (λ t. (length stack.now < others + count) × (t ≡ stack_underflow)) }
{
    let mut cells = ArrayVec::new();
    for i in 0..count {
        let Ok(x) = stack.under(others + i) else {
            return Err(Throw::STACK_UNDERFLOW);
        };
        cells.push(x);
    }
    Ok(cells)
}

/// Appends the bytes of cells, each with the high byte first.
pub(crate) fn push_cells(bytes: &mut ArrayVec<u8, 20>, cells: &[Cell])
    requires room { array_vec_len bytes.old + 4 * length cells.now ≤ 20 }
    ensures bytes { bytes.new.items ≡ bytes.old.items ++ phys_bytes cells.now }
{
    let [first, rest @ ..] = cells else {
        return;
    };
    let mut four = [0; 4];
    BigEndian::write_u32(&mut four, first.0);
    bytes.push(four[0]);
    bytes.push(four[1]);
    bytes.push(four[2]);
    bytes.push(four[3]);
    push_cells(bytes, rest);
}

/// Puts cells on the stack, the first on top; there must be room.
pub(crate) fn push_all(stack: &mut DataStack, cells: &[Cell])
    requires { length stack.old + length cells.now ≤ 256 }
    ensures { stack.new ≡ cells.now ++ stack.old }
{
    let [first, rest @ ..] = cells else {
        return;
    };
    push_all(stack, rest);
    stack.push(*first);
}
