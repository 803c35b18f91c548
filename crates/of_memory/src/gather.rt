ghost use Rattle.std.specs.Prelude.{◌≡◌, ◌+◌, ◌*◌, ◌≤◌, take, drop, length};
ghost use Rattle.of_memory.specs.DataSpace.{splice};
ghost use Rattle.of_memory.specs.Access.{every, spread_over};

/// Copies `len` bytes from one place to another, as if by way of a third.
pub(crate) fn shift(bytes: &mut [u8], from: usize, to: usize, len: usize)
    requires from { from + len ≤ length bytes.old }
    requires to { to + len ≤ length bytes.old }
    ensures { bytes.new ≡ splice bytes.old to (take len (drop from bytes.old)) }
{
    bytes.copy_within(from..from + len, to);
}

/// Copies `len` bytes, the first at `from` and each `spread` after the one before, to the places
/// from `to` on, as if by way of a third.
///
/// A byte that stands below its new place is copied before those below it, since their new places
/// lie below its own; any other before those above it.
pub(crate) fn gather(bytes: &mut [u8], from: usize, to: usize, len: usize, spread: usize)
    requires some { 1 ≤ spread }
    requires from { from + spread_over len spread ≤ length bytes.old }
    requires to { to + len ≤ length bytes.old }
    ensures { bytes.new ≡ splice bytes.old to (every bytes.old from len spread) }
{
    let mut left = len;
    while left > 0 {
        left -= 1;
        if from + left * spread < to + left {
            bytes[to + left] = bytes[from + left * spread];
        }
    }
    for i in 0..len {
        if from + i * spread >= to + i {
            bytes[to + i] = bytes[from + i * spread];
        }
    }
}
