use of_cells::Cell;

/// What a word of the group Addresses takes from the data stack and leaves there; the cell is the
/// size of an item, in bytes.
#[derive(Clone, Copy)]
pub(crate) enum Addressing {
    /// ( -- n ) the size.
    Size(Cell),
    /// ( a i -- a' ) past so many items.
    Indexed(Cell),
    /// ( a -- a' ) past one item.
    Next(Cell),
    /// ( i -- n ) the size of so many items.
    Scaled(Cell),
    /// ( x -- y ) up to a multiple of 4.
    Aligned,
    /// ( -- a ) the next free address.
    Here,
    /// ( a n -- a' a ) the end of a range and its start.
    Bounds,
}
