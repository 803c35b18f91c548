//! Items at the end of an open definition, and places.
ghost use Rattle.std.specs.Prelude.{◌≡◌, ◌≤◌, ◌+◌, length};
ghost use Rattle.of_code.specs.Items.{IsStorable, capacity, cells_of};
ghost use Rattle.of_code.specs.Code.{appended};
ghost use Rattle.of_compile.specs.Coding.{fits, place_of};

use of_code::{CAPACITY, CodeStore, Item, Place};

/// Whether an item, if there is one, doesn't pass the last cell.
pub(crate) fn fits<C: CodeStore>(item: Option<Item>, code: &C) -> bool
    ensures { result ≡ fits item (C.code code.now) }
{
    let end = code.end();
    match item {
        Some(item) => end.cell + item.cells() <= CAPACITY as u32,
        None => true,
    }
}

/// Appends an item for which there is room.
pub(crate) fn put<C: CodeStore>(item: Item, code: &mut C)
    requires storable { IsStorable item }
    requires room { length (C.code code.old).cells + cells_of item ≤ capacity }
    requires memory { 1 ≤ C.spare code.old }
    ensures code { C.code code.new ≡ appended (C.code code.old) item }
    ensures spare { C.spare code.old ≤ C.spare code.new + 1 }
{
    match code.append(item) {
        Ok(_) => {}
        Err(_) => unreachable!(),
    }
}

/// The place of a cell.
pub(crate) fn place_of(cell: usize) -> Place
    requires { cell ≤ capacity }
    ensures { result ≡ place_of cell }
{
    Place { cell: cell as u32 }
}
