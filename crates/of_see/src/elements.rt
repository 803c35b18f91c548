//! The elements that `see` prints of a definition.
ghost use Rattle.std.specs.Prelude.{◌≡◌, ◌<◌, ◌≤◌, ◌-◌, ◌++◌, length, replicate, None, IfOk, OnOk};
ghost use Rattle.of_code.specs.Items.{capacity};
ghost use Rattle.of_compile.specs.declared.element.Element.TheVariants.{Mark};
ghost use Rattle.of_see.specs.SeeItems.{before_item, cell_elements, ending, endings, item_elements, see_items};

use crate::begins::all_begins;
use crate::cases::begins_case;
use crate::definition::element_at;
use crate::open::Open;
use of_code::Item;
use of_compile::Element;
use std::alloc::{AllocError, Global};

/// Appends the end of a branch that so many later ones outlast.
fn push_ending(later: usize, out: &mut Vec<Element>) -> Result<(), AllocError>
    ensures { OnOk result (out.new.items ≡ out.old.items ++ ending later) }
{
    if later > 0 {
        out.push(Element::Roll(later))?;
    }
    out.push(Element::Resolve(None))?;
    Ok(())
}

/// Appends the ends of the branches that go to a cell, the latest first.
fn push_endings(place: u32, branches: &[u32], out: &mut Vec<Element>) -> Result<(), AllocError>
    ensures { OnOk result (out.new.items ≡ out.old.items ++ endings place 0 branches.now) }
{
    let mut later = 0;
    for to in branches {
        if *to == place {
            push_ending(later, out)?;
        } else {
            later += 1;
        }
    }
    Ok(())
}

/// Appends so many `begin`s.
fn push_begins(count: u32, out: &mut Vec<Element>) -> Result<(), AllocError>
    ensures { OnOk result (out.new.items ≡ out.old.items ++ replicate count (Mark None)) }
{
    let mut left = count;
    while left > 0 {
        out.push(Element::Mark(None))?;
        left -= 1;
    }
    Ok(())
}

/// Appends what stands before an item: the ends of the branches that go there, and so many `begin`s.
fn push_before(
    place: u32,
    count: u32,
    structures: &Open,
    out: &mut Vec<Element>,
) -> Result<(), AllocError>
    ensures { OnOk result (out.new.items ≡ out.old.items ++ before_item place count structures.now) }
{
    push_endings(place, &structures.branches, out)?;
    push_begins(count, out)
}

/// Appends the element of an item, and the `case` that stands before it.
fn push_item(
    first: u32,
    cells: &[Option<Item>],
    place: u32,
    item: Item,
    structures: &Open,
    out: &mut Vec<Element>,
) -> Result<(), AllocError>
    requires { place < capacity }
    ensures { OnOk result (out.new.items ≡ out.old.items ++ item_elements first cells.now place item structures.now) }
{
    if begins_case(first, cells, place, item, &structures.cases) {
        out.push(Element::Case)?;
    }
    if let Some(element) = element_at(place, item) {
        out.push(element)?;
    }
    Ok(())
}

/// Appends what is printed of a cell, to which so many items go back.
fn push_cell(
    first: u32,
    cells: &[Option<Item>],
    place: u32,
    cell: Option<Item>,
    count: u32,
    structures: &Open,
    out: &mut Vec<Element>,
) -> Result<(), AllocError>
    requires { place < capacity }
    ensures { OnOk result
        (out.new.items ≡ out.old.items ++ cell_elements first cells.now place cell count structures.now) }
{
    let Some(item) = cell else {
        return Ok(());
    };
    push_before(place, count, structures, out)?;
    push_item(first, cells, place, item, structures, out)
}

/// The elements that `see` prints of a definition whose cells are these, from one of the code on (IEEE 1275-1994,
/// annex A, `see`; Forth 2012, 15.6.1.2194).
#[tactic(auto, using(crate::proofs::BeginCounts::all_length))]
pub(crate) fn see_items(
    alloc: Global,
    first: u32,
    cells: &[Option<Item>],
) -> Result<Vec<Element>, AllocError>
    requires { length cells.now ≤ capacity - first }
    ensures { IfOk result (λ elements. elements.items ≡ see_items first cells.now) }
{
    let counts = all_begins(alloc, first, cells)?;
    let mut structures = Open::new(alloc);
    let mut out = Vec::new(alloc);
    for (index, cell) in cells.iter().enumerate() {
        let place = first + index as u32;
        push_cell(
            first,
            cells,
            place,
            *cell,
            counts[index],
            &structures,
            &mut out,
        )?;
        structures.pass(place, *cell)?;
    }
    push_endings(first + cells.len() as u32, &structures.branches, &mut out)?;
    Ok(out)
}
