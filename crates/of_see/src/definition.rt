//! The cells of a definition, and the items in them.
ghost use Rattle.std.specs.Prelude.{◌≡◌, ◌≤◌, ◌-◌, drop, length, IfOk};
ghost use Rattle.of_code.specs.Items.{capacity};
ghost use Rattle.of_see.specs.SeeItems.{branch_element, branch_of, cells_to_return, element_at};

use of_code::{CodeStore, Item, Place};
use of_compile::{Element, PlainItem};
use std::alloc::{AllocError, Global};

/// The cells of the definition that begins at a cell, up to its return.
pub(crate) fn definition_cells<C: CodeStore>(
    alloc: Global,
    code: &C,
    start: u32,
) -> Result<Vec<Option<Item>>, AllocError>
    ensures cells { IfOk result (λ cells. cells.items ≡ cells_to_return (drop start (C.code code.now).cells)) }
    ensures few { IfOk result (λ cells. length cells.items ≤ capacity - start) }
{
    let mut cells = Vec::new(alloc);
    for cell in start..code.end().cell {
        let item = code.item_at(Place { cell });
        if matches!(item, Some(Item::Return)) {
            return Ok(cells);
        }
        cells.push(item)?;
    }
    Ok(cells)
}

/// Where a branch goes, and whether it takes a cell first.
pub(crate) fn branch_of(item: Item) -> Option<(bool, u32)>
    ensures { result ≡ branch_of item }
{
    match item {
        Item::Branch(to) => Some((false, to.cell)),
        Item::BranchIfZero(to) => Some((true, to.cell)),
        Item::Operation(_)
        | Item::Literal(_)
        | Item::String { .. }
        | Item::Call(_)
        | Item::Store(_)
        | Item::Do(_)
        | Item::QuestionDo(_)
        | Item::Loop(_)
        | Item::PlusLoop(_)
        | Item::Leave(_)
        | Item::Of(_)
        | Item::EndOf(_)
        | Item::EndCase
        | Item::Return => None,
    }
}

/// A branch from one cell to another: forward, or back.
fn branch_element(place: u32, on_zero: bool, to: u32) -> Element
    ensures { result ≡ branch_element place on_zero to }
{
    if place < to {
        Element::Branch(on_zero, None)
    } else {
        Element::Back(on_zero, None)
    }
}

/// The element of the item at a cell; a return has none.
pub(crate) fn element_at(place: u32, item: Item) -> Option<Element>
    ensures { result ≡ element_at place item }
{
    match item {
        Item::Operation(xt) => Some(Element::Plain(PlainItem::Operation(xt))),
        Item::Literal(x) => Some(Element::Plain(PlainItem::Literal(x))),
        Item::String { address, length } => {
            Some(Element::Plain(PlainItem::String { address, length }))
        }
        Item::Call(xt) => Some(Element::Plain(PlainItem::Call(xt))),
        Item::Store(xt) => Some(Element::Plain(PlainItem::Store(xt))),
        Item::Branch(to) => Some(branch_element(place, false, to.cell)),
        Item::BranchIfZero(to) => Some(branch_element(place, true, to.cell)),
        Item::Do(_) => Some(Element::Do(false)),
        Item::QuestionDo(_) => Some(Element::Do(true)),
        Item::Loop(_) => Some(Element::Loop(false)),
        Item::PlusLoop(_) => Some(Element::Loop(true)),
        Item::Leave(_) => Some(Element::Leave),
        Item::Of(_) => Some(Element::Of),
        Item::EndOf(_) => Some(Element::EndOf),
        Item::EndCase => Some(Element::EndCase),
        Item::Return => None,
    }
}
