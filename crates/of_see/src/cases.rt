//! Where cases begin and end.
ghost use Rattle.std.specs.Prelude.{◌≡◌, ◌≤◌, ◌<◌, slice_index_or, None, OnOk};
ghost use Rattle.of_code.specs.Items.{capacity};
ghost use Rattle.of_see.specs.SeeItems.{begins_case, ends_after, has, is_new, lasting, past_case, with_end};

use of_code::Item;
use std::alloc::AllocError;

/// Whether a number is one of some.
fn has(numbers: &[u32], number: u32) -> bool
    ensures { result ≡ has numbers.now number }
{
    numbers.iter().any(|other| *other == number)
}

/// Leaves the numbers that are others than one.
pub(crate) fn leave_others(number: u32, numbers: &mut Vec<u32>)
    ensures { numbers.new.items ≡ lasting number numbers.old.items }
{
    numbers.retain(|other| *other != number);
}

/// The item at a place among some cells, if one begins there.
fn item_in(cells: &[Option<Item>], index: usize) -> Option<Item>
    ensures { result ≡ slice_index_or cells.now index None }
{
    match cells.get(index) {
        Some(cell) => *cell,
        None => None,
    }
}

/// Where an `endof` goes.
fn past_case(cell: Option<Item>) -> Option<u32>
    ensures { result ≡ past_case cell }
{
    match cell? {
        Item::EndOf(to) => Some(to.cell),
        Item::Operation(_)
        | Item::Literal(_)
        | Item::String { .. }
        | Item::Call(_)
        | Item::Store(_)
        | Item::Branch(_)
        | Item::BranchIfZero(_)
        | Item::Do(_)
        | Item::QuestionDo(_)
        | Item::Loop(_)
        | Item::PlusLoop(_)
        | Item::Leave(_)
        | Item::Of(_)
        | Item::EndCase
        | Item::Return => None,
    }
}

/// Whether no `endof` that goes there came before.
fn is_new(ends: &[u32], end: Option<u32>) -> bool
    ensures { result ≡ is_new ends.now end }
{
    match end {
        Some(end) => !has(ends, end),
        None => true,
    }
}

/// Whether `case` stands before the item at a cell.
pub(crate) fn begins_case(
    first: u32,
    cells: &[Option<Item>],
    place: u32,
    item: Item,
    ends: &[u32],
) -> bool
    requires { place < capacity }
    ensures { result ≡ begins_case first cells.now place item ends.now }
{
    match item {
        Item::Of(to) => {
            let last = to.cell.saturating_sub(first).saturating_sub(2);
            is_new(ends, past_case(item_in(cells, last as usize)))
        }
        Item::EndCase => !has(ends, place + 1),
        Item::Operation(_)
        | Item::Literal(_)
        | Item::String { .. }
        | Item::Call(_)
        | Item::Store(_)
        | Item::Branch(_)
        | Item::BranchIfZero(_)
        | Item::Do(_)
        | Item::QuestionDo(_)
        | Item::Loop(_)
        | Item::PlusLoop(_)
        | Item::Leave(_)
        | Item::EndOf(_)
        | Item::Return => false,
    }
}

/// Keeps where an `endof` goes.
fn keep_end(end: u32, ends: &mut Vec<u32>) -> Result<(), AllocError>
    ensures { OnOk result (ends.new.items ≡ with_end end ends.old.items) }
{
    if has(ends, end) {
        return Ok(());
    }
    ends.insert(0, end)?;
    Ok(())
}

/// Keeps where the cases end that an item leaves open.
pub(crate) fn pass_cases(place: u32, item: Item, ends: &mut Vec<u32>) -> Result<(), AllocError>
    requires { place < capacity }
    ensures { OnOk result (ends.new.items ≡ ends_after place item ends.old.items) }
{
    match item {
        Item::EndOf(to) => keep_end(to.cell, ends),
        Item::EndCase => {
            leave_others(place + 1, ends);
            Ok(())
        }
        Item::Operation(_)
        | Item::Literal(_)
        | Item::String { .. }
        | Item::Call(_)
        | Item::Store(_)
        | Item::Branch(_)
        | Item::BranchIfZero(_)
        | Item::Do(_)
        | Item::QuestionDo(_)
        | Item::Loop(_)
        | Item::PlusLoop(_)
        | Item::Leave(_)
        | Item::Of(_)
        | Item::Return => Ok(()),
    }
}
