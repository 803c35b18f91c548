//! The words over instances that run no method.
ghost use Rattle.std.specs.Prelude.{◌≡◌, ◌≤◌, ◌<◌, ◌+◌, length, take, drop, true, IfOk, IfErr, IfSome, MatchOption};
ghost use Rattle.std.specs.Prelude.{Some, None, Ok, Err};
ghost use Rattle.arrayvec.specs.ArrayVec.{array_vec_len};
ghost use Rattle.of_cells.specs.Outcomes.{Becomes};
ghost use Rattle.of_stacks.specs.Stacks.{Makes};
ghost use Rattle.of_instances.specs.InstanceWords.{arguments_left, my_address_entry, my_args_entry, my_parent_entry};
ghost use Rattle.of_instances.specs.InstanceWords.{my_self_entry, my_space_entry, my_unit_entry, numbers_read};
ghost use Rattle.of_instances.specs.InstanceWords.{own_cells, own_unit, package_of_entry, set_args_entry};
ghost use Rattle.of_instances.specs.InstanceWords.{unit_left, unit_read};

use crate::cells::push_all;
use crate::faults::of_instance;
use crate::reading::{cells_of, text_at};
use arrayvec::ArrayVec;
use of_board::Board;
use of_cells::Cell;
use of_format::read_number;
use of_nodes::{before, behind};
use of_stacks::{Stop, Throw};

/// `my-self` ( -- ih or 0 ) the current instance.
#[tactic(auto, unfolding(crate::specs::InstanceWords::my_self_entry))]
#[inline(never)]
pub(crate) fn my_self(board: &mut Board) -> Result<(), Throw>
    ensures value { Becomes (my_self_entry board.old.stack board.old) board.old board.new result }
    ensures console { board.new.console ≡ board.old.console }
{
    board.stack.try_push(board.active.my_self)
}

/// `my-parent` ( -- ih or 0 ) the instance that the current one was opened below; -260 where none is current.
#[tactic(auto, unfolding(crate::specs::InstanceWords::my_parent_entry))]
#[inline(never)]
pub(crate) fn my_parent(board: &mut Board) -> Result<(), Throw>
    ensures value { Becomes (my_parent_entry board.old.stack board.old) board.old board.new result }
    ensures console { board.new.console ≡ board.old.console }
{
    let parent = of_instance(board.instances.parent(board.active.my_self))?;
    board.stack.try_push(parent)
}

/// `ihandle>phandle` ( ih -- ph ) the package of an instance; -260 where there is none.
#[tactic(auto, unfolding(crate::specs::InstanceWords::package_of_entry))]
#[inline(never)]
pub(crate) fn package_of(board: &mut Board) -> Result<(), Throw>
    ensures value { Becomes (package_of_entry board.old.stack board.old) board.old board.new result }
    ensures console { board.new.console ≡ board.old.console }
{
    let ihandle = board.stack.peek()?;
    let package = of_instance(board.instances.package(ihandle))?;
    board.stack.replace_top(package.0);
    Ok(())
}

/// `my-args` ( -- s n ) the arguments of the current instance; -260 where none is current.
#[tactic(auto, unfolding(crate::specs::InstanceWords::my_args_entry))]
#[inline(never)]
pub(crate) fn my_args(board: &mut Board) -> Result<(), Throw>
    ensures value { Becomes (my_args_entry board.old.stack board.old) board.old board.new result }
    ensures console { board.new.console ≡ board.old.console }
{
    let arguments = of_instance(board.instances.args(board.active.my_self))?;
    board.stack.room_for(2)?;
    board.stack.push(arguments.address);
    board.stack.push(arguments.length);
    Ok(())
}

/// How many cells an address of the current instance's package has; -260 where none is current.
fn own_cells(board: &Board) -> Result<usize, Throw>
    ensures value { result ≡ own_cells board.now }
    ensures few { IfOk result (λ count. count ≤ 4) }
{
    let package = of_instance(board.instances.package(board.active.my_self))?;
    cells_of(&board.memory, &board.tree, package)
}

/// The four cells of the current instance's address, the high one first, and how many of them count; -260 where none
/// is current.
fn own_unit(board: &Board) -> Result<([Cell; 4], usize), Throw>
    ensures found { IfOk result (λ unit. own_unit board.now ≡ Ok (take unit.1 unit.0)) }
    ensures few { IfOk result (λ unit. unit.1 ≤ 4) }
    ensures missing { IfErr result (λ t. own_unit board.now ≡ Err t) }
{
    let unit = of_instance(board.instances.unit(board.active.my_self))?;
    let count = own_cells(board)?;
    Ok((unit, count))
}

/// The first cell, if there is one.
fn high(cells: &[Cell]) -> &[Cell]
    ensures value { result.now ≡ take 1 cells.now }
    ensures few { length result.now ≤ length cells.now }
{
    if cells.is_empty() { cells } else { &cells[..1] }
}

/// The cells behind the first.
fn behind_high(cells: &[Cell]) -> &[Cell]
    ensures value { result.now ≡ drop 1 cells.now }
    ensures few { length result.now ≤ length cells.now }
{
    if cells.is_empty() { cells } else { &cells[1..] }
}

/// Puts at most four cells on the stack, the first on top; -3 where there is no room for them.
fn push_cells(cells: &[Cell], board: &mut Board) -> Result<(), Throw>
    requires { length cells.now ≤ 4 }
    ensures value { Becomes (unit_left board.old.stack board.old (Ok cells.now)) board.old board.new result }
    ensures console { board.new.console ≡ board.old.console }
{
    board.stack.room_for(cells.len())?;
    push_all(&mut board.stack, cells);
    Ok(())
}

/// `my-unit` ( -- lo .. hi ) the physical address of the current instance; -260 where none is current.
#[tactic(auto, unfolding(crate::specs::InstanceWords::my_unit_entry))]
#[inline(never)]
pub(crate) fn my_unit(board: &mut Board) -> Result<(), Throw>
    ensures value { Becomes (my_unit_entry board.old.stack board.old) board.old board.new result }
    ensures console { board.new.console ≡ board.old.console }
{
    let (unit, count) = own_unit(board)?;
    push_cells(&unit[..count], board)
}

/// `my-address` ( -- lo .. ) the same without the high cell; -260 where none is current.
#[tactic(auto, unfolding(crate::specs::InstanceWords::my_address_entry))]
#[inline(never)]
pub(crate) fn my_address(board: &mut Board) -> Result<(), Throw>
    ensures value { Becomes (my_address_entry board.old.stack board.old) board.old board.new result }
    ensures console { board.new.console ≡ board.old.console }
{
    let (unit, count) = own_unit(board)?;
    push_cells(behind_high(&unit[..count]), board)
}

/// `my-space` ( -- hi ) the high cell alone; -260 where none is current.
#[tactic(auto, unfolding(crate::specs::InstanceWords::my_space_entry))]
#[inline(never)]
pub(crate) fn my_space(board: &mut Board) -> Result<(), Throw>
    ensures value { Becomes (my_space_entry board.old.stack board.old) board.old board.new result }
    ensures console { board.new.console ≡ board.old.console }
{
    let (unit, count) = own_unit(board)?;
    push_cells(high(&unit[..count]), board)
}

/// A hexadecimal number that a text begins with, and so many more behind it, each behind a comma.
#[tactic(auto, using(crate::proofs::Numbers::last_read, crate::proofs::Numbers::more_read))]
fn read_numbers(more: usize, text: &[u8]) -> Option<ArrayVec<Cell, 4>>
    requires { more < 4 }
    ensures read { MatchOption result (numbers_read more (Some text.now) ≡ None)
        (λ cells. numbers_read more (Some text.now) ≡ Some cells.items) }
    ensures few { IfSome result (λ cells. array_vec_len cells ≤ more + 1) }
{
    if more < 1 {
        let mut cells = ArrayVec::new();
        cells.push(read_number(text, 16)?);
        return Some(cells);
    }
    let mut cells = read_numbers(more - 1, behind(text, b',')?)?;
    cells.insert(0, read_number(before(text, b','), 16)?);
    Some(cells)
}

/// The cells of a physical address of so many that a text has, the high one first: none where it is empty.
#[tactic(auto, using(crate::proofs::Numbers::unit_numbers, crate::proofs::Numbers::unit_none))]
fn read_unit(count: usize, text: &[u8]) -> Option<ArrayVec<Cell, 4>>
    requires { count ≤ 4 }
    ensures { MatchOption result (unit_read count text.now ≡ None)
        (λ cells. unit_read count text.now ≡ Some cells.items) }
{
    if text.len() < 1 {
        return Some(ArrayVec::new());
    }
    if count < 1 {
        return None;
    }
    read_numbers(count - 1, text)
}

/// Gives the current instance other arguments and another address, and drops four cells, which must be there.
fn set_both(board: &mut Board, arguments: &[u8], unit: &[Cell]) -> Result<(), Throw>
    requires { 4 ≤ length board.old.stack }
    ensures value { Becomes (arguments_left (drop 4 board.old.stack) board.old arguments.now (Some unit.now)) board.old
        board.new result }
    ensures console { board.new.console ≡ board.old.console }
{
    let me = board.active.my_self;
    of_instance(
        board
            .instances
            .set_args(&mut board.memory, me, arguments, unit),
    )?;
    board.stack.drop_top(4);
    Ok(())
}

/// `set-args` ( args n unit n -- ) gives the current instance a copy of other arguments, and another address; -260
/// where none is current, -9 where a byte can't be read, -24 where the second text is no address, -8 where there is no
/// room.
#[tactic(auto, unfolding(crate::specs::InstanceWords::set_args_entry))]
#[inline(never)]
pub(crate) fn set_args(board: &mut Board) -> Result<(), Stop>
    ensures value { Makes true (set_args_entry board.old.stack board.old) board.old board.new result }
    ensures console { board.new.console ≡ board.old.console }
{
    let (from, count, address, length) = board.stack.top_four()?;
    let cells = own_cells(board)?;
    let arguments = Vec::from_slice(
        board.active.new_devices.alloc(),
        text_at(&board.memory, from, count)?,
    )?;
    let Some(unit) = read_unit(cells, text_at(&board.memory, address, length)?) else {
        return Err(Stop::Thrown(Throw::INVALID_ARGUMENT));
    };
    set_both(board, arguments.as_slice(), unit.as_slice())?;
    Ok(())
}
