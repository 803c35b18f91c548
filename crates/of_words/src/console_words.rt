// The console's ordinary words over the board, which have no FCode. Those that print may find no memory.

ghost use Rattle.std.specs.Prelude.{◌≡◌, Ok, false, true};
ghost use Rattle.of_words.specs.ConsoleWords.{allot_entry, console_entry, console_grows, debug_cell};
ghost use Rattle.of_words.specs.ConsoleWords.{erase_entry, here_at, spaces_entry, with_base};
ghost use Rattle.of_stacks.specs.Stacks.{Makes};
ghost use Rattle.of_memory.specs.Growth.{aligned};
ghost use Rattle.of_prims.specs.Data.{cell_at};

use crate::console_numbers::{
    calculate_on, decrease, extend, increase, push, scale, scale_with_rest,
};
use crate::tree_texts::{end_device, print_children, print_devices, print_path, print_properties};
use of_board::Board;
use of_cells::Cell;
use of_fcodes::{ArithmeticWord, ConsoleWord};
use of_memory::{Memory, scratch_is_open};
use of_prims::throw_of;
use of_stacks::Stop;

/// Where the cell `base` stands.
const BASE: Cell = Cell(0x50_0000);

/// Where the flag of `fcode-debug?` stands.
const DEBUG: Cell = Cell(0x50_0004);

/// Runs a word of the console; a stop changes nothing.
#[inline(never)]
pub(crate) fn run_console_word(word: ConsoleWord, board: &mut Board) -> Result<(), Stop>
    ensures value { Makes (console_grows word) (console_entry word board.old) board.old board.new result }
    ensures ready { board.old.console.ready ≡ true → board.new.console.ready ≡ true }
{
    match word {
        ConsoleWord::OnePlus => increase(Cell::ONE, board),
        ConsoleWord::OneMinus => decrease(Cell::ONE, board),
        ConsoleWord::TwoPlus => increase(Cell(2), board),
        ConsoleWord::TwoMinus => decrease(Cell(2), board),
        ConsoleWord::True => push(Cell::TRUE, board),
        ConsoleWord::False => push(Cell::ZERO, board),
        ConsoleWord::ShiftLeft => calculate_on(ArithmeticWord::LeftShift, board),
        ConsoleWord::ShiftRight => calculate_on(ArithmeticWord::RightShift, board),
        ConsoleWord::Not => calculate_on(ArithmeticWord::Invert, board),
        ConsoleWord::Struct => push(Cell::ZERO, board),
        ConsoleWord::Space => print_blank(board),
        ConsoleWord::Spaces => print_blanks(board),
        ConsoleWord::Allot => move_here(board),
        ConsoleWord::Align => align_here(board),
        ConsoleWord::Erase => erase(board),
        ConsoleWord::Hex => set_base(Cell(16), board),
        ConsoleWord::Decimal => set_base(Cell(10), board),
        ConsoleWord::SingleToDouble => extend(board),
        ConsoleWord::TimesSlash => scale(board),
        ConsoleWord::TimesSlashMod => scale_with_rest(board),
        ConsoleWord::FcodeDebug => push(debug_flag(&board.memory), board),
        ConsoleWord::DeviceEnd => end_device(board),
        ConsoleWord::PrintPath => print_path(board),
        ConsoleWord::PrintChildren => print_children(board),
        ConsoleWord::PrintProperties => print_properties(board),
        ConsoleWord::ShowDevices => print_devices(board),
    }
}

/// `space` ( -- ) prints a blank
fn print_blank(board: &mut Board) -> Result<(), Stop>
    ensures value { Makes true (console_entry ConsoleWord.Space board.old) board.old board.new result }
    ensures ready { board.old.console.ready ≡ true → board.new.console.ready ≡ true }
{
    board.console.print(b" ")?;
    Ok(())
}

/// `spaces` ( n -- ) prints so many blanks, and none where the number is negative; -4 where it is missing
#[tactic(auto, using(crate::proofs::Blanks::at_right_blanks))]
fn print_blanks(board: &mut Board) -> Result<(), Stop>
    ensures value { Makes true (spaces_entry board.old.stack board.old) board.old board.new result }
    ensures ready { board.old.console.ready ≡ true → board.new.console.ready ≡ true }
{
    let n = board.stack.peek()?;
    board.console.print_at_right(n.signed(), b"")?;
    board.stack.drop_top(1);
    Ok(())
}

/// `allot` ( n -- ) moves `here` by the signed number; -4 where that is missing, -8 where `here` would leave the data
/// region
fn move_here(board: &mut Board) -> Result<(), Stop>
    ensures value { Makes false (allot_entry board.old.stack board.old) board.old board.new result }
    ensures ready { board.old.console.ready ≡ true → board.new.console.ready ≡ true }
{
    let n = board.stack.peek()?;
    match board.memory.allot(n) {
        Ok(()) => {
            board.stack.drop_top(1);
            Ok(())
        }
        Err(fault) => Err(Stop::Thrown(throw_of(fault))),
    }
}

/// `align` ( -- ) moves `here` up to a multiple of 4, which always lies in the data region or at its end
fn align_here(board: &mut Board) -> Result<(), Stop>
    ensures value { Makes false (console_entry ConsoleWord.Align board.old) board.old board.new result }
    ensures ready { board.old.console.ready ≡ true → board.new.console.ready ≡ true }
{
    align_memory(&mut board.memory);
    Ok(())
}

/// The same of the data space.
#[tactic(auto, using(crate::proofs::Aligning::aligns))]
fn align_memory(memory: &mut Memory)
    ensures { memory.new ≡ here_at (aligned memory.old.here) memory.old }
{
    let here = memory.here();
    let _ = memory.allot(Cell((4 - here.0 % 4) % 4));
}

/// `erase` ( a n -- ) makes each byte of the range 0; -4 where a cell is missing, -9 where a byte can't be read, -20
/// where programs may only read the region
fn erase(board: &mut Board) -> Result<(), Stop>
    ensures value { Makes false (erase_entry board.old.stack board.old) board.old board.new result }
    ensures ready { board.old.console.ready ≡ true → board.new.console.ready ≡ true }
{
    let (a, n) = board.stack.top_two()?;
    match board.memory.fill(a, n, 0) {
        Ok(()) => {
            board.stack.drop_top(2);
            Ok(())
        }
        Err(fault) => Err(Stop::Thrown(throw_of(fault))),
    }
}

/// `hex` and `decimal` ( -- ) store a number in the cell `base`
fn set_base(base: Cell, board: &mut Board) -> Result<(), Stop>
    ensures value { Makes false (Ok (record board.old { memory = with_base base.0 board.old.memory }))
        board.old board.new result }
    ensures ready { board.old.console.ready ≡ true → board.new.console.ready ≡ true }
{
    store_base(base, &mut board.memory);
    Ok(())
}

/// The number goes into the cell `base`, which can always be written.
fn store_base(base: Cell, memory: &mut Memory)
    ensures { memory.new ≡ with_base base.0 memory.old }
{
    scratch_is_open();
    let _ = memory.write32(BASE, base);
}

/// The flag of `fcode-debug?`, which can always be read.
fn debug_flag(memory: &Memory) -> Cell
    ensures { result ≡ cell_at memory.now debug_cell }
{
    scratch_is_open();
    match memory.read32(DEBUG) {
        Ok(flag) => flag,
        // There is no fault there.
        Err(_) => Cell::ZERO,
    }
}
