// The words that print: they may find no memory.

ghost use Rattle.std.specs.Prelude.{◌≡◌, ◌≤◌, length, true};
ghost use Rattle.of_format.specs.Pictured.{base_in};
ghost use Rattle.of_words.specs.Words.{digits_of, number_entry, right_entry, dot_stack_entry, emit_entry, type_entry};
ghost use Rattle.of_words.specs.Words.{newline_entry, printing_entry};
ghost use Rattle.of_stacks.specs.Stacks.{Makes};

use of_board::Board;
use of_cells::Cell;
use of_fcodes::PrintingWord;
use of_format::{NumberText, base, signed_text, unsigned_text};
use of_prims::throw_of;
use of_stacks::Stop;

/// Whether a cell is printed as a signed or an unsigned number.
#[derive(Clone, Copy)]
pub enum Signs {
    /// From -2^31 to 2^31-1.
    Signed,
    /// From 0 to 2^32-1.
    Unsigned,
}

impl Signs {
    /// The digits of a cell.
    fn digits(self, x: Cell, base: u32) -> NumberText
        requires least { 2 ≤ base }
        requires most { base ≤ 36 }
        ensures text { result ≡ digits_of self base x }
        ensures short { length result ≤ 33 }
    {
        match self {
            Signs::Signed => signed_text(x, base),
            Signs::Unsigned => unsigned_text(x, base),
        }
    }
}

/// Runs a word that prints; a stop changes nothing.
#[inline(never)]
pub(crate) fn run_printing_word(word: PrintingWord, board: &mut Board) -> Result<(), Stop>
    ensures value { Makes true (printing_entry word board.old) board.old board.new result }
    ensures ready { board.old.console.ready ≡ true → board.new.console.ready ≡ true }
{
    match word {
        PrintingWord::Dot => print_number(Signs::Signed, board),
        PrintingWord::UnsignedDot => print_number(Signs::Unsigned, board),
        PrintingWord::DotRight => print_at_right(Signs::Signed, board),
        PrintingWord::UnsignedDotRight => print_at_right(Signs::Unsigned, board),
        PrintingWord::DotStack => print_stack(board),
        PrintingWord::Emit => print_byte(board),
        PrintingWord::Type => print_bytes(board),
        PrintingWord::CarriageReturn => print_newline(board),
    }
}

/// `.` and `u.` ( x -- ) print the number and a space; -24 where there is no base
fn print_number(signs: Signs, board: &mut Board) -> Result<(), Stop>
    ensures value { Makes true (number_entry signs (base_in board.old.memory) board.old.stack board.old)
        board.old board.new result }
    ensures ready { board.old.console.ready ≡ true → board.new.console.ready ≡ true }
{
    let x = board.stack.peek()?;
    let text = signs.digits(x, base(&board.memory)?);
    board.console.print_spaced(text.as_bytes())?;
    board.stack.drop_top(1);
    Ok(())
}

/// `.r` and `u.r` ( x width -- ) print the number at the right of a width; -24 where there is no base
fn print_at_right(signs: Signs, board: &mut Board) -> Result<(), Stop>
    ensures value { Makes true (right_entry signs (base_in board.old.memory) board.old.stack board.old)
        board.old board.new result }
    ensures ready { board.old.console.ready ≡ true → board.new.console.ready ≡ true }
{
    let (x, width) = board.stack.top_two()?;
    let text = signs.digits(x, base(&board.memory)?);
    let width = width.signed();
    board.console.print_at_right(width, text.as_bytes())?;
    board.stack.drop_top(2);
    Ok(())
}

/// `.s` ( -- ) prints all cells, the bottom first; -24 where there are some and no base
fn print_stack(board: &mut Board) -> Result<(), Stop>
    ensures value { Makes true (dot_stack_entry (base_in board.old.memory) board.old.stack board.old)
        board.old board.new result }
    ensures ready { board.old.console.ready ≡ true → board.new.console.ready ≡ true }
{
    if board.stack.depth() == 0 {
        return Ok(());
    }
    let base = base(&board.memory)?;
    board.console.print_stack(base, board.stack.cells())?;
    Ok(())
}

/// `emit` ( char -- ) prints the low byte
fn print_byte(board: &mut Board) -> Result<(), Stop>
    ensures value { Makes true (emit_entry board.old.stack board.old) board.old board.new result }
    ensures ready { board.old.console.ready ≡ true → board.new.console.ready ≡ true }
{
    let x = board.stack.peek()?;
    board.console.print(&[(x.0 % 0x100) as u8])?;
    board.stack.drop_top(1);
    Ok(())
}

/// `type` ( s n -- ) prints the bytes; -9 where one can't be read
fn print_bytes(board: &mut Board) -> Result<(), Stop>
    ensures value { Makes true (type_entry board.old.stack board.old) board.old board.new result }
    ensures ready { board.old.console.ready ≡ true → board.new.console.ready ≡ true }
{
    let (addr, len) = board.stack.top_two()?;
    match board.memory.slice(addr, len) {
        Ok(bytes) => board.console.print(bytes)?,
        Err(fault) => return Err(Stop::Thrown(throw_of(fault))),
    }
    board.stack.drop_top(2);
    Ok(())
}

/// `cr` ( -- ) prints a newline
fn print_newline(board: &mut Board) -> Result<(), Stop>
    ensures value { Makes true (newline_entry board.old) board.old board.new result }
    ensures ready { board.old.console.ready ≡ true → board.new.console.ready ≡ true }
{
    board.console.print(b"\n")?;
    Ok(())
}
