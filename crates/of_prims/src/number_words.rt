ghost use Rattle.std.specs.Prelude.{◌≡◌, ◌≤◌, [], ◌∷◌, length, drop};
ghost use Rattle.of_cells.specs.Outcomes.{Becomes};
ghost use Rattle.of_stacks.specs.Stacks.{within};
ghost use Rattle.of_fcodes.specs.declared.words.NumbersWord.{NumbersWord};
ghost use Rattle.of_cells.specs.Doubles.{number_of};
ghost use Rattle.of_calc.specs.Arithmetic.{double_of};
ghost use Rattle.of_prims.specs.Data.{data_of};
ghost use Rattle.of_prims.specs.Numbers.{numbers_entry, beside, holding};
ghost use Rattle.of_format.specs.Pictured.{held};

use crate::faults::slice;
use of_cells::{Cell, Double};
use of_fcodes::NumbersWord;
use of_format::{Pictured, base, digit, digit_byte, double_text, read_number, unsigned_text};
use of_memory::Memory;
use of_stacks::{DataStack, Throw};

/// The address of the cell `base`.
const BASE: Cell = Cell(0x50_0000);

/// What `fcode-revision` answers.
const REVISION: Cell = Cell(0x3_0000);

/// ( char -- ) holds the low byte.
#[tactic(auto, unfolding(crate::specs::Numbers::numbers_entry))]
#[inline(never)]
fn hold_char(
    stack: &mut DataStack,
    memory: &mut Memory,
    pictured: &mut Pictured,
) -> Result<(), Throw>
    ensures { Becomes (numbers_entry NumbersWord.Hold stack.old memory.old pictured.old)
        (data_of stack.old memory.old pictured.old) (data_of stack.new memory.new pictured.new) result }
{
    let char = stack.peek()?;
    pictured.hold(memory, char.low_byte().0 as u8)?;
    stack.drop_top(1);
    Ok(())
}

/// ( n -- ) holds `-`.
#[inline(never)]
fn hold_minus(
    stack: &mut DataStack,
    memory: &mut Memory,
    pictured: &mut Pictured,
) -> Result<(), Throw>
    requires { 1 ≤ length stack.old }
    ensures { Becomes (holding (drop 1 stack.old) (held memory.old pictured.old (45 ∷ [])))
        (data_of stack.old memory.old pictured.old) (data_of stack.new memory.new pictured.new) result }
{
    pictured.hold(memory, b'-')?;
    stack.drop_top(1);
    Ok(())
}

/// ( n -- ) holds `-` where the number is negative.
#[tactic(auto, unfolding(crate::specs::Numbers::numbers_entry))]
#[inline(never)]
fn hold_sign(
    stack: &mut DataStack,
    memory: &mut Memory,
    pictured: &mut Pictured,
) -> Result<(), Throw>
    ensures { Becomes (numbers_entry NumbersWord.Sign stack.old memory.old pictured.old)
        (data_of stack.old memory.old pictured.old) (data_of stack.new memory.new pictured.new) result }
{
    let n = stack.peek()?;
    if n.is_less(Cell::ZERO) {
        return hold_minus(stack, memory, pictured);
    }
    stack.drop_top(1);
    Ok(())
}

/// The number of a double that stands in two cells.
#[inline]
fn number_of(low: Cell, high: Cell) -> u64
    ensures { result ≡ number_of (double_of low high) }
{
    Double { low, high }.number()
}

/// ( d -- d ) holds the last digit, and leaves the other ones.
#[tactic(auto, unfolding(crate::specs::Numbers::numbers_entry))]
#[inline(never)]
fn hold_digit(
    stack: &mut DataStack,
    memory: &mut Memory,
    pictured: &mut Pictured,
) -> Result<(), Throw>
    ensures { Becomes (numbers_entry NumbersWord.NextDigit stack.old memory.old pictured.old)
        (data_of stack.old memory.old pictured.old) (data_of stack.new memory.new pictured.new) result }
{
    let (low, high) = stack.top_two()?;
    let base = u64::from(base(memory)?);
    let number = number_of(low, high);
    pictured.hold(memory, digit_byte((number % base) as u32))?;
    let rest = Double::new(number / base);
    stack.replace_two(rest.low);
    stack.push(rest.high);
    Ok(())
}

/// ( d -- 0 0 ) holds all digits.
#[tactic(auto, unfolding(crate::specs::Numbers::numbers_entry))]
#[inline(never)]
fn hold_digits(
    stack: &mut DataStack,
    memory: &mut Memory,
    pictured: &mut Pictured,
) -> Result<(), Throw>
    ensures { Becomes (numbers_entry NumbersWord.AllDigits stack.old memory.old pictured.old)
        (data_of stack.old memory.old pictured.old) (data_of stack.new memory.new pictured.new) result }
{
    let (low, high) = stack.top_two()?;
    let text = double_text(Double { low, high }, base(memory)?);
    pictured.hold_text(memory, text.as_bytes())?;
    stack.replace_two(Cell::ZERO);
    stack.push(Cell::ZERO);
    Ok(())
}

/// ( u -- u ) holds the last digit, and leaves the other ones.
#[tactic(auto, unfolding(crate::specs::Numbers::numbers_entry))]
#[inline(never)]
fn hold_unsigned_digit(
    stack: &mut DataStack,
    memory: &mut Memory,
    pictured: &mut Pictured,
) -> Result<(), Throw>
    ensures { Becomes (numbers_entry NumbersWord.UnsignedDigit stack.old memory.old pictured.old)
        (data_of stack.old memory.old pictured.old) (data_of stack.new memory.new pictured.new) result }
{
    let u = stack.peek()?;
    let base = base(memory)?;
    pictured.hold(memory, digit_byte(u.0 % base))?;
    stack.replace_top(Cell(u.0 / base));
    Ok(())
}

/// ( u -- 0 ) holds all digits.
#[tactic(auto, unfolding(crate::specs::Numbers::numbers_entry))]
#[inline(never)]
fn hold_unsigned_digits(
    stack: &mut DataStack,
    memory: &mut Memory,
    pictured: &mut Pictured,
) -> Result<(), Throw>
    ensures { Becomes (numbers_entry NumbersWord.UnsignedDigits stack.old memory.old pictured.old)
        (data_of stack.old memory.old pictured.old) (data_of stack.new memory.new pictured.new) result }
{
    let u = stack.peek()?;
    let text = unsigned_text(u, base(memory)?);
    pictured.hold_text(memory, text.as_bytes())?;
    stack.replace_top(Cell::ZERO);
    Ok(())
}

/// ( d -- s n ) the pictured text.
#[tactic(auto, unfolding(crate::specs::Numbers::numbers_entry))]
#[inline(never)]
fn end_text(stack: &mut DataStack, memory: &Memory, pictured: &Pictured) -> Result<(), Throw>
    ensures { Becomes (numbers_entry NumbersWord.End stack.old memory.now pictured.now)
        (data_of stack.old memory.now pictured.now) (data_of stack.new memory.now pictured.now) result }
{
    let _ = stack.top_two()?;
    let (address, length) = pictured.text();
    stack.replace_two(address);
    stack.push(length);
    Ok(())
}

/// ( u -- s n ) the pictured text.
#[tactic(auto, unfolding(crate::specs::Numbers::numbers_entry))]
#[inline(never)]
fn end_unsigned_text(
    stack: &mut DataStack,
    memory: &Memory,
    pictured: &Pictured,
) -> Result<(), Throw>
    ensures { Becomes (numbers_entry NumbersWord.UnsignedEnd stack.old memory.now pictured.now)
        (data_of stack.old memory.now pictured.now) (data_of stack.new memory.now pictured.now) result }
{
    let _ = stack.peek()?;
    stack.room_for(1)?;
    let (address, length) = pictured.text();
    stack.replace_top(address);
    stack.push(length);
    Ok(())
}

/// ( s n -- true, or x false ) the number that a text reads as.
#[tactic(auto, unfolding(crate::specs::Numbers::numbers_entry))]
#[inline(never)]
fn parse_number(stack: &mut DataStack, memory: &Memory, pictured: &Pictured) -> Result<(), Throw>
    ensures { Becomes (numbers_entry NumbersWord.ParseNumber stack.old memory.now pictured.now)
        (data_of stack.old memory.now pictured.now) (data_of stack.new memory.now pictured.now) result }
{
    let (a, n) = stack.top_two()?;
    let text = slice(memory, a, n)?;
    let base = base(memory)?;
    let Some(x) = read_number(text, base) else {
        stack.replace_two(Cell::TRUE);
        return Ok(());
    };
    stack.replace_two(x);
    stack.push(Cell::ZERO);
    Ok(())
}

/// ( char base -- digit true, or char false ) the value of a character as a digit.
#[tactic(auto, unfolding(crate::specs::Numbers::numbers_entry))]
#[inline(never)]
fn parse_digit(stack: &mut DataStack, memory: &Memory, pictured: &Pictured) -> Result<(), Throw>
    ensures { Becomes (numbers_entry NumbersWord.Digit stack.old memory.now pictured.now)
        (data_of stack.old memory.now pictured.now) (data_of stack.new memory.now pictured.now) result }
{
    let (char, base) = stack.top_two()?;
    let Some(value) = digit(char.0, base.0) else {
        stack.replace_top(Cell::ZERO);
        return Ok(());
    };
    stack.replace_two(Cell(value));
    stack.push(Cell::TRUE);
    Ok(())
}

/// ( -- n ) a number goes on top.
#[inline]
fn push_number(
    n: Cell,
    stack: &mut DataStack,
    memory: &Memory,
    pictured: &Pictured,
) -> Result<(), Throw>
    ensures { Becomes (beside memory.now pictured.now (within (n ∷ stack.old)))
        (data_of stack.old memory.now pictured.now) (data_of stack.new memory.now pictured.now) result }
{
    stack.try_push(n)
}

/// Runs a word of the group Numbers over the data stack, the data space and the pictured text; a
/// throw changes nothing.
///
/// -4 where a cell is missing, then -9 where a text can't be read, -24 where `base` is no base, -17
/// where the pictured text is full, -3 where the stack has no room.
#[tactic(auto, unfolding(crate::specs::Numbers::numbers_entry))]
#[inline]
pub fn run_number_word(
    word: NumbersWord,
    stack: &mut DataStack,
    memory: &mut Memory,
    pictured: &mut Pictured,
) -> Result<(), Throw>
    ensures { Becomes (numbers_entry word stack.old memory.old pictured.old)
        (data_of stack.old memory.old pictured.old) (data_of stack.new memory.new pictured.new) result }
{
    match word {
        NumbersWord::Begin => pictured.start(),
        NumbersWord::Hold => hold_char(stack, memory, pictured)?,
        NumbersWord::Sign => hold_sign(stack, memory, pictured)?,
        NumbersWord::NextDigit => hold_digit(stack, memory, pictured)?,
        NumbersWord::AllDigits => hold_digits(stack, memory, pictured)?,
        NumbersWord::End => end_text(stack, memory, pictured)?,
        NumbersWord::UnsignedDigit => hold_unsigned_digit(stack, memory, pictured)?,
        NumbersWord::UnsignedDigits => hold_unsigned_digits(stack, memory, pictured)?,
        NumbersWord::UnsignedEnd => end_unsigned_text(stack, memory, pictured)?,
        NumbersWord::Base => push_number(BASE, stack, memory, pictured)?,
        NumbersWord::ParseNumber => parse_number(stack, memory, pictured)?,
        NumbersWord::Digit => parse_digit(stack, memory, pictured)?,
        NumbersWord::MinusOne => push_number(Cell::TRUE, stack, memory, pictured)?,
        NumbersWord::Zero => push_number(Cell::ZERO, stack, memory, pictured)?,
        NumbersWord::One => push_number(Cell::ONE, stack, memory, pictured)?,
        NumbersWord::Two => push_number(Cell(2), stack, memory, pictured)?,
        NumbersWord::Three => push_number(Cell(3), stack, memory, pictured)?,
        NumbersWord::Noop => {}
        NumbersWord::FcodeRevision => push_number(REVISION, stack, memory, pictured)?,
    }
    Ok(())
}
