ghost use Rattle.std.specs.Prelude.{◌≡◌, ◌<◌, ◌≤◌, ◌+◌, ◌^◌, ◌∷◌, length, None};
ghost use Rattle.of_cells.specs.Outcomes.{Becomes};
ghost use Rattle.of_memory.specs.Access.{read_fault, write_fault};
ghost use Rattle.of_memory.specs.DataSpace.{IsSound, bytes_from, written};
ghost use Rattle.of_memory.specs.declared.width.Width.{Width};
ghost use Rattle.of_fcodes.specs.declared.words.TextWord.{TextWord};
ghost use Rattle.of_prims.specs.Text.{text_entry, upper_case, lower_case, before, two_read};

use crate::faults::{byte_at, check_read, check_write, slice};
use of_cells::Cell;
use of_fcodes::TextWord;
use of_format::read_number;
use of_memory::{Memory, Width, faults_stay, parts_are_good, ranges_are_placed, writes_join};
use of_stacks::{DataStack, Throw};

/// The character of `bl`.
const BLANK: Cell = Cell(0x20);

/// The character of `bs`.
const BACKSPACE: Cell = Cell(0x08);

/// The character of `bell`.
const BELL: Cell = Cell(0x07);

/// A character with an ASCII letter in upper case.
fn upper_case(char: Cell) -> Cell
    ensures { result ≡ upper_case char }
{
    if char.0 >= u32::from(b'a') && char.0 <= u32::from(b'z') {
        Cell(char.0 - 32)
    } else {
        char
    }
}

/// A character with an ASCII letter in lower case.
fn lower_case(char: Cell) -> Cell
    ensures { result ≡ lower_case char }
{
    if char.0 >= u32::from(b'A') && char.0 <= u32::from(b'Z') {
        Cell(char.0 + 32)
    } else {
        char
    }
}

/// How many bytes of a text stand before the first that is the byte.
fn before(text: &[u8], byte: u8) -> u32
    requires { length text.now < 2 ^ 32 }
    ensures value { result ≡ before byte text.now }
    ensures within { result ≤ length text.now }
{
    let mut count = 0;
    let mut rest = text;
    while let [x, others @ ..] = rest {
        if *x == byte {
            return count;
        }
        count += 1;
        rest = others;
    }
    count
}

/// Two hexadecimal numbers with a comma between them, the second first, or 0 and the one that the
/// whole text is.
fn read_two(text: &[u8]) -> Option<(Cell, Cell)>
    requires { length text.now < 2 ^ 32 }
    ensures { result ≡ two_read text.now }
{
    let comma = before(text, b',') as usize;
    if comma < text.len() {
        let low = read_number(&text[comma + 1..], 16)?;
        let high = read_number(&text[..comma], 16)?;
        return Some((low, high));
    }
    let high = read_number(text, 16)?;
    Some((Cell::ZERO, high))
}

/// Stores the length of a text and the text, where both ranges are good.
fn pack_bytes(memory: &mut Memory, from: Cell, n: Cell, a: Cell)
    requires read { read_fault memory.old from.0 n.0 Width.One ≡ None }
    requires write { write_fault memory.old a.0 (n.0 + 1) Width.One ≡ None }
    requires short { n.0 ≤ 255 }
    requires sound { IsSound memory.old }
    ensures { memory.new ≡ written memory.old a.0 (n.0 ∷ bytes_from memory.old from.0 n.0) }
{
    parts_are_good();
    ranges_are_placed();
    faults_stay();
    writes_join();
    let _ = memory.copy(from, a.add(Cell::ONE), n);
    let _ = memory.write_bytes(a, &[n.0 as u8]);
}

/// ( s n a -- a ) stores a text with its length before it.
#[tactic(auto, unfolding(crate::specs::Text::text_entry))]
#[inline(never)]
fn pack(stack: &mut DataStack, memory: &mut Memory) -> Result<(), Throw>
    ensures { Becomes (text_entry TextWord.Pack stack.old memory.old) (stack.old, memory.old) (stack.new, memory.new)
        result }
{
    ranges_are_placed();
    let (from, n, a) = stack.top_three()?;
    check_read(memory, from, n, Width::One)?;
    check_write(memory, a, Cell(n.0 + 1), Width::One)?;
    if n.0 > 255 {
        return Err(Throw::INVALID_ARGUMENT);
    }
    pack_bytes(memory, from, n, a);
    stack.drop_top(3);
    stack.push(a);
    Ok(())
}

/// ( a -- s n ) the text that stands behind its length.
#[tactic(auto, unfolding(crate::specs::Text::text_entry))]
#[inline(never)]
fn count(stack: &mut DataStack, memory: &Memory) -> Result<(), Throw>
    ensures { Becomes (text_entry TextWord.Count stack.old memory.now) (stack.old, memory.now) (stack.new, memory.now)
        result }
{
    let a = stack.peek()?;
    check_read(memory, a, Cell::ONE, Width::One)?;
    stack.room_for(1)?;
    let length = byte_at(memory, a);
    stack.replace_top(a.add(Cell::ONE));
    stack.push(Cell(u32::from(length)));
    Ok(())
}

/// ( s n char -- r rn l ln ) the text before the first such character, and the text after it.
#[tactic(auto, unfolding(crate::specs::Text::text_entry))]
#[inline(never)]
fn part_text(stack: &mut DataStack, memory: &Memory) -> Result<(), Throw>
    ensures { Becomes (text_entry TextWord.LeftParseString stack.old memory.now)
        (stack.old, memory.now) (stack.new, memory.now) result }
{
    let (a, n, char) = stack.top_three()?;
    let text = slice(memory, a, n)?;
    stack.room_for(1)?;
    let left = before(text, char.low_byte().0 as u8);
    let past = left.saturating_add(1);
    stack.drop_top(3);
    stack.push(a.add(Cell(past.min(n.0))));
    stack.push(Cell(n.0.saturating_sub(past)));
    stack.push(a);
    stack.push(Cell(left));
    Ok(())
}

/// ( s n -- lo hi ) the two numbers of a text.
#[tactic(auto, unfolding(crate::specs::Text::text_entry))]
#[inline(never)]
fn parse_two(stack: &mut DataStack, memory: &Memory) -> Result<(), Throw>
    ensures { Becomes (text_entry TextWord.ParseTwoInts stack.old memory.now)
        (stack.old, memory.now) (stack.new, memory.now) result }
{
    let (a, n) = stack.top_two()?;
    let text = slice(memory, a, n)?;
    let Some((low, high)) = read_two(text) else {
        return Err(Throw::INVALID_ARGUMENT);
    };
    stack.replace_two(low);
    stack.push(high);
    Ok(())
}

/// Runs a word of the group Text over the data stack and the data space; a throw changes nothing.
///
/// -4 where a cell is missing, then -9 or -20 where a range can't be read or written, -24 where a
/// text is too long or gives no numbers, -3 where the stack has no room.
#[tactic(auto, unfolding(crate::specs::Text::text_entry))]
#[inline]
pub fn run_text_word(
    word: TextWord,
    stack: &mut DataStack,
    memory: &mut Memory,
) -> Result<(), Throw>
    ensures { Becomes (text_entry word stack.old memory.old) (stack.old, memory.old) (stack.new, memory.new) result }
{
    match word {
        TextWord::UpperCase => {
            let char = stack.peek()?;
            stack.replace_top(upper_case(char));
        }
        TextWord::LowerCase => {
            let char = stack.peek()?;
            stack.replace_top(lower_case(char));
        }
        TextWord::Pack => pack(stack, memory)?,
        TextWord::Count => count(stack, memory)?,
        TextWord::Blank => stack.try_push(BLANK)?,
        TextWord::Backspace => stack.try_push(BACKSPACE)?,
        TextWord::Bell => stack.try_push(BELL)?,
        TextWord::LeftParseString => part_text(stack, memory)?,
        TextWord::ParseTwoInts => parse_two(stack, memory)?,
    }
    Ok(())
}
