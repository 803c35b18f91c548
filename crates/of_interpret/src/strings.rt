//! Strings of a text.
ghost use Rattle.std.specs.Prelude.{◌≡◌, ◌≤◌, [], ◌∷◌, length, nat_lt, false, true};
ghost use Rattle.of_cells.specs.Outcomes.{Becomes};
ghost use Rattle.of_flow.specs.Texts.{latest_text};
ghost use Rattle.of_stacks.specs.Stacks.{Makes};
ghost use Rattle.of_text.specs.Reading.{bytes_in};
ghost use Rattle.of_eval.specs.Acts.{front_of};
ghost use Rattle.of_state.specs.State.{flat_calls};
ghost use Rattle.of_memory.specs.Growth.{appended};
ghost use Rattle.of_interpret.specs.Strings.{bytes_put, place_for, string_said, string_spelt};
ghost use Rattle.of_interpret.specs.TextActs.{IsSpoken};
ghost use Rattle.of_interpret.specs.TextWords.{longest_string, printed_act, quoted_bytes, string_act, type_element};

use of_board::Board;
use of_cells::Cell;
use of_code::{CAPACITY, CodeStore};
use of_compile::{Coding, Element, PlainItem, called};
use of_memory::Memory;
use of_prims::throw_of;
use of_scan::Rest;
use of_stacks::{Stop, Throw};
use of_state::Eval;
use of_text::Part;

/// Where interpreted strings stand in the scratch region, one after another.
const STRINGS_START: u32 = 0x50_0400;

/// How many bytes of it are theirs.
const STRINGS_ROOM: u32 = 0xC00;

/// How many bytes a string has at most.
const LONGEST_STRING: usize = 255;

/// The execution token of `type`.
const TYPE: Cell = Cell(0xC000_0278);

/// How far behind the beginning a string of so many bytes stands, where some are taken.
fn place_for(taken: u32, length: usize) -> u32
    requires { length ≤ 255 }
    ensures value { result ≡ place_for taken length }
    ensures fits { result ≤ 0xC00 }
{
    if taken <= STRINGS_ROOM && taken + length as u32 <= STRINGS_ROOM {
        taken
    } else {
        0
    }
}

/// ( -- a n ) writes a string into the scratch region, behind the bytes that are taken there.
///
/// -3 where the data stack has no room for two cells. A throw changes nothing.
pub(crate) fn say(bytes: &[u8], taken: &mut u32, board: &mut Board) -> Result<(), Throw>
    requires { length bytes.now ≤ 255 }
    ensures { Becomes (string_said bytes.now taken.old board.old) (taken.old, board.old) (taken.new, board.new)
        result }
{
    board.stack.room_for(2)?;
    let at = place_for(*taken, bytes.len());
    let address = Cell(STRINGS_START + at);
    if let Err(fault) = board.memory.write_bytes(address, bytes) {
        return Err(throw_of(fault));
    }
    board.stack.push(address);
    board.stack.push(Cell(bytes.len() as u32));
    *taken = at + bytes.len() as u32;
    Ok(())
}

/// Copies the bytes of a string to `here`, which is then rounded up to a multiple of 4.
///
/// -8 where the data region has no room. A throw changes nothing.
fn put_bytes(bytes: &[u8], memory: &mut Memory) -> Result<(), Throw>
    ensures { Becomes (bytes_put (appended memory.old bytes.now)) memory.old memory.new result }
{
    if let Err(fault) = memory.append(bytes) {
        return Err(throw_of(fault));
    }
    let _ = memory.allot_zeros(Cell::ZERO);
    Ok(())
}

/// Compiles a string, which is copied to `here`.
///
/// -8 where the code or the data region has no room. Where that is thrown or no memory is found nothing has changed.
fn spell<C: CodeStore>(
    bytes: &[u8],
    memory: &mut Memory,
    coding: &mut Coding<C>,
) -> Result<(), Stop>
    requires { length bytes.now ≤ 255 }
    ensures { Makes true (string_spelt flat_calls bytes.now [] memory.old coding.old.coding)
        (coding.old.coding, memory.old) (coding.new.coding, memory.new) result }
{
    let address = memory.here();
    let length = Cell(bytes.len() as u32);
    if coding.code().end().cell as usize + 3 > CAPACITY {
        return Err(Stop::Thrown(Throw::DICTIONARY_OVERFLOW));
    }
    coding.reserve(1)?;
    if let Err(fault) = put_bytes(bytes, memory) {
        return Err(Stop::Thrown(fault));
    }
    let _ = coding.compile(Element::Plain(PlainItem::String { address, length }));
    Ok(())
}

/// The same, and `type` behind the string.
fn spell_printed<C: CodeStore>(
    bytes: &[u8],
    memory: &mut Memory,
    coding: &mut Coding<C>,
) -> Result<(), Stop>
    requires { length bytes.now ≤ 255 }
    ensures { Makes true (string_spelt flat_calls bytes.now (type_element ∷ []) memory.old coding.old.coding)
        (coding.old.coding, memory.old) (coding.new.coding, memory.new) result }
{
    let address = memory.here();
    let length = Cell(bytes.len() as u32);
    if coding.code().end().cell as usize + 4 > CAPACITY {
        return Err(Stop::Thrown(Throw::DICTIONARY_OVERFLOW));
    }
    coding.reserve(2)?;
    if let Err(fault) = put_bytes(bytes, memory) {
        return Err(Stop::Thrown(fault));
    }
    let _ = coding.compile(Element::Plain(PlainItem::String { address, length }));
    let _ = coding.compile(Element::Plain(called(TYPE)));
    Ok(())
}

/// Whether a string has more bytes than one can have.
fn is_long(bytes: &[u8]) -> bool
    ensures value { result ≡ nat_lt longest_string (length bytes.now) }
    ensures short { result ≡ false → length bytes.now ≤ 255 }
{
    bytes.len() > LONGEST_STRING
}

/// The string at a part of the text is compiled while words are compiled, and else left with its address and length.
///
/// -24 for more than 255 bytes, -3 where the data stack has no room, -8 where the code or the data region has none.
#[tactic(auto, unfolding(crate::proofs::InFull::in_full))]
pub(crate) fn run_string<C: CodeStore>(eval: &mut Eval<C>, string: Part) -> Result<(), Stop>
    ensures { IsSpoken (string_act (bytes_in (latest_text eval.old.flow.texts) string) (front_of eval.old)) eval.old
        eval.new result }
{
    let bytes = string.of(eval.flow.texts.latest());
    if is_long(bytes) {
        return Err(Stop::Thrown(Throw::INVALID_ARGUMENT));
    }
    if eval.flow.is_compiling {
        return spell(bytes, &mut eval.board.memory, &mut eval.coding);
    }
    Ok(say(bytes, &mut eval.flow.strings, &mut eval.board)?)
}

/// The same of the string of `"`, which begins at a position of the text, with its groups.
#[tactic(auto, unfolding(crate::proofs::InFull::in_full))]
pub(crate) fn run_quoted<C: CodeStore>(eval: &mut Eval<C>, at: usize) -> Result<(), Stop>
    ensures { IsSpoken (string_act (quoted_bytes (latest_text eval.old.flow.texts) at) (front_of eval.old)) eval.old
        eval.new result }
{
    let Some(bytes) = Rest::behind(eval.flow.texts.latest(), at).quoted_bytes() else {
        return Err(Stop::Thrown(Throw::INVALID_ARGUMENT));
    };
    if eval.flow.is_compiling {
        return spell(bytes.as_slice(), &mut eval.board.memory, &mut eval.coding);
    }
    Ok(say(bytes.as_slice(), &mut eval.flow.strings, &mut eval.board)?)
}

/// `."` ( -- ): the string at a part of the text is compiled, with `type` behind it, while words are compiled, and else
/// printed.
///
/// -24 for more than 255 bytes, -8 where the code or the data region has no room.
#[tactic(auto, unfolding(crate::proofs::InFull::in_full))]
pub(crate) fn print_string<C: CodeStore>(eval: &mut Eval<C>, string: Part) -> Result<(), Stop>
    ensures { IsSpoken (printed_act (bytes_in (latest_text eval.old.flow.texts) string) (front_of eval.old)) eval.old
        eval.new result }
{
    let bytes = string.of(eval.flow.texts.latest());
    if is_long(bytes) {
        return Err(Stop::Thrown(Throw::INVALID_ARGUMENT));
    }
    if eval.flow.is_compiling {
        return spell_printed(bytes, &mut eval.board.memory, &mut eval.coding);
    }
    Ok(eval.board.console.print(bytes)?)
}
