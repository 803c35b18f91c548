//! `byte-load`: images whose bytes stand in the data space.
ghost use Rattle.std.specs.Prelude.{◌≡◌, ◌≤◌, ◌+◌, drop, length};
ghost use Rattle.of_stacks.specs.Order.{counting, fault_if};
ghost use Rattle.of_eval.specs.ByteLoading.{begins_image, byte_load_act, copying, has_bad_header, length_at};
ghost use Rattle.of_eval.specs.ByteLoading.{loading_faults, spread_of, start_at};
ghost use Rattle.of_state.specs.State.{Leaves, flat_calls};
ghost use Rattle.of_eval.specs.Acts.{front_of};
ghost use Rattle.of_eval.specs.Doing.{worked};

use of_cells::Cell;
use of_code::CodeStore;
use of_memory::Memory;
use of_prims::throw_of;
use of_stacks::{Continuation, Input, Reading, ReturnItem, Throw};
use of_state::Eval;
use of_stream::{HEADER_LENGTH, Stream};

/// Whether an image begins with this byte.
fn begins_image(start: u8) -> bool
    ensures { result ≡ begins_image start }
{
    matches!(start, 0xf1 | 0xf2 | 0xf3 | 0xfd)
}

/// How far apart the bytes of an image stand that begins with this byte.
fn spread_of(start: u8) -> u32
    ensures value { result ≡ spread_of start }
    ensures some { 1 ≤ result }
{
    match start {
        0xf2 => 2,
        0xf3 => 4,
        _ => 1,
    }
}

/// The byte at an address, or 0 where none can be read.
fn start_at(memory: &Memory, at: Cell) -> u8
    ensures { result ≡ start_at memory.now at.0 }
{
    match memory.read8(at) {
        Ok(byte) => byte,
        Err(_) => 0,
    }
}

/// How many bytes the image at an address has, up to the end of its region or live block, or as many as find room.
fn length_at(memory: &Memory, at: Cell) -> u32
    ensures { result ≡ length_at memory.now at.0 }
{
    let bytes = match memory.end_of(at) {
        Ok(end) => end.0.saturating_sub(at.0),
        Err(_) => 0,
    };
    let count = bytes.div_ceil(spread_of(start_at(memory, at)));
    count.min(memory.image_room().0)
}

/// Whether the image at an address has another first byte than images have, or is shorter than a header.
fn has_bad_header(memory: &Memory, at: Cell) -> bool
    ensures { result ≡ has_bad_header memory.now at.0 }
{
    !begins_image(start_at(memory, at)) || (length_at(memory, at) as usize) < HEADER_LENGTH
}

/// A fault, where it is found.
fn fault_if(found: bool, fault: Throw) -> Option<Throw>
    ensures { result ≡ fault_if found fault }
{
    if found { Some(fault) } else { None }
}

/// The fault that counts of an address and a fetch word, where the return stack has so many items.
fn loading_fault(memory: &Memory, at: Cell, fetch: Cell, depth: usize) -> Option<Throw>
    requires { depth ≤ 256 }
    ensures { result ≡ counting (loading_faults memory.now at fetch depth) }
{
    Throw::counting(&[
        fault_if(memory.read8(at).is_err(), Throw::INVALID_ADDRESS),
        fault_if(fetch.0 != 1, Throw::INVALID_ARGUMENT),
        fault_if(has_bad_header(memory, at), Throw::IMAGE_ENDED),
        fault_if(depth + 2 > 256, Throw::RETURN_STACK_OVERFLOW),
    ])
}

/// Takes the operands, copies the image at an address behind the images that run, and goes on in it.
///
/// -8 where it finds no place among them. A throw changes nothing.
#[tactic(auto, unfolding(crate::specs::Doing::worked))]
fn load_image<C: CodeStore>(eval: &mut Eval<C>, at: Cell) -> Result<(), Throw>
    requires operands { 2 ≤ length eval.old.board.stack }
    requires room { length eval.old.flow.items + 2 ≤ 256 }
    ensures { Leaves (worked flat_calls (copying eval.old.board.memory at.0 (drop 2 eval.old.board.stack))
        eval.old) eval.new result }
{
    let start = start_at(&eval.board.memory, at);
    let length = length_at(&eval.board.memory, at);
    let spread = spread_of(start);
    if let Err(fault) = eval
        .board
        .memory
        .image_push_from(at, Cell(length), Cell(spread))
    {
        return Err(throw_of(fault));
    }
    eval.board.stack.drop_top(2);
    eval.flow.items.push(ReturnItem::Return(eval.flow.next));
    eval.flow.items.push(ReturnItem::Source(eval.flow.reading));
    eval.flow.reading = Reading {
        input: Input::Image {
            size: (Stream { image: &[start] }).first_size(),
            position: HEADER_LENGTH,
        },
        opened: eval.words.open_xt(),
    };
    eval.flow.next = Continuation::Source;
    Ok(())
}

/// `byte-load` ( a 1 -- ) runs the image whose bytes stand at an address, inside what runs now.
///
/// -29 while a definition is open; -4 with fewer cells; -9 where the address can't be read; -24 for another fetch
/// word than 1; -257 for a bad header; -5 where the return stack has no room for two items. A throw changes
/// nothing.
#[tactic(auto, unfolding(crate::specs::Doing::worked))]
pub(crate) fn byte_load<C: CodeStore>(eval: &mut Eval<C>) -> Result<(), Throw>
    ensures { Leaves (worked flat_calls (byte_load_act (front_of eval.old)) eval.old) eval.new result }
{
    if eval.words.defining().is_some() {
        return Err(Throw::COMPILER_NESTING);
    }
    let (at, fetch) = eval.board.stack.top_two()?;
    let depth = eval.flow.items.depth();
    if let Some(fault) = loading_fault(&eval.board.memory, at, fetch, depth) {
        return Err(fault);
    }
    load_image(eval, at)
}
