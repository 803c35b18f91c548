//! Elements of a definition as they are printed.
ghost use Rattle.std.specs.Prelude.{◌≡◌, ◌++◌, option_copied, OnOk};
ghost use Rattle.of_memory.specs.Access.{read_bytes};
ghost use Rattle.of_see.specs.SeeText.{back_shown, branch_shown, byte_shown, bytes_or_none, bytes_shown, call_shown};
ghost use Rattle.of_see.specs.SeeText.{count_shown, do_shown, element_shown, elements_shown, is_plain, loop_shown};
ghost use Rattle.of_see.specs.SeeText.{name_or_number, number_shown, plain_shown, roll_shown, store_shown};
ghost use Rattle.of_see.specs.SeeText.{string_shown};

use crate::names::{compiling_name, stored_name};
use of_cells::{Cell, Double};
use of_compile::{Element, PlainItem};
use of_format::{digit_byte, double_text, unsigned_text};
use of_memory::Memory;
use of_text::Names;
use std::alloc::AllocError;

/// Appends a number in hexadecimal digits.
pub(crate) fn push_number(number: Cell, out: &mut Vec<u8>) -> Result<(), AllocError>
    ensures { OnOk result (out.new.items ≡ out.old.items ++ number_shown number.0) }
{
    out.extend_from_slice(b"h# ")?;
    out.extend_from_slice(unsigned_text(number, 16).as_bytes())
}

/// Appends a count in hexadecimal digits.
fn push_count(count: usize, out: &mut Vec<u8>) -> Result<(), AllocError>
    ensures { OnOk result (out.new.items ≡ out.old.items ++ count_shown count) }
{
    out.extend_from_slice(b"h# ")?;
    out.extend_from_slice(double_text(Double::new(count as u64), 16).as_bytes())
}

/// Whether a byte stands in a string as it is.
fn is_plain(byte: u8) -> bool
    ensures { result ≡ is_plain byte }
{
    byte >= b' ' && byte <= b'~' && !(byte == b'"')
}

/// Appends a byte of a string, where it doesn't stand as it is by its digits.
fn push_byte(byte: u8, out: &mut Vec<u8>) -> Result<(), AllocError>
    ensures { OnOk result (out.new.items ≡ out.old.items ++ byte_shown byte) }
{
    if is_plain(byte) {
        out.push(byte)?;
        return Ok(());
    }
    let high = digit_byte(u32::from(byte / 16));
    let low = digit_byte(u32::from(byte % 16));
    out.extend_from_slice(&[b'"', b'(', high, low, b')'])
}

/// Appends the bytes of a string.
fn push_bytes(bytes: &[u8], out: &mut Vec<u8>) -> Result<(), AllocError>
    ensures { OnOk result (out.new.items ≡ out.old.items ++ bytes_shown bytes.now) }
{
    for byte in bytes {
        push_byte(*byte, out)?;
    }
    Ok(())
}

/// The bytes that stand in the data space now, or none where they can't be read.
fn bytes_or_none(memory: &Memory, address: Cell, length: Cell) -> &[u8]
    ensures { result.now ≡ bytes_or_none (read_bytes memory.now address.0 length.0) }
{
    match memory.slice(address, length) {
        Ok(bytes) => bytes,
        Err(_) => &[],
    }
}

/// Appends a string of these bytes.
fn push_string(bytes: &[u8], out: &mut Vec<u8>) -> Result<(), AllocError>
    ensures { OnOk result (out.new.items ≡ out.old.items ++ string_shown bytes.now) }
{
    out.extend_from_slice(b"\" ")?;
    push_bytes(bytes, out)?;
    out.push(b'"')?;
    Ok(())
}

/// Appends a name with what stands before it, or an execution token with what stands behind it.
fn push_name_or_number(
    xt: Cell,
    name: Option<&[u8]>,
    before: &[u8],
    behind: &[u8],
    out: &mut Vec<u8>,
) -> Result<(), AllocError>
    ensures { OnOk result
        (out.new.items ≡ out.old.items ++ name_or_number xt.0 (option_copied name.entry) before.now behind.now) }
{
    match name {
        Some(name) => {
            out.extend_from_slice(before)?;
            out.extend_from_slice(name)
        }
        None => {
            out.extend_from_slice(b"[ ")?;
            push_number(xt, out)?;
            out.extend_from_slice(behind)
        }
    }
}

/// Appends a call.
fn push_call(names: &Names, itself: Cell, xt: Cell, out: &mut Vec<u8>) -> Result<(), AllocError>
    ensures { OnOk result (out.new.items ≡ out.old.items ++ call_shown names.now itself.0 xt.0) }
{
    if xt.0 == itself.0 {
        return out.extend_from_slice(b"recurse");
    }
    push_name_or_number(xt, compiling_name(names, xt), b"", b" compile, ]", out)
}

/// Appends a store.
fn push_store(names: &Names, itself: Cell, xt: Cell, out: &mut Vec<u8>) -> Result<(), AllocError>
    ensures { OnOk result (out.new.items ≡ out.old.items ++ store_shown names.now itself.0 xt.0) }
{
    push_name_or_number(xt, stored_name(names, itself, xt), b"to ", b" ] to,", out)
}

/// Appends an item that goes on at the next one.
fn push_plain(
    names: &Names,
    memory: &Memory,
    itself: Cell,
    item: PlainItem,
    out: &mut Vec<u8>,
) -> Result<(), AllocError>
    ensures { OnOk result (out.new.items ≡ out.old.items ++ plain_shown names.now memory.now itself.0 item) }
{
    match item {
        PlainItem::Operation(xt) => push_call(names, itself, xt, out),
        PlainItem::Literal(x) => push_number(x, out),
        PlainItem::String { address, length } => {
            push_string(bytes_or_none(memory, address, length), out)
        }
        PlainItem::Call(xt) => push_call(names, itself, xt, out),
        PlainItem::Store(xt) => push_store(names, itself, xt, out),
    }
}

/// The word of a branch forward, only on zero or always.
fn branch_text(on_zero: bool) -> &'static [u8]
    ensures { result.now ≡ branch_shown on_zero }
{
    if on_zero { b"if" } else { b"ahead" }
}

/// The word of a branch back, only on zero or always.
fn back_text(on_zero: bool) -> &'static [u8]
    ensures { result.now ≡ back_shown on_zero }
{
    if on_zero { b"until" } else { b"again" }
}

/// `?do` or `do`.
fn do_text(asks: bool) -> &'static [u8]
    ensures { result.now ≡ do_shown asks }
{
    if asks { b"?do" } else { b"do" }
}

/// `+loop` or `loop`.
fn loop_text(adds: bool) -> &'static [u8]
    ensures { result.now ≡ loop_shown adds }
{
    if adds { b"+loop" } else { b"loop" }
}

/// Appends the words that make a branch the latest which so many others are later than.
fn push_roll(later: usize, out: &mut Vec<u8>) -> Result<(), AllocError>
    ensures { OnOk result (out.new.items ≡ out.old.items ++ roll_shown later) }
{
    out.extend_from_slice(b"[ ")?;
    push_count(later, out)?;
    out.extend_from_slice(b" ] cs-roll")
}

/// Appends an element.
fn push_element(
    names: &Names,
    memory: &Memory,
    itself: Cell,
    element: Element,
    out: &mut Vec<u8>,
) -> Result<(), AllocError>
    ensures { OnOk result (out.new.items ≡ out.old.items ++ element_shown names.now memory.now itself.0 element) }
{
    match element {
        Element::Plain(item) | Element::Misfit(item) => push_plain(
            names, memory, itself, item, out,
        ),
        Element::Branch(on_zero, _) => out.extend_from_slice(branch_text(on_zero)),
        Element::Resolve(_) => out.extend_from_slice(b"then"),
        Element::Mark(_) => out.extend_from_slice(b"begin"),
        Element::Back(on_zero, _) => out.extend_from_slice(back_text(on_zero)),
        Element::Roll(later) => push_roll(later, out),
        Element::Do(asks) => out.extend_from_slice(do_text(asks)),
        Element::Loop(adds) => out.extend_from_slice(loop_text(adds)),
        Element::Leave => out.extend_from_slice(b"leave"),
        Element::Case => out.extend_from_slice(b"case"),
        Element::Of => out.extend_from_slice(b"of"),
        Element::EndOf => out.extend_from_slice(b"endof"),
        Element::EndCase => out.extend_from_slice(b"endcase"),
    }
}

/// Appends elements, each with a space before it.
pub(crate) fn push_elements(
    names: &Names,
    memory: &Memory,
    itself: Cell,
    elements: &[Element],
    out: &mut Vec<u8>,
) -> Result<(), AllocError>
    ensures { OnOk result
        (out.new.items ≡ out.old.items ++ elements_shown names.now memory.now itself.0 elements.now) }
{
    for element in elements {
        out.push(b' ')?;
        push_element(names, memory, itself, *element, out)?;
    }
    Ok(())
}
