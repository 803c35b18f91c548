//! What `see` prints of a word.
ghost use Rattle.std.specs.Prelude.{◌≡◌, ◌++◌, option_copied, IfOk, OnOk};
ghost use Rattle.of_see.specs.SeeText.{definition_shown, own_shown, see_text, title, word_shown};

use crate::definition::definition_cells;
use crate::elements::see_items;
use crate::names::name_at;
use crate::printing::{push_elements, push_number};
use of_cells::Cell;
use of_code::CodeStore;
use of_dict::Kind;
use of_fcodes::word_with_xt;
use of_memory::Memory;
use of_text::Names;
use std::alloc::{AllocError, Global};

/// Appends the name of a word, or its execution token where it has none.
fn push_title(xt: Cell, name: Option<&[u8]>, out: &mut Vec<u8>) -> Result<(), AllocError>
    ensures { OnOk result (out.new.items ≡ out.old.items ++ title xt.0 (option_copied name.entry)) }
{
    match name {
        Some(name) => out.extend_from_slice(name),
        None => push_number(xt, out),
    }
}

/// Appends a colon definition, which begins at a cell, on one line.
fn push_definition<C: CodeStore>(
    alloc: Global,
    names: &Names,
    memory: &Memory,
    code: &C,
    xt: Cell,
    start: u32,
    out: &mut Vec<u8>,
) -> Result<(), AllocError>
    ensures { OnOk result (out.new.items
        ≡ out.old.items ++ definition_shown names.now memory.now (C.code code.now) xt.0 start) }
{
    let cells = definition_cells(alloc, code, start)?;
    let elements = see_items(alloc, start, &cells)?;
    out.extend_from_slice(b": ")?;
    push_title(xt, name_at(names, xt), out)?;
    push_elements(names, memory, xt, &elements, out)?;
    out.extend_from_slice(b" ;\n")
}

/// Appends another word on one line: what it does, and its name.
fn push_word(names: &Names, xt: Cell, kind: &[u8], out: &mut Vec<u8>) -> Result<(), AllocError>
    ensures { OnOk result (out.new.items ≡ out.old.items ++ word_shown names.now xt.0 kind.now) }
{
    out.extend_from_slice(kind)?;
    out.push(b' ')?;
    push_title(xt, name_at(names, xt), out)?;
    out.push(b'\n')?;
    Ok(())
}

/// Appends an own word.
fn push_own<C: CodeStore>(
    alloc: Global,
    names: &Names,
    memory: &Memory,
    code: &C,
    xt: Cell,
    kind: Kind,
    out: &mut Vec<u8>,
) -> Result<(), AllocError>
    ensures { OnOk result
        (out.new.items ≡ out.old.items ++ own_shown names.now memory.now (C.code code.now) xt.0 kind) }
{
    match kind {
        Kind::Colon { start } => push_definition(alloc, names, memory, code, xt, start, out),
        Kind::Constant { .. } => push_word(names, xt, b"constant", out),
        Kind::Value { .. } => push_word(names, xt, b"value", out),
        Kind::Variable { .. } => push_word(names, xt, b"variable", out),
        Kind::Create { .. } => push_word(names, xt, b"create", out),
        Kind::Defer { .. } => push_word(names, xt, b"defer", out),
        Kind::Buffer { .. } => push_word(names, xt, b"buffer", out),
        Kind::Field { .. } => push_word(names, xt, b"field", out),
        Kind::PerInstance { .. } => push_word(names, xt, b"slot per instance", out),
    }
}

/// What `see` prints of the word with an execution token (IEEE 1275-1994, annex A, `see`; Forth 2012, 15.6.1.2194): a
/// colon definition as `:`, its name, its items in the order of the code and `;`, and any other word as what it does
/// and its name, each on one line. Nothing, where no word has the execution token.
pub fn see_text<C: CodeStore>(
    alloc: Global,
    names: &Names,
    memory: &Memory,
    code: &C,
    xt: Cell,
) -> Result<Vec<u8>, AllocError>
    ensures { IfOk result (λ text. text.items ≡ see_text names.now memory.now (C.code code.now) xt) }
{
    let mut out = Vec::new(alloc);
    if word_with_xt(xt.0).is_some() {
        push_word(names, xt, b"primitive", &mut out)?;
        return Ok(out);
    }
    if let Some(kind) = names.words.kind_at(xt) {
        push_own(alloc, names, memory, code, xt, kind, &mut out)?;
    }
    Ok(out)
}
