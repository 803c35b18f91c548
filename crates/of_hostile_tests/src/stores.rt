//! What images leave on machines over either store of code.
ghost use Rattle.std.specs.Prelude.{◌≡◌, []};

use crate::shared::push_bytes;
use of_cell_code::CellCode;
use of_cells::Cell;
use of_code::{CodeStore, ListCode};
use of_machine::{Machine, Progress};
use of_refusal::Refusal;
use std::alloc::Global;
use std::test::Fail;

/// Appends the data stack.
fn push_stack(text: &mut String, cells: &[Cell]) -> Result<(), Fail> {
    for cell in cells {
        write!(text, " {:x}", cell.0)?;
    }
    Ok(())
}

/// Appends the steps made, the depth of the return stack, whether something runs, what was asked, the data stack and
/// the console.
fn push_views<C: CodeStore>(text: &mut String, machine: &Machine<C>) -> Result<(), Fail> {
    write!(
        text,
        "{} {} {} {} {}|",
        machine.steps(),
        machine.depth(),
        machine.is_running(),
        machine.asked().len(),
        machine.made()
    )?;
    push_stack(text, machine.stack())?;
    text.push('|')?;
    push_bytes(text, machine.console())
}

/// Appends the sum of 64 bytes from an address on, each counted by its place.
fn push_memory<C: CodeStore>(
    text: &mut String,
    machine: &Machine<C>,
    start: u32,
) -> Result<(), Fail> {
    let mut sum = 0u32;
    for place in 0..64u32 {
        let byte = machine.byte(Cell(start.wrapping_add(place))).unwrap_or(0);
        sum = sum.wrapping_mul(257).wrapping_add(u32::from(byte));
    }
    write!(text, "|{sum:x}")?;
    Ok(())
}

/// Appends what `see` prints of the k-th own word.
fn push_word<C: CodeStore>(
    alloc: Global,
    text: &mut String,
    machine: &Machine<C>,
    number: u32,
) -> Result<(), Fail> {
    let xt = Cell(0xc000_052cu32.wrapping_add(number.wrapping_mul(4)));
    let seen = machine.see(alloc, xt)?;
    text.push('|')?;
    push_bytes(text, &seen)
}

/// Appends what `see` prints of the first eight own words.
fn push_words<C: CodeStore>(
    alloc: Global,
    text: &mut String,
    machine: &Machine<C>,
) -> Result<(), Fail> {
    for number in 0..8u32 {
        push_word(alloc, text, machine, number)?;
    }
    Ok(())
}

/// What is seen of a machine.
pub(crate) fn seen_of<C: CodeStore>(alloc: Global, machine: &Machine<C>) -> Result<String, Fail> {
    let mut text = String::new(alloc);
    push_views(&mut text, machine)?;
    push_memory(&mut text, machine, 0x10_0000)?;
    push_memory(&mut text, machine, 0x60_0000)?;
    push_words(alloc, &mut text, machine)?;
    Ok(text)
}

/// What an image leaves.
#[derive(Drop)]
pub(crate) struct Left {
    /// What is seen of the machine.
    pub(crate) seen: String,
    /// Whether the run has ended: nothing runs, as many steps are made as are allowed, or a step asks.
    pub(crate) has_ended: bool,
}

/// Runs a machine, for so many steps at most; answers whether the run has ended.
fn run_on<C: CodeStore>(machine: &mut Machine<C>, limit: u64) -> Result<bool, Fail> {
    machine.run(limit)?;
    if machine.steps() == limit {
        return Ok(true);
    }
    Ok(!matches!(machine.step()?, Progress::Done))
}

/// Lets an idle machine print its device tree.
fn show_tree<C: CodeStore>(machine: &mut Machine<C>) -> Result<(), Fail> {
    if machine.line(b"show-devs words").is_ok() {
        machine.run(99)?;
    }
    Ok(())
}

/// What an image leaves on a machine, in a run of so many steps at most.
fn left_on<C: CodeStore>(
    alloc: Global,
    machine: &mut Machine<C>,
    image: &[u8],
    limit: u64,
) -> Result<Left, Fail> {
    let mut has_ended = true;
    match machine.load(image, "/slot") {
        Ok(()) => has_ended = run_on(machine, limit)?,
        Err(Refusal::BadStart(_)) => {}
        Err(_) => has_ended = false,
    }
    show_tree(machine)?;
    let seen = seen_of(alloc, machine)?;
    Ok(Left { seen, has_ended })
}

/// What an image leaves on a new machine over a store, in a run of so many steps at most.
fn left_over<C: CodeStore + Drop>(
    alloc: Global,
    code: C,
    image: &[u8],
    limit: u64,
) -> Result<Left, Fail>
    requires { C.code code ≡ record { cells = []; opened = record { cell = 0 }; starts = [] } }
{
    let mut machine = Machine::new(alloc, code)?;
    left_on(alloc, &mut machine, image, limit)
}

/// What an image leaves over a list of items.
pub(crate) fn left_over_list(alloc: Global, image: &[u8], limit: u64) -> Result<Left, Fail> {
    left_over(alloc, ListCode::new(alloc), image, limit)
}

/// What an image leaves over cells of bytes.
pub(crate) fn left_over_cells(alloc: Global, image: &[u8], limit: u64) -> Result<Left, Fail> {
    left_over(alloc, CellCode::new(alloc)?, image, limit)
}

/// Makes so many steps at most.
fn go_on<C: CodeStore>(machine: &mut Machine<C>, limit: u64) -> Result<(), Fail> {
    machine.run(limit)?;
    Ok(())
}

/// Loads an image for `/slot` and makes so many steps at most, in two runs.
fn run_twice<C: CodeStore>(
    machine: &mut Machine<C>,
    image: &[u8],
    first: u64,
    second: u64,
) -> Result<(), Fail> {
    machine.load(image, "/slot")?;
    go_on(machine, first)?;
    go_on(machine, second)
}

/// What is seen of a new machine over a store behind two runs of an image.
fn seen_behind<C: CodeStore + Drop>(
    alloc: Global,
    code: C,
    image: &[u8],
    first: u64,
    second: u64,
) -> Result<String, Fail>
    requires { C.code code ≡ record { cells = []; opened = record { cell = 0 }; starts = [] } }
{
    let mut machine = Machine::new(alloc, code)?;
    run_twice(&mut machine, image, first, second)?;
    seen_of(alloc, &machine)
}

/// What is seen behind a run in two halves and behind one in whole, over a list of items.
pub(crate) fn halves_over_list(
    alloc: Global,
    image: &[u8],
    limit: u64,
) -> Result<(String, String), Fail> {
    let half = limit / 2;
    let parts = seen_behind(alloc, ListCode::new(alloc), image, half, limit - half)?;
    let whole = seen_behind(alloc, ListCode::new(alloc), image, limit, 0)?;
    Ok((parts, whole))
}

/// The same over cells of bytes.
pub(crate) fn halves_over_cells(
    alloc: Global,
    image: &[u8],
    limit: u64,
) -> Result<(String, String), Fail> {
    let half = limit / 2;
    let parts = seen_behind(alloc, CellCode::new(alloc)?, image, half, limit - half)?;
    let whole = seen_behind(alloc, CellCode::new(alloc)?, image, limit, 0)?;
    Ok((parts, whole))
}
