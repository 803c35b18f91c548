//! Images are run, and what they make is shown as text.
use hex::decode;
use of_cells::Cell;
use of_code::ListCode;
use of_fcodes::FCode;
use of_nodes::Phandle;
use of_state::Eval;
use of_steps::{Bar, Pause, step};
use std::alloc::{AllocError, Global};
use std::test::Fail;

/// Makes so many steps at most, the first by itself, and answers how many were made. It stops before one that asks.
fn run(eval: &mut Eval<ListCode>, limit: u64) -> Result<u64, Fail> {
    if limit == 0 || !eval.is_running() {
        return Ok(0);
    }
    match step(eval) {
        Ok(()) => {}
        Err(Bar::NoMemory) => return Err(AllocError.into()),
        Err(Bar::Asks(_)) => return Ok(0),
    }
    match of_steps::run(eval, limit - 1) {
        (_, Pause::Barred(Bar::NoMemory)) => Err(AllocError.into()),
        (made, _) => Ok(made + 1),
    }
}

/// A new evaluator after an image has run for so many steps at most, and how many it made.
fn ran(alloc: Global, image: &[u8], limit: u64) -> Result<(Eval<ListCode>, u64), Fail> {
    let mut eval = Eval::new(alloc, ListCode::new(alloc))?;
    eval.begin_image(image, Phandle::of(2))?;
    let made = run(&mut eval, limit)?;
    Ok((eval, made))
}

/// What a run leaves, as plain values: so the proof of a test carries nothing of the evaluator.
#[derive(Drop)]
pub(crate) struct Made {
    /// How many steps were made.
    pub(crate) steps: u64,
    /// Whether something still runs.
    pub(crate) is_running: bool,
    /// The depth of the data stack.
    pub(crate) cells: usize,
    /// The depth of the return stack.
    pub(crate) items: usize,
    /// The active package.
    pub(crate) active: Option<Phandle>,
    /// What was printed.
    pub(crate) console: Vec<u8>,
}

/// The bytes that were printed.
fn printed(alloc: Global, eval: &Eval<ListCode>) -> Result<Vec<u8>, AllocError> {
    eval.console().to_vec(alloc)
}

/// What is read off an evaluator that has made so many steps.
fn read_off(eval: &Eval<ListCode>, steps: u64, console: Vec<u8>) -> Made {
    Made {
        steps,
        is_running: eval.is_running(),
        cells: eval.stack().len(),
        items: eval.depth(),
        active: eval.active_package(),
        console,
    }
}

/// What an image makes in a run of so many steps at most.
pub(crate) fn made_by(alloc: Global, image: &[u8], limit: u64) -> Result<Made, Fail> {
    let (eval, steps) = ran(alloc, image, limit)?;
    let console = printed(alloc, &eval)?;
    Ok(read_off(&eval, steps, console))
}

/// What an FCode names behind a run, if it is assigned.
fn named(eval: &Eval<ListCode>, code: u16) -> Option<u32> {
    Some(eval.words().table().get(FCode(code))?.xt)
}

/// What an FCode names when an image has run, if it is assigned.
pub(crate) fn number_left(alloc: Global, image: &[u8], code: u16) -> Result<Option<u32>, Fail> {
    let (eval, _) = ran(alloc, image, 999)?;
    Ok(named(&eval, code))
}

/// Whether the own word of an execution token is executed while words are compiled, when an image has run.
pub(crate) fn is_immediate_left(alloc: Global, image: &[u8], xt: u32) -> Result<bool, Fail> {
    let (eval, _) = ran(alloc, image, 999)?;
    Ok(eval.words().is_immediate_at(Cell(xt)))
}

/// The bytes of an image in hexadecimal digits, among which blanks may stand.
pub(crate) fn bytes_of(alloc: Global, digits: &str) -> Result<Vec<u8>, Fail> {
    let packed: String = digits.chars().filter(|c| *c != ' ').collect(alloc)?;
    Ok(decode(alloc, packed)?)
}

/// A byte as a character, an end of line as `$`.
fn shown_byte(byte: u8) -> char {
    if byte == b'\n' { '$' } else { char::from(byte) }
}

/// What an image makes in a run of so many steps at most: the steps, with `+` where it still runs; the depths of the
/// data stack and of the return stack; and what it printed, an end of line as `$`.
pub(crate) fn shown(alloc: Global, image: &[u8], limit: u64) -> Result<String, Fail> {
    let made = made_by(alloc, image, limit)?;
    let more = if made.is_running { "+" } else { "" };
    let mut text = format!(in alloc; "{}{more} {}/{} ", made.steps, made.cells, made.items)?;
    for byte in &made.console {
        text.push(shown_byte(*byte))?;
    }
    Ok(text)
}

/// What an image prints in a run of so many steps at most, an end of line as `$`.
pub(crate) fn printed_by(alloc: Global, image: &[u8], limit: u64) -> Result<String, Fail> {
    let made = made_by(alloc, image, limit)?;
    let mut text = String::new(alloc);
    for byte in &made.console {
        text.push(shown_byte(*byte))?;
    }
    Ok(text)
}
