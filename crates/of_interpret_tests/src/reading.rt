//! Lines are read, and what they make is shown as text.
use of_asking::Halt;
use of_code::ListCode;
use of_interpret::text_due;
use of_stacks::{Continuation, Input};
use of_state::Eval;
use of_steps::step;
use std::alloc::{AllocError, Global};
use std::test::Fail;

/// Makes a step in a text: its next word is done, and what is due then.
fn read_word(eval: &mut Eval<ListCode>, position: usize) -> Result<(), AllocError> {
    match text_due(eval, position) {
        Ok(()) => eval.finish_step(None),
        Err(Halt::Thrown(fault)) => {
            if eval.is_running() {
                eval.finish_step(Some(fault));
            }
        }
        Err(_) => return Err(AllocError),
    }
    Ok(())
}

/// Makes the next step.
fn make_step(eval: &mut Eval<ListCode>) -> Result<(), AllocError> {
    match (eval.flow.next, eval.flow.reading.input) {
        (Continuation::Source, Input::Text { position }) => read_word(eval, position),
        _ => match step(eval) {
            Ok(()) => Ok(()),
            Err(_) => Err(AllocError),
        },
    }
}

/// Reads a line to its end, or for so many steps.
fn read_line(eval: &mut Eval<ListCode>, line: &str, limit: u64) -> Result<(), AllocError> {
    eval.begin_line(line.as_bytes())?;
    for _ in 0..limit {
        if !eval.is_running() {
            return Ok(());
        }
        make_step(eval)?;
    }
    Ok(())
}

/// What is left once lines were read, one after another.
fn left(eval: &Eval<ListCode>, alloc: Global) -> Result<String, Fail> {
    let mut text = String::new(alloc);
    for cell in eval.stack() {
        text.push_str(&format!(in alloc; "{:x} ", cell.0)?)?;
    }
    text.push('|')?;
    for byte in eval.console() {
        text.push(if *byte == b'\n' {
            '$'
        } else {
            char::from(*byte)
        })?;
    }
    Ok(text)
}

/// What lines leave, one after another, that are set apart by `~`: the data stack, bottom first, in hexadecimal, then
/// what was printed, an end of line as `$`.
pub(crate) fn left_by(alloc: Global, lines: &str) -> Result<String, Fail> {
    let mut eval = Eval::new(alloc, ListCode::new(alloc))?;
    for line in lines.split('~') {
        read_line(&mut eval, line, 9999)?;
    }
    left(&eval, alloc)
}
