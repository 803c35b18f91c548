//! Calls of the return stack.
use of_cells::Cell;
use of_stacks::{
    Continuation, DataStack, ExceptionFrame, LoopExit, LoopParameters, ReturnItem, ReturnStack,
    Throw,
};
use std::alloc::Global;

/// A loop up to a limit.
fn loop_to(limit: u32) -> ReturnItem {
    ReturnItem::Loop(LoopParameters {
        index: Cell::ZERO,
        limit: Cell(limit),
        exit: LoopExit::Code(0),
    })
}

/// `>r`, as a word calls it.
#[inline(never)]
fn put(x: Cell, stack: &mut ReturnStack) -> Result<(), Throw> {
    stack.push_user(x)
}

/// `r>`, as a word calls it.
#[inline(never)]
fn take(stack: &mut ReturnStack) -> Result<Cell, Throw> {
    let x = stack.user()?;
    let _ = stack.pop();
    Ok(x)
}

/// Puts cells on the stack and takes them.
fn cells(stack: &mut ReturnStack, count: u32) -> Result<u32, Throw> {
    let mut sum = 0u32;
    for i in 0..count {
        put(Cell(i), stack)?;
        sum = sum.wrapping_add(take(stack)?.0);
    }
    Ok(sum)
}

/// The call of a definition.
#[inline(never)]
fn enter(place: u32, stack: &mut ReturnStack) -> Result<(), Throw> {
    stack.try_push(ReturnItem::Return(Continuation::Code(place)))
}

/// `exit`, as a word calls it.
#[inline(never)]
fn leave(stack: &mut ReturnStack) -> Result<u32, Throw> {
    match stack.take_return()? {
        Continuation::Code(place) => Ok(place),
        Continuation::Source => Ok(0),
    }
}

/// Enters definitions and leaves them.
fn returns(stack: &mut ReturnStack, count: u32) -> Result<u32, Throw> {
    let mut sum = 0u32;
    for i in 0..count {
        enter(i, stack)?;
        sum = sum.wrapping_add(leave(stack)?);
    }
    Ok(sum)
}

/// `loop` or `+loop`, as a word calls it.
#[inline(never)]
fn turn(step: Cell, stack: &mut ReturnStack) -> Result<bool, Throw> {
    stack.turn_loop(step)
}

/// `loop`, as a word calls it.
#[inline(never)]
fn turn_by_one(stack: &mut ReturnStack) -> Result<bool, Throw> {
    stack.turn_loop(Cell::ONE)
}

/// Turns a loop without end.
fn steps(stack: &mut ReturnStack, count: u32, step: u32) -> Result<u32, Throw> {
    stack.try_push(loop_to(0))?;
    let mut ended = 0u32;
    for _ in 0..count {
        let goes_on = if step == 1 {
            turn_by_one(stack)?
        } else {
            turn(Cell(step), stack)?
        };
        if !goes_on {
            stack.try_push(loop_to(0))?;
            ended = ended.wrapping_add(1);
        }
    }
    Ok(ended)
}

/// `i`, as a word calls it.
#[inline(never)]
fn index(stack: &ReturnStack) -> Result<Cell, Throw> {
    stack.index(0)
}

/// Turns a loop without end, and reads its index.
fn indices(stack: &mut ReturnStack, count: u32) -> Result<u32, Throw> {
    stack.try_push(loop_to(0))?;
    let mut sum = 0u32;
    for _ in 0..count {
        turn_by_one(stack)?;
        sum = sum.wrapping_add(index(stack)?.0);
    }
    Ok(sum)
}

/// `j`, as a word calls it.
#[inline(never)]
fn outer_index(stack: &ReturnStack) -> Result<Cell, Throw> {
    stack.index(1)
}

/// Turns a loop without end, and reads the index of the one that it stands in.
fn outer_indices(stack: &mut ReturnStack, count: u32) -> Result<u32, Throw> {
    stack.try_push(loop_to(9))?;
    stack.try_push(loop_to(0))?;
    let mut sum = 0u32;
    for _ in 0..count {
        turn_by_one(stack)?;
        sum = sum.wrapping_add(outer_index(stack)?.0);
    }
    Ok(sum)
}

/// `catch` of a word that throws.
#[inline(never)]
fn catch(thrown: Throw, stack: &mut ReturnStack, cells: &mut DataStack) -> Result<u32, Throw> {
    stack.try_push(ReturnItem::Handler(ExceptionFrame {
        depth: 2,
        my_self: Cell::ZERO,
        opened: None,
        resume: Continuation::Code(1),
    }))?;
    stack.try_push(ReturnItem::Return(Continuation::Code(1)))?;
    match stack.unwind(thrown, cells) {
        Some(frame) => Ok(u32::from(frame.depth)),
        None => Ok(0),
    }
}

/// Throws and catches.
fn throws(stack: &mut ReturnStack, count: u32) -> Result<u32, Throw> {
    let mut cells = DataStack::new();
    let mut sum = 0u32;
    for _ in 0..count {
        sum = sum.wrapping_add(catch(Throw::ABORT, stack, &mut cells)?);
    }
    Ok(sum)
}

/// Makes so many calls of a kind, and answers a number that depends on all of them.
pub fn calls(alloc: Global, kind: &str, count: u32) -> Option<u32> {
    let mut stack = ReturnStack::new(alloc).ok()?;
    match kind {
        "cells" => cells(&mut stack, count).ok(),
        "returns" => returns(&mut stack, count).ok(),
        "loop" => steps(&mut stack, count, 1).ok(),
        "+loop" => steps(&mut stack, count, 3).ok(),
        "loop-i" => indices(&mut stack, count).ok(),
        "loop-j" => outer_indices(&mut stack, count).ok(),
        "throw" => throws(&mut stack, count).ok(),
        _ => None,
    }
}
