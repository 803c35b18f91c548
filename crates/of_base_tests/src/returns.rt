use crate::rows::{Rows, check, decimal, natural, part, word};
use crate::stacks::{cells_of, has_cells};
use of_cells::Cell;
use of_stacks::{
    Continuation, DataStack, Due, ExceptionFrame, Input, LoopExit, LoopParameters, Reading,
    ReturnItem, ReturnStack, Throw, ends_cut, limits_are_passed, loops_are_own, throws_cut,
};
use of_stream::OffsetSize;
use std::alloc::Global;
use std::test::Fail;

/// A loop of an index and a limit, which is left for the code cell 9.
fn loop_of(index: u32, limit: u32) -> ReturnItem {
    ReturnItem::Loop(LoopParameters {
        index: Cell(index),
        limit: Cell(limit),
        exit: LoopExit::Code(9),
    })
}

/// What a `catch` keeps at a depth.
fn frame_at(depth: u8) -> ExceptionFrame {
    ExceptionFrame {
        depth,
        my_self: Cell(0xe000_0000),
        opened: None,
        resume: Continuation::Source,
    }
}

/// What is read beneath an image.
fn reading() -> Reading {
    Reading {
        input: Input::Image {
            position: 12,
            size: OffsetSize::Two,
        },
        opened: Some(Cell(0xc000_052c)),
    }
}

/// The item that a word names: `u` a cell, `l` a loop, `h` a handler, each with its number (a loop with a second one,
/// its limit); `return`, `source` and `caller`.
fn item_of(word: &str) -> Option<ReturnItem> {
    match word {
        "return" => Some(ReturnItem::Return(Continuation::Code(3))),
        "source" => Some(ReturnItem::Source(reading())),
        "caller" => Some(ReturnItem::Caller(Due::Method { my_self: Cell(0) })),
        _ => numbered_item_of(word),
    }
}

fn numbered_item_of(word: &str) -> Option<ReturnItem> {
    let (kind, digits) = word.split_at_checked(1)?;
    match kind {
        "l" => loop_item_of(digits),
        "h" => Some(ReturnItem::Handler(frame_at((natural(digits)? % 256) as u8))),
        _ => Some(ReturnItem::User(Cell(natural(digits)?))),
    }
}

fn loop_item_of(digits: &str) -> Option<ReturnItem> {
    let (index, limit) = digits.split_once('/')?;
    Some(loop_of(natural(index)?, natural(limit)?))
}

/// The stack of the items that words name, the top last.
fn stack_of(alloc: Global, words: &str) -> Option<ReturnStack> {
    let mut stack = ReturnStack::new(alloc).ok()?;
    for word in words.split_whitespace() {
        stack.try_push(item_of(word)?).ok()?;
    }
    Some(stack)
}

/// Whether a stack has the items that words name, the top last.
fn has_items(alloc: Global, stack: &ReturnStack, words: &str) -> bool {
    match stack_of(alloc, words) {
        Some(wanted) => stack.items() == wanted.items(),
        None => false,
    }
}

/// What a word of the return stack answers: a cell, 1 or 0 for yes or no, a place, or 0.
fn call(name: &str, n: u32, stack: &mut ReturnStack) -> Result<u32, Throw> {
    match name {
        ">r" => {
            stack.push_user(Cell(n))?;
            Ok(0)
        }
        "r@" => Ok(stack.user()?.0),
        "i" => Ok(stack.index(0)?.0),
        "j" => Ok(stack.index(1)?.0),
        "+loop" => Ok(u32::from(stack.turn_loop(Cell(n))?)),
        "unloop" => Ok(stack.take_loop()?.index.0),
        "exit" => match stack.take_return()? {
            Continuation::Code(cell) => Ok(cell),
            Continuation::Source => Ok(0),
        },
        "end0" => Ok(u32::from(stack.end_source() == Some(reading()))),
        "due" => Ok(u32::from(stack.peek().is_some_and(|item| item.is_due()))),
        _ => Err(Throw::ABORT),
    }
}

/// Words of the return stack, each with its number, the items that it finds, what it answers or throws, and the items
/// that it leaves; the top last.
const WORDS: &str = "\
>r 7 : u1 : 0 : u1 u7
>r 7 : : 0 : u7
>r 7 : h3 : -25 : h3
>r 7 : caller : -25 : caller
>r 7 : source : 0 : source u7
r@ 0 : u1 u2 : 2 : u1 u2
r@ 0 : : -6 :
r@ 0 : u1 return : -25 : u1 return
r@ 0 : u1 l5/9 : -25 : u1 l5/9
r@ 0 : u1 h0 : -25 : u1 h0
r@ 0 : source : -25 : source
exit 0 : u1 return : 3 : u1
exit 0 : return u1 : -25 : return u1
exit 0 : return l5/9 : -25 : return l5/9
exit 0 : : -25 :
i 0 : return l5/9 : 5 : return l5/9
i 0 : l4/9 l5/9 u1 h0 : 5 : l4/9 l5/9 u1 h0
i 0 : l5/9 return u1 : -26 : l5/9 return u1
i 0 : l5/9 source : -26 : l5/9 source
i 0 : l5/9 caller : -26 : l5/9 caller
i 0 : : -26 :
j 0 : l4/9 u1 l5/9 h0 : 4 : l4/9 u1 l5/9 h0
j 0 : l3/9 l4/9 l5/9 : 4 : l3/9 l4/9 l5/9
j 0 : l5/9 : -26 : l5/9
j 0 : l4/9 return l5/9 : -26 : l4/9 return l5/9
unloop 0 : u1 l5/9 : 5 : u1
unloop 0 : l5/9 u1 : -26 : l5/9 u1
unloop 0 : : -26 :
end0 0 : u1 source source l1/2 u2 : 1 : u1 source
end0 0 : u1 return : 0 :
due 0 : u1 h3 : 1 : u1 h3
due 0 : caller : 1 : caller
due 0 : caller return : 0 : caller return
+loop 1 : l5/9 u1 : -26 : l5/9 u1
+loop 1 : return : -26 : return
";

/// Steps of loops: index, limit, step, whether the loop goes on, and the new index.
const STEPS: &str = "\
7 9 1 1 8
8 9 1 0
9 9 1 1 10
0 0 1 1 1
4294967295 0 1 0
4294967294 0 1 1 4294967295
5 9 3 1 8
5 9 4 0
5 9 2147483647 0
9 9 2147483647 1 2147483656
9 9 4294967295 0
10 9 4294967295 1 9
12 9 4294967293 1 9
12 9 4294967292 0
8 9 4294967295 1 7
8 9 2147483648 1 2147483656
2147483656 9 2147483648 0
2147483657 9 2147483648 1 9
";

/// What the word of a line answers, or the number that it throws.
fn given(line: &str, stack: &mut ReturnStack) -> Option<i64> {
    match call(word(line, 0), natural(word(line, 1))?, stack) {
        Ok(x) => Some(i64::from(x)),
        Err(t) => Some(i64::from(t.0)),
    }
}

/// Words of the return stack.
#[derive(Clone, Copy)]
struct WordRows;

impl Rows for WordRows {
    fn holds(&mut self, alloc: Global, line: &str) -> Option<bool> {
        let mut stack = stack_of(alloc, part(line, 1))?;
        let given = given(line, &mut stack)?;
        Some(given == decimal(part(line, 2))? && has_items(alloc, &stack, part(line, 3)))
    }
}

#[test]
fn words(rt: HostRuntime) {
    check(&rt, rt.alloc(), &mut WordRows, WORDS);
    ends_cut();
    limits_are_passed();
    loops_are_own();
}

/// The number of a line at a place, 0 behind the last.
fn number(line: &str, place: usize) -> Option<u32> {
    match word(line, place) {
        "" => Some(0),
        digits => natural(digits),
    }
}

/// The stack of a line's loop.
fn loop_at(alloc: Global, line: &str) -> Option<ReturnStack> {
    let mut stack = ReturnStack::new(alloc).ok()?;
    stack.push(loop_of(number(line, 0)?, number(line, 1)?));
    Some(stack)
}

/// Whether a stack has a line's loop with its new index, or nothing where the loop doesn't go on.
fn has_loop(stack: &ReturnStack, line: &str, goes_on: bool) -> Option<bool> {
    if !goes_on {
        return Some(stack.depth() == 0);
    }
    let left = loop_of(number(line, 4)?, number(line, 1)?);
    Some(stack.peek() == Some(left))
}

/// Steps of loops.
#[derive(Clone, Copy)]
struct StepRows;

impl Rows for StepRows {
    fn holds(&mut self, alloc: Global, line: &str) -> Option<bool> {
        let mut stack = loop_at(alloc, line)?;
        let (step, wanted) = (Cell(number(line, 2)?), number(line, 3)? == 1);
        if stack.loop_goes_on(step) != Ok(wanted) || stack.turn_loop(step) != Ok(wanted) {
            return Some(false);
        }
        has_loop(&stack, line, wanted)
    }
}

#[test]
fn steps(rt: HostRuntime) {
    check(&rt, rt.alloc(), &mut StepRows, STEPS);
}

/// Throws: the number; the items and cells that it finds; the depth that the latest `catch` kept, or `none`; and the
/// items and cells that it leaves. The top last.
const THROWS: &str = "\
-9 : u1 h2 u2 return : 1 2 3 4 : 2 : u1 : 1 2 4294967287
7 : u1 h2 u2 h3 caller : 1 : 3 : u1 h2 u2 : 1 0 0 7
-1 : h0 h0 source l1/2 : 5 : 0 : h0 : 4294967295
5 : h2 : 1 2 : 2 : : 1 2 5
-4 : u1 return source : 1 2 3 : none : :
";

/// Whether the depth that a `catch` kept is what a line says.
fn is_depth(found: Option<ExceptionFrame>, wanted: &str) -> bool {
    match found {
        Some(frame) => decimal(wanted) == Some(i64::from(frame.depth)),
        None => wanted == "none",
    }
}

/// Throws.
#[derive(Clone, Copy)]
struct ThrowRows;

impl Rows for ThrowRows {
    fn holds(&mut self, alloc: Global, line: &str) -> Option<bool> {
        let thrown = Throw(part(line, 0).parse::<i32>().ok()?);
        let mut stack = stack_of(alloc, part(line, 1))?;
        let mut cells = cells_of(part(line, 2))?;
        let found = stack.unwind(thrown, &mut cells);
        let is_left = has_items(alloc, &stack, part(line, 4)) && has_cells(&cells, part(line, 5));
        Some(is_depth(found, part(line, 3)) && is_left)
    }
}

#[test]
fn throws(rt: HostRuntime) {
    check(&rt, rt.alloc(), &mut ThrowRows, THROWS);
    throws_cut();
}

/// Pushes a 7 so many times, and answers whether each finds room.
fn takes_sevens(stack: &mut ReturnStack, count: u32) -> bool {
    for _ in 0..count {
        if stack.try_push(ReturnItem::User(Cell(7))).is_err() {
            return false;
        }
    }
    true
}

#[test]
fn holds_256_items(rt: HostRuntime) -> Result<(), Fail> {
    let mut stack = ReturnStack::new(rt.alloc())?;
    assert!(rt; takes_sevens(&mut stack, 256));
    assert!(rt; stack.room_for(1) == Err(Throw(-5)));
    assert!(rt; stack.push_user(Cell(8)) == Err(Throw(-5)));
    assert!(rt; stack.pop() == Some(ReturnItem::User(Cell(7))));
    assert!(rt; stack.room_for(1).is_ok());
    Ok(())
}

/// What may not be covered counts before what finds no room.
#[test]
fn a_handler_counts_first(rt: HostRuntime) -> Result<(), Fail> {
    let mut stack = ReturnStack::new(rt.alloc())?;
    assert!(rt; takes_sevens(&mut stack, 255));
    assert!(rt; stack.try_push(ReturnItem::Handler(frame_at(0))).is_ok());
    assert!(rt; stack.push_user(Cell(8)) == Err(Throw(-25)));
    stack.clear();
    assert_eq!(rt; stack.depth(), 0);
    Ok(())
}

#[test]
fn cut_to_a_depth(rt: HostRuntime) {
    let mut stack = DataStack::new();
    stack.push(Cell(3));
    stack.cut_to(2);
    assert!(rt; has_cells(&stack, "3 0"));
    stack.cut_to(0);
    assert!(rt; stack.depth() == 0);
}
