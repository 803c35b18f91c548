// What an answer makes of the data stack.

ghost use Rattle.std.specs.Prelude.{◌≡◌, ◌<◌, ◌≤◌, IfErr, IfOk, None, Some, drop, length};
ghost use Rattle.of_cells.specs.Outcomes.{Becomes};
ghost use Rattle.of_asking.specs.Questions.{done_left, peek_left, poke_left, ready_left, value_left};

use crate::halt::Halt;
use crate::query::{Answer, Query};
use of_cells::Cell;
use of_stacks::{DataStack, Throw};

/// The answer at hand, or the question.
#[inline]
pub(crate) fn ask(reply: Option<Answer>, query: Query) -> Result<Answer, Halt>
    ensures answer { IfOk result (λ a. reply ≡ Some a) }
    ensures question { IfErr result (λ h. (reply ≡ None) × (h ≡ Halt.Asks query)) }
{
    match reply {
        Some(answer) => Ok(answer),
        None => Err(Halt::Asks(query)),
    }
}

/// ( -- x )
pub(crate) fn push_value(answer: Answer, stack: &mut DataStack) -> Result<(), Throw>
    requires { length stack.old < 256 }
    ensures { Becomes (value_left stack.old answer) stack.old stack.new result }
{
    match answer {
        Answer::Value(x) => {
            stack.push(Cell(x));
            Ok(())
        }
        Answer::Done => Err(Throw::BUS_FAULT),
        Answer::BusFault => Err(Throw::BUS_FAULT),
    }
}

/// ( -- f )
pub(crate) fn push_ready(answer: Answer, stack: &mut DataStack) -> Result<(), Throw>
    requires { length stack.old < 256 }
    ensures { Becomes (ready_left stack.old answer) stack.old stack.new result }
{
    match answer {
        Answer::Value(x) => {
            stack.push(Cell::flag(x > 0));
            Ok(())
        }
        Answer::Done => Err(Throw::BUS_FAULT),
        Answer::BusFault => Err(Throw::BUS_FAULT),
    }
}

/// ( a -- x )
pub(crate) fn replace_by_value(answer: Answer, stack: &mut DataStack) -> Result<(), Throw>
    requires { 1 ≤ length stack.old }
    ensures { Becomes (value_left (drop 1 stack.old) answer) stack.old stack.new result }
{
    match answer {
        Answer::Value(x) => {
            stack.replace_top(Cell(x));
            Ok(())
        }
        Answer::Done => Err(Throw::BUS_FAULT),
        Answer::BusFault => Err(Throw::BUS_FAULT),
    }
}

/// Drops so many operands of what is done.
pub(crate) fn drop_done(answer: Answer, count: usize, stack: &mut DataStack) -> Result<(), Throw>
    requires { count ≤ length stack.old }
    ensures { Becomes (done_left (drop count stack.old) answer) stack.old stack.new result }
{
    match answer {
        Answer::Value(_) => Err(Throw::BUS_FAULT),
        Answer::Done => {
            stack.drop_top(count);
            Ok(())
        }
        Answer::BusFault => Err(Throw::BUS_FAULT),
    }
}

/// ( a -- x true ), or -3 where there is no room.
pub(crate) fn replace_by_found(x: u32, stack: &mut DataStack) -> Result<(), Throw>
    requires { 1 ≤ length stack.old }
    ensures { Becomes (peek_left (drop 1 stack.old) (Answer.Value x)) stack.old stack.new result }
{
    stack.room_for(1)?;
    stack.replace_top(Cell(x));
    stack.push(Cell::TRUE);
    Ok(())
}

/// ( a -- false ), or ( a -- x true )
pub(crate) fn replace_by_peek(answer: Answer, stack: &mut DataStack) -> Result<(), Throw>
    requires { 1 ≤ length stack.old }
    ensures { Becomes (peek_left (drop 1 stack.old) answer) stack.old stack.new result }
{
    match answer {
        Answer::Value(x) => replace_by_found(x, stack),
        Answer::Done => {
            stack.replace_top(Cell::ZERO);
            Ok(())
        }
        Answer::BusFault => {
            stack.replace_top(Cell::ZERO);
            Ok(())
        }
    }
}

/// ( x a -- f )
pub(crate) fn replace_by_poke(answer: Answer, stack: &mut DataStack) -> Result<(), Throw>
    requires { 2 ≤ length stack.old }
    ensures { Becomes (poke_left (drop 2 stack.old) answer) stack.old stack.new result }
{
    match answer {
        Answer::Value(_) => stack.replace_two(Cell::ZERO),
        Answer::Done => stack.replace_two(Cell::TRUE),
        Answer::BusFault => stack.replace_two(Cell::ZERO),
    }
    Ok(())
}
