//! `evaluate`: texts that stand in the data space.
ghost use Rattle.of_eval.specs.Acts.{front_of};
ghost use Rattle.of_eval.specs.Doing.{IsWorked};
ghost use Rattle.of_eval.specs.Evaluating.{evaluate_act};

use of_code::CodeStore;
use of_prims::throw_of;
use of_stacks::{Continuation, Input, Reading, ReturnItem, Stop, Throw};
use of_state::Eval;

/// `evaluate` ( s n -- ) reads a copy of the text at an address, inside what runs now.
///
/// -29 while a definition is open; -4 with fewer cells; -9 where a byte of the text can't be read; -5 where the return
/// stack has no room for two items. A throw changes nothing, and neither does an error for memory.
#[tactic(auto, unfolding(crate::specs::Doing::worked))]
pub(crate) fn evaluate<C: CodeStore>(eval: &mut Eval<C>) -> Result<(), Stop>
    ensures { IsWorked (evaluate_act (front_of eval.old)) eval.old eval.new result }
{
    if eval.words.defining().is_some() {
        return Err(Stop::Thrown(Throw::COMPILER_NESTING));
    }
    let (at, length) = eval.board.stack.top_two()?;
    let has_room = eval.flow.items.depth() + 2 <= 256;
    match eval.board.memory.slice(at, length) {
        Ok(text) if has_room => eval.flow.texts.push(text)?,
        Ok(_) => return Err(Stop::Thrown(Throw::RETURN_STACK_OVERFLOW)),
        Err(fault) => return Err(Stop::Thrown(throw_of(fault))),
    }
    eval.board.stack.drop_top(2);
    eval.flow.items.push(ReturnItem::Return(eval.flow.next));
    eval.flow.items.push(ReturnItem::Source(eval.flow.reading));
    eval.flow.reading = Reading {
        input: Input::Text { position: 0 },
        opened: eval.words.open_xt(),
    };
    eval.flow.next = Continuation::Source;
    Ok(())
}
