//! The words over the return stack, and what begins and ends a word.
ghost use Rattle.std.specs.Prelude.{◌≡◌, ◌∷◌, false, OnOk};
ghost use Rattle.of_cells.specs.Outcomes.{Becomes};
ghost use Rattle.of_stacks.specs.Returns.{fitting, has_due_top};
ghost use Rattle.of_flow.specs.Returns.{entered, exited, stacks_entry};

use crate::control_state::Flow;
use of_cells::Cell;
use of_fcodes::ReturnsWord;
use of_stacks::{Continuation, DataStack, ReturnItem, ReturnStack, Throw};

/// `>r` ( x -- ) ( R: -- x )
#[inline]
#[tactic(auto, unfolding(crate::specs::Returns::stacks_entry))]
fn move_to_returns(stack: &mut DataStack, items: &mut ReturnStack) -> Result<(), Throw>
    ensures { Becomes (stacks_entry ReturnsWord.ToReturn stack.old items.old) (stack.old, items.old)
        (stack.new, items.new) result }
{
    let x = stack.peek()?;
    items.push_user(x)?;
    stack.drop_top(1);
    Ok(())
}

/// `r>` ( -- x ) ( R: x -- )
#[inline]
#[tactic(auto, unfolding(crate::specs::Returns::stacks_entry))]
fn move_from_returns(stack: &mut DataStack, items: &mut ReturnStack) -> Result<(), Throw>
    ensures { Becomes (stacks_entry ReturnsWord.FromReturn stack.old items.old) (stack.old, items.old)
        (stack.new, items.new) result }
{
    let x = items.user()?;
    stack.try_push(x)?;
    let _ = items.pop();
    Ok(())
}

/// Runs a word over both stacks: not `exit` and `execute`, which go on elsewhere.
///
/// -4 without the cell that `>r` takes; -6 where `r>` or `r@` find no item; -25 where they find no cell of the program,
/// and for `>r` above a handler or a caller; -26 where `unloop`, `i` or `j` find no loop; -5 and -3 where there is no
/// room. A throw changes nothing.
#[inline]
#[tactic(auto, unfolding(crate::specs::Returns::stacks_entry))]
pub fn run_stacks_word(
    word: ReturnsWord,
    stack: &mut DataStack,
    items: &mut ReturnStack,
) -> Result<(), Throw>
    ensures { Becomes (stacks_entry word stack.old items.old) (stack.old, items.old) (stack.new, items.new) result }
{
    match word {
        ReturnsWord::ToReturn => move_to_returns(stack, items),
        ReturnsWord::FromReturn => move_from_returns(stack, items),
        ReturnsWord::FetchReturn => stack.try_push(items.user()?),
        ReturnsWord::Unloop => {
            let _ = items.take_loop()?;
            Ok(())
        }
        ReturnsWord::Index => stack.try_push(items.index(0)?),
        ReturnsWord::OuterIndex => stack.try_push(items.index(1)?),
        ReturnsWord::Exit | ReturnsWord::Execute => Err(Throw::NOT_ASSIGNED),
    }
}

/// Begins the definition at a code cell: control goes on behind the word when that has ended.
///
/// -5 where the return stack has no room. A throw changes nothing.
#[inline]
#[tactic(auto, using(crate::proofs::Entered::entered_rests))]
pub fn enter(start: u32, flow: &mut Flow) -> Result<(), Throw>
    ensures value { Becomes (entered start flow.old (fitting (ReturnItem.Return flow.old.next ∷ flow.old.items)))
        flow.old flow.new result }
    ensures rests { OnOk result (has_due_top flow.new.items ≡ false) }
    ensures runs { OnOk result (flow.new.is_running ≡ flow.old.is_running) }
    ensures next { OnOk result (flow.new.next ≡ Continuation.Code start) }
{
    flow.items.try_push(ReturnItem::Return(flow.next))?;
    flow.next = Continuation::Code(start);
    Ok(())
}

/// Ends a word, as its return and `exit` do (Forth 2012, 6.1.1380): control goes on where the return on top says.
///
/// -25 where the top item is no return. A throw changes nothing.
#[inline]
pub fn exit(flow: &mut Flow) -> Result<(), Throw>
    ensures { Becomes (exited flow.old) flow.old flow.new result }
{
    flow.next = flow.items.take_return()?;
    Ok(())
}
