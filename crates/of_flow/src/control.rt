//! The words of control: branches, counted loops and cases.
ghost use Rattle.std.specs.Prelude.{◌≡◌, Ok, Err, OnOk, OnErr, if◌then◌else◌, true};
ghost use Rattle.of_stacks.specs.Throws.{image_ended};
ghost use Rattle.of_stacks.specs.Loops.{goes_on, turned};
ghost use Rattle.of_flow.specs.Turns.{Turns, control_entry, keeps_rest, repeated};

use of_cells::Cell;
use of_stacks::{DataStack, LoopExit, LoopParameters, ReturnItem, ReturnStack, Throw};

/// A word of control, as a token of an image or as an item of a definition.
#[derive(Clone, Copy)]
pub enum ControlWord {
    /// `bbranch` ( -- )
    Branch,
    /// `b?branch` ( x -- ) goes to its target where x is 0.
    BranchIfZero,
    /// `b(do)` ( limit start -- )
    Do,
    /// `b(?do)` ( limit start -- ) goes to its target where both are equal.
    QuestionDo,
    /// `b(loop)` ( -- ) goes to its target unless the loop has ended.
    Loop,
    /// `b(+loop)` ( step -- ) goes to its target unless the loop has ended.
    PlusLoop,
    /// `b(of)` ( x y -- ) where they are equal; else ( x y -- x ), to its target.
    Of,
    /// `b(endof)` ( -- )
    EndOf,
    /// `b(endcase)` ( x -- )
    EndCase,
}

/// `b?branch` ( x -- )
#[inline]
#[tactic(auto, unfolding(crate::specs::Turns::control_entry))]
fn branch_if_zero(
    lands: bool,
    exit: LoopExit,
    stack: &mut DataStack,
    items: &mut ReturnStack,
) -> Result<bool, Throw>
    ensures { Turns (control_entry ControlWord.BranchIfZero lands exit stack.old items.old) stack.old stack.new
        items.old items.new result }
{
    let _ = &items;
    let _ = exit;
    let x = stack.peek()?;
    if x.0 != 0 {
        stack.drop_top(1);
        return Ok(false);
    }
    if !lands {
        return Err(Throw::IMAGE_ENDED);
    }
    stack.drop_top(1);
    Ok(true)
}

/// `b(do)` ( limit start -- ) enters a loop; -5 where the return stack has no room for it
#[inline]
#[tactic(auto, unfolding(crate::specs::Turns::control_entry))]
fn enter_loop(
    lands: bool,
    exit: LoopExit,
    stack: &mut DataStack,
    items: &mut ReturnStack,
) -> Result<bool, Throw>
    ensures { Turns (control_entry ControlWord.Do lands exit stack.old items.old) stack.old stack.new
        items.old items.new result }
{
    let _ = lands;
    let (limit, index) = stack.top_two()?;
    items.try_push(ReturnItem::Loop(LoopParameters { index, limit, exit }))?;
    stack.drop_top(2);
    Ok(false)
}

/// `b(?do)` ( limit start -- ) enters a loop, unless both are equal
#[inline]
#[tactic(auto, unfolding(crate::specs::Turns::control_entry))]
fn question_do(
    lands: bool,
    exit: LoopExit,
    stack: &mut DataStack,
    items: &mut ReturnStack,
) -> Result<bool, Throw>
    ensures { Turns (control_entry ControlWord.QuestionDo lands exit stack.old items.old) stack.old stack.new
        items.old items.new result }
{
    let (limit, index) = stack.top_two()?;
    if index.0 != limit.0 {
        return enter_loop(lands, exit, stack, items);
    }
    if !lands {
        return Err(Throw::IMAGE_ENDED);
    }
    stack.drop_top(2);
    Ok(true)
}

/// Turns the loop on top, which goes on at the target, if there is one; -26 where no loop is on top
#[inline]
fn turn(step: Cell, lands: bool, items: &mut ReturnStack) -> Result<bool, Throw>
    ensures goes { result ≡ repeated lands (goes_on step items.old) }
    ensures items { OnOk result (items.new ≡ turned step items.old) }
    ensures unchanged { OnErr result (items.new ≡ items.old) }
{
    if !lands && items.loop_goes_on(step)? {
        return Err(Throw::IMAGE_ENDED);
    }
    items.turn_loop(step)
}

/// `b(+loop)` ( step -- )
#[inline]
#[tactic(auto, unfolding(crate::specs::Turns::control_entry))]
fn plus_loop(
    lands: bool,
    exit: LoopExit,
    stack: &mut DataStack,
    items: &mut ReturnStack,
) -> Result<bool, Throw>
    ensures { Turns (control_entry ControlWord.PlusLoop lands exit stack.old items.old) stack.old stack.new
        items.old items.new result }
{
    let _ = exit;
    let step = stack.peek()?;
    let goes = turn(step, lands, items)?;
    stack.drop_top(1);
    Ok(goes)
}

/// `b(of)` ( x y -- )
#[inline]
#[tactic(auto, unfolding(crate::specs::Turns::control_entry))]
fn test_arm(
    lands: bool,
    exit: LoopExit,
    stack: &mut DataStack,
    items: &mut ReturnStack,
) -> Result<bool, Throw>
    ensures { Turns (control_entry ControlWord.Of lands exit stack.old items.old) stack.old stack.new
        items.old items.new result }
{
    let _ = &items;
    let _ = exit;
    let (x, y) = stack.top_two()?;
    if x.0 == y.0 {
        stack.drop_top(2);
        return Ok(false);
    }
    if !lands {
        return Err(Throw::IMAGE_ENDED);
    }
    stack.drop_top(1);
    Ok(true)
}

/// Goes to the target, if there is one.
#[inline]
fn go(lands: bool) -> Result<bool, Throw>
    ensures { result ≡ (if lands then Ok true else Err image_ended) }
{
    if lands {
        Ok(true)
    } else {
        Err(Throw::IMAGE_ENDED)
    }
}

/// Runs a word of control, and answers whether control goes on at its target, which is only asked for
/// then: `lands` says whether there is one, `exit` where `leave` goes from a loop that is entered.
///
/// -4 with too few cells, -26 where no loop is on top, -257 where control goes to a target that isn't
/// there, -5 where the return stack has no room for a loop. A throw changes nothing.
#[inline(always)]
#[tactic(auto, unfolding(crate::specs::Turns::control_entry))]
pub fn run_control(
    word: ControlWord,
    lands: bool,
    exit: LoopExit,
    stack: &mut DataStack,
    items: &mut ReturnStack,
) -> Result<bool, Throw>
    ensures { Turns (control_entry word lands exit stack.old items.old) stack.old stack.new items.old items.new result }
{
    match word {
        ControlWord::Branch => go(lands),
        ControlWord::BranchIfZero => branch_if_zero(lands, exit, stack, items),
        ControlWord::Do => enter_loop(lands, exit, stack, items),
        ControlWord::QuestionDo => question_do(lands, exit, stack, items),
        ControlWord::Loop => turn(Cell::ONE, lands, items),
        ControlWord::PlusLoop => plus_loop(lands, exit, stack, items),
        ControlWord::Of => test_arm(lands, exit, stack, items),
        ControlWord::EndOf => go(lands),
        ControlWord::EndCase => {
            let _ = stack.pop()?;
            Ok(false)
        }
    }
}

/// Whether nothing is due on top of the return stack behind a word of control if nothing was before, where control goes
/// to its target or doesn't.
#[inline(always)]
pub fn keeps_rest(word: ControlWord, goes: bool) -> bool
    ensures { result ≡ keeps_rest word goes }
{
    match word {
        ControlWord::Loop | ControlWord::PlusLoop => goes,
        ControlWord::Branch
        | ControlWord::BranchIfZero
        | ControlWord::Do
        | ControlWord::QuestionDo
        | ControlWord::Of
        | ControlWord::EndOf
        | ControlWord::EndCase => true,
    }
}
