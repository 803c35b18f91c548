//! Words that call a method of an instance's package.
ghost use Rattle.std.specs.Prelude.{◌≡◌, ◌<◌, ◌≤◌, ◌+◌, ◌++◌, length, true, Some, None, Ok, IfOk, IfErr, OnOk, OnErr};
ghost use Rattle.std.specs.Box.{box_value};
ghost use Rattle.std.specs.Option.{option_map};
ghost use Rattle.of_stacks.specs.Order.{counting};
ghost use Rattle.of_instances.specs.Calling.{TakesOperands, beneath, calling_entry, operand_cells};
ghost use Rattle.of_eval.specs.Executing.{call_faults};
ghost use Rattle.of_eval.specs.Unrolled.{IsCallee, IsKeptFor, IsRefused, IsUnopened, begun, is_new, uncalled};

use of_board::Board;
use of_cells::Cell;
use of_code::CodeStore;
use of_dict::Kind;
use of_instances::{Callee, CallingWord, MethodCall, Operands, find_call, open_instance};
use of_memory::Memory;
use of_stacks::{DataStack, Due, ReturnItem, Stop, Throw};
use of_state::Eval;
use std::alloc::AllocError;

/// How many cells operands are.
fn count(operands: Operands) -> usize
    ensures { result ≡ length (operand_cells operands) }
{
    match operands {
        Operands::One(_) => 1,
        Operands::Two(_, _) => 2,
        Operands::Three(_, _, _) => 3,
        Operands::Four(_, _, _, _) => 4,
    }
}

/// Pushes operands again that were taken.
pub(crate) fn put_back(operands: Operands, stack: &mut DataStack)
    requires { length (operand_cells operands) + length stack.old ≤ 256 }
    ensures { stack.new ≡ operand_cells operands ++ stack.old }
{
    match operands {
        Operands::One(x) => stack.push(x),
        Operands::Two(x, y) => {
            stack.push(x);
            stack.push(y);
        }
        Operands::Three(x, y, z) => {
            stack.push(x);
            stack.push(y);
            stack.push(z);
        }
        Operands::Four(x, y, z, u) => {
            stack.push(x);
            stack.push(y);
            stack.push(z);
            stack.push(u);
        }
    }
}

/// The method that a word calls, if it calls one, as `find_call` finds it.
///
/// It and what begins and undoes a call stand in no line of the function that calls the method, so that methods which
/// call one another in a step take little of the processor's stack.
#[inline(never)]
pub(crate) fn find_method(calling: CallingWord, board: &Board) -> Result<Option<MethodCall>, Throw>
    ensures found { result ≡ calling_entry calling board.now }
    ensures taken { TakesOperands board.now.stack result }
{
    find_call(calling, board)
}

/// Whether a method can be called: -263 where the number is no word, -5 where the return stack has no room.
#[inline(never)]
#[tactic(auto, using(crate::proofs::Called::no_word))]
pub(crate) fn may_call<C: CodeStore>(eval: &Eval<C>, xt: Cell) -> Result<(), Throw>
    ensures good { OnOk result (counting (call_faults eval.now xt) ≡ None) }
    ensures room { OnOk result (length eval.now.flow.items < 256) }
    ensures refused { IfErr result (λ t. counting (call_faults eval.now xt) ≡ Some t) }
{
    if !eval.words.is_word(xt) {
        return Err(Throw::BAD_HANDLE);
    }
    eval.flow.items.room_for(1)
}

/// A copy of the data space, if the word of an execution token may ask for memory that is run for a new instance.
/// Nothing is copied where that is a definition.
#[inline(never)]
pub(crate) fn keep_memory<C: CodeStore>(
    eval: &Eval<C>,
    callee: Callee,
    xt: Cell,
) -> Result<Option<Box<Memory>>, AllocError>
    ensures kept { IfOk result (λ kept. IsKeptFor callee xt eval.now (option_map box_value kept)) }
    ensures new { OnErr result (is_new callee ≡ true) }
{
    match callee {
        Callee::Live { .. } => Ok(None),
        Callee::New { .. } => match eval.words.kind_at(xt) {
            Some(Kind::Colon { .. }) => Ok(None),
            _ => {
                let memory = eval.board.memory.duplicate()?;
                Ok(Some(Box::new(eval.board.active.new_devices.alloc(), memory)?))
            }
        },
    }
}

/// The instance for which a method runs, and what is due at its end; a new one is opened.
fn callee<C: CodeStore>(eval: &mut Eval<C>, callee: Callee) -> Result<(Cell, Due), Stop>
    ensures live { IfOk result (λ x. IsCallee callee x.0 x.1 eval.old eval.new) }
    ensures refused { IfErr result (λ stop. IsUnopened callee stop eval.old) }
    ensures stays { OnErr result (eval.new ≡ eval.old) }
{
    match callee {
        Callee::Live { instance, due } => Ok((instance, due)),
        Callee::New {
            package,
            address,
            length,
        } => {
            let my_self = eval.board.active.my_self;
            let instance = open_instance(&mut eval.board, package, address, length)?;
            Ok((instance, Due::Open { my_self, instance }))
        }
    }
}

/// Takes what a word takes that calls a method, and pushes what is due at its end; the method's instance is the
/// current one, and is opened before where it is a new one.
///
/// What the opening throws, or NoMemory; then nothing has changed.
#[inline(never)]
pub(crate) fn begin_call<C: CodeStore>(eval: &mut Eval<C>, call: MethodCall) -> Result<(), Stop>
    requires taken { eval.old.board.stack ≡ operand_cells call.operands ++ beneath call.operands
        eval.old.board.stack }
    requires room { length eval.old.flow.items < 256 }
    ensures begun { OnOk result (begun call eval.old ≡ Ok eval.new) }
    ensures room { OnOk result (length (operand_cells call.operands) + length eval.new.board.stack ≤ 256) }
    ensures fewer { OnOk result (length eval.new.board.stack < length eval.old.board.stack) }
    ensures refused { IfErr result (λ stop. IsRefused call eval.old stop) }
    ensures stays { OnErr result (eval.new ≡ eval.old) }
{
    let (instance, due) = callee(eval, call.callee)?;
    eval.board.stack.drop_top(count(call.operands));
    eval.flow.items.push(ReturnItem::Caller(due));
    eval.board.active.my_self = instance;
    Ok(())
}

/// The state before a method was called, whose word found no memory.
#[inline(never)]
pub(crate) fn undo_call<C: CodeStore>(
    eval: &mut Eval<C>,
    call: MethodCall,
    my_self: Cell,
    kept: Option<Box<Memory>>,
)
    requires { length (operand_cells call.operands) + length eval.old.board.stack ≤ 256 }
    ensures { eval.new ≡ uncalled call my_self (option_map box_value kept) eval.old }
{
    if let Some(memory) = kept {
        eval.board.memory = Box::into_inner(memory);
        eval.board.instances.take_back();
    }
    let _ = eval.flow.items.pop();
    eval.board.active.my_self = my_self;
    put_back(call.operands, &mut eval.board.stack);
}
