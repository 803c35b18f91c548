//! The words of a text that serve only while words are compiled.
ghost use Rattle.std.specs.Prelude.{◌≡◌, [], ◌∷◌, None, Some, true};
ghost use Rattle.of_compile.specs.Elements.{CanBeStored, element_of, own_item};
ghost use Rattle.of_compile.specs.Tokens.{text_elements};
ghost use Rattle.of_eval.specs.Acts.{front_of};
ghost use Rattle.of_eval.specs.Doing.{IsWorked, worked};
ghost use Rattle.of_interpret.specs.TextActs.{AppendsAll, Interprets, IsSpoken, text_acted};
ghost use Rattle.of_interpret.specs.TextWords.{compiling_act, only_compiling, recursing, literal_taken, roll_taken};
ghost use Rattle.of_interpret.specs.TextWords.{store_taken};
ghost use Rattle.of_state.specs.State.{Leaves, flat_calls};

use of_code::CodeStore;
use of_compile::{Element, PlainItem, called};
use of_eval::{compile, semicolon};
use of_fcodes::CompilingWord;
use of_stacks::{Stop, Throw};
use of_state::Eval;

/// Appends the one element of a word of control.
fn append<C: CodeStore>(eval: &mut Eval<C>, element: Element) -> Result<(), Stop>
    requires storable { CanBeStored (own_item (element_of element)) }
    ensures { IsSpoken (AppendsAll (element_of element ∷ []) eval.old.board.stack) eval.old eval.new result }
{
    compile(eval, element)
}

/// `else`: a branch, and the one that was the latest before it ends here (Forth 2012, 6.1.1310).
#[tactic(auto, unfolding(crate::specs::TextActs::text_acted))]
fn append_else<C: CodeStore>(eval: &mut Eval<C>) -> Result<(), Stop>
    ensures { IsSpoken (AppendsAll (text_elements CompilingWord.Else) eval.old.board.stack) eval.old eval.new
        result }
{
    compile(eval, Element::Branch(false, None))?;
    let _ = eval.coding.compile(Element::Roll(1));
    let _ = eval.coding.compile(Element::Resolve(None));
    Ok(())
}

/// `repeat`: a branch back, and the latest branch forward ends here (Forth 2012, 6.1.2140).
#[tactic(auto, unfolding(crate::specs::TextActs::text_acted))]
fn append_repeat<C: CodeStore>(eval: &mut Eval<C>) -> Result<(), Stop>
    ensures { IsSpoken (AppendsAll (text_elements CompilingWord.Repeat) eval.old.board.stack) eval.old eval.new
        result }
{
    compile(eval, Element::Back(false, None))?;
    let _ = eval.coding.compile(Element::Resolve(None));
    Ok(())
}

/// `recurse` calls the open definition (Forth 2012, 6.1.2120).
#[tactic(auto, unfolding(of_eval::specs::Doing::worked))]
fn recurse<C: CodeStore>(eval: &mut Eval<C>) -> Result<(), Stop>
    ensures { IsWorked (recursing eval.old.words.defining (front_of eval.old)) eval.old eval.new result }
{
    match eval.words.open_xt() {
        Some(xt) => compile(eval, Element::Plain(called(xt))),
        None => Err(Stop::Thrown(Throw::COMPILE_ONLY)),
    }
}

/// `literal` ( x -- ) compiles the cell (Forth 2012, 6.1.1780).
#[tactic(auto, unfolding(of_eval::specs::Doing::worked))]
fn take_literal<C: CodeStore>(eval: &mut Eval<C>) -> Result<(), Stop>
    ensures { IsWorked (literal_taken eval.old.board.stack) eval.old eval.new result }
{
    let x = eval.board.stack.peek()?;
    compile(eval, Element::Plain(PlainItem::Literal(x)))?;
    eval.board.stack.drop_top(1);
    Ok(())
}

/// `cs-roll` ( n -- ) makes the n-th latest branch that is open the latest (Forth 2012, 15.6.2.1020).
#[tactic(auto, unfolding(of_eval::specs::Doing::worked))]
fn take_roll<C: CodeStore>(eval: &mut Eval<C>) -> Result<(), Stop>
    ensures { IsWorked (roll_taken eval.old.board.stack) eval.old eval.new result }
{
    let n = eval.board.stack.peek()?;
    compile(eval, Element::Roll(n.0 as usize))?;
    eval.board.stack.drop_top(1);
    Ok(())
}

/// `to,` ( xt -- ) compiles a store into a word; -263 where it is none.
#[tactic(auto, unfolding(of_eval::specs::Doing::worked))]
fn take_store<C: CodeStore>(eval: &mut Eval<C>) -> Result<(), Stop>
    ensures { IsWorked (store_taken eval.old.board.stack (front_of eval.old)) eval.old eval.new result }
{
    let xt = eval.board.stack.peek()?;
    if !eval.words.is_word(xt) {
        return Err(Stop::Thrown(Throw::BAD_HANDLE));
    }
    compile(eval, Element::Plain(PlainItem::Store(xt)))?;
    eval.board.stack.drop_top(1);
    Ok(())
}

/// `[` ( -- ): words are executed from now on (Forth 2012, 6.1.2500).
#[tactic(auto, unfolding(crate::specs::TextActs::text_acted))]
fn leave_compiling<C: CodeStore>(eval: &mut Eval<C>)
    ensures { Leaves {A = Unit {0}} (text_acted flat_calls Interprets eval.old) eval.new (Ok tt) }
{
    eval.set_compiling(false);
}

/// A word that serves while words are compiled, while they are.
#[tactic(auto, unfolding(crate::specs::TextWords::compiling_act, crate::proofs::InFull::in_full))]
fn run_open<C: CodeStore>(eval: &mut Eval<C>, word: CompilingWord) -> Result<(), Stop>
    ensures { IsSpoken (compiling_act word (front_of eval.old)) eval.old eval.new result }
{
    match word {
        CompilingWord::Semicolon => semicolon(eval),
        CompilingWord::If => append(eval, Element::Branch(true, None)),
        CompilingWord::While => append(eval, Element::Branch(true, None)),
        CompilingWord::Ahead => append(eval, Element::Branch(false, None)),
        CompilingWord::Else => append_else(eval),
        CompilingWord::Then => append(eval, Element::Resolve(None)),
        CompilingWord::Begin => append(eval, Element::Mark(None)),
        CompilingWord::Repeat => append_repeat(eval),
        CompilingWord::Until => append(eval, Element::Back(true, None)),
        CompilingWord::Again => append(eval, Element::Back(false, None)),
        CompilingWord::Do => append(eval, Element::Do(false)),
        CompilingWord::QuestionDo => append(eval, Element::Do(true)),
        CompilingWord::Loop => append(eval, Element::Loop(false)),
        CompilingWord::PlusLoop => append(eval, Element::Loop(true)),
        CompilingWord::Leave => append(eval, Element::Leave),
        CompilingWord::Case => append(eval, Element::Case),
        CompilingWord::Of => append(eval, Element::Of),
        CompilingWord::EndOf => append(eval, Element::EndOf),
        CompilingWord::EndCase => append(eval, Element::EndCase),
        CompilingWord::Recurse => recurse(eval),
        CompilingWord::Literal => take_literal(eval),
        CompilingWord::LeaveCompiling => {
            leave_compiling(eval);
            Ok(())
        }
        CompilingWord::BracketTick => Err(Stop::Thrown(Throw::COMPILE_ONLY)),
        CompilingWord::BracketChar => Err(Stop::Thrown(Throw::COMPILE_ONLY)),
        CompilingWord::ControlRoll => take_roll(eval),
        CompilingWord::CommaTo => take_store(eval),
    }
}

/// A word that serves only while words are compiled: -14 while they are executed.
#[tactic(auto, unfolding(crate::proofs::InFull::in_full))]
pub(crate) fn run_compiling<C: CodeStore>(
    eval: &mut Eval<C>,
    word: CompilingWord,
) -> Result<(), Stop>
    ensures { IsSpoken (only_compiling (front_of eval.old) (compiling_act word (front_of eval.old))) eval.old eval.new
        result }
{
    if !eval.flow.is_compiling {
        return Err(Stop::Thrown(Throw::COMPILE_ONLY));
    }
    run_open(eval, word)
}
