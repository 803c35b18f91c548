//! What the words of a text do, with what they parse.
ghost use Rattle.std.specs.Prelude.{◌≡◌, Ok, Err};
ghost use Rattle.of_flow.specs.Returns.{pushed};
ghost use Rattle.of_state.specs.State.{Leaves, flat_calls};
ghost use Rattle.of_eval.specs.Acts.{front_of, leaving};
ghost use Rattle.of_eval.specs.Doing.{IsRun, IsWorked, worked};
ghost use Rattle.of_interpret.specs.TextActs.{Acts, IsHeard, IsSpoken, text_acted};
ghost use Rattle.of_interpret.specs.TextWords.{bracketed, call_act, found_act, literal_act, only_interpreting};
ghost use Rattle.of_interpret.specs.TextWords.{node_at, selecting, stored_act, text_act, to_act, with_found};
ghost use Rattle.of_flow.specs.Texts.{latest_text};
ghost use Rattle.of_text.specs.Reading.{bytes_in};

use crate::compiling::run_compiling;
use crate::nodes::node_at;
use crate::seeing::see;
use crate::strings::{print_string, run_quoted, run_string};
use of_asking::Halt;
use of_cells::Cell;
use of_code::CodeStore;
use of_compile::{Element, PlainItem, called};
use of_eval::{compile, define_named, execute, keep};
use of_stacks::{Stop, Throw};
use of_state::Eval;
use of_text::{Part, TextWord};

/// Appends a call of a word to the open definition; -263 where the number is no word.
#[tactic(auto, unfolding(of_eval::specs::Doing::worked))]
fn call<C: CodeStore>(eval: &mut Eval<C>, xt: Cell) -> Result<(), Stop>
    ensures { IsWorked (call_act xt (front_of eval.old)) eval.old eval.new result }
{
    if !eval.words.is_word(xt) {
        return Err(Stop::Thrown(Throw::BAD_HANDLE));
    }
    compile(eval, Element::Plain(called(xt)))
}

/// A word that was found: it is called by the open definition while words are compiled, unless it is immediate, and
/// else executed.
fn run_found<C: CodeStore>(eval: &mut Eval<C>, xt: Cell, immediate: bool) -> Result<(), Halt>
    ensures { IsRun (found_act xt immediate (front_of eval.old)) eval.old eval.new result }
{
    if eval.flow.is_compiling && !immediate {
        return Ok(call(eval, xt)?);
    }
    execute(eval, xt)
}

/// A cell: it is compiled as a literal while words are compiled, and else left.
#[tactic(auto, unfolding(of_eval::specs::Doing::worked))]
fn run_literal<C: CodeStore>(eval: &mut Eval<C>, x: Cell) -> Result<(), Stop>
    ensures { IsWorked (literal_act x (front_of eval.old)) eval.old eval.new result }
{
    if eval.flow.is_compiling {
        return compile(eval, Element::Plain(PlainItem::Literal(x)));
    }
    Ok(eval.board.stack.try_push(x)?)
}

/// A number that was read, or why there is none.
#[tactic(auto, unfolding(of_eval::specs::Doing::worked))]
fn run_number<C: CodeStore>(eval: &mut Eval<C>, number: Result<Cell, Throw>) -> Result<(), Stop>
    ensures { IsWorked (with_found number (λ x. literal_act x (front_of eval.old))) eval.old eval.new result }
{
    match number {
        Ok(x) => run_literal(eval, x),
        Err(fault) => Err(Stop::Thrown(fault)),
    }
}

/// ( -- x ) leaves a cell that was found.
#[tactic(auto, unfolding(of_eval::specs::Doing::worked))]
fn push_found<C: CodeStore>(eval: &mut Eval<C>, found: Result<Cell, Throw>) -> Result<(), Throw>
    ensures { Leaves (worked flat_calls (with_found found (λ x. leaving (pushed x eval.old.board.stack))) eval.old)
        eval.new result }
{
    match found {
        Ok(x) => eval.board.stack.try_push(x),
        Err(fault) => Err(fault),
    }
}

/// `to` ( x -- ) stores into the word that its name finds; it looks for its cell before it asks what that is.
#[tactic(auto, unfolding(of_eval::specs::Doing::worked))]
fn store_found<C: CodeStore>(eval: &mut Eval<C>, found: Result<Cell, Throw>) -> Result<(), Throw>
    ensures { Leaves (worked flat_calls (stored_act found eval.old.board.stack (front_of eval.old)) eval.old)
        eval.new result }
{
    match found {
        Ok(xt) => keep(eval, xt),
        Err(fault) => {
            let _ = eval.board.stack.peek()?;
            Err(fault)
        }
    }
}

/// `to`: a store is compiled while words are compiled, and else made.
#[tactic(auto, unfolding(of_eval::specs::Doing::worked))]
fn run_to<C: CodeStore>(eval: &mut Eval<C>, found: Result<Cell, Throw>) -> Result<(), Stop>
    ensures { IsWorked (to_act found (front_of eval.old)) eval.old eval.new result }
{
    if !eval.flow.is_compiling {
        return Ok(store_found(eval, found)?);
    }
    match found {
        Ok(xt) => compile(eval, Element::Plain(PlainItem::Store(xt))),
        Err(fault) => Err(Stop::Thrown(fault)),
    }
}

/// `char` ( -- x ), which serves only while words are executed: -14 else.
#[tactic(auto, unfolding(of_eval::specs::Doing::worked))]
fn run_char<C: CodeStore>(eval: &mut Eval<C>, found: Result<Cell, Throw>) -> Result<(), Throw>
    ensures { Leaves (worked flat_calls (only_interpreting (front_of eval.old)
        (with_found found (λ x. leaving (pushed x eval.old.board.stack)))) eval.old) eval.new result }
{
    if eval.flow.is_compiling {
        return Err(Throw::COMPILE_ONLY);
    }
    push_found(eval, found)
}

/// `[']` and `[char]`: the cell that was found is compiled as a literal; -14 while words are executed.
#[tactic(auto, unfolding(crate::proofs::InFull::in_full))]
fn run_bracketed<C: CodeStore>(eval: &mut Eval<C>, found: Result<Cell, Throw>) -> Result<(), Stop>
    ensures { IsSpoken (bracketed found (front_of eval.old)) eval.old eval.new result }
{
    if !eval.flow.is_compiling {
        return Err(Stop::Thrown(Throw::COMPILE_ONLY));
    }
    match found {
        Ok(x) => compile(eval, Element::Plain(PlainItem::Literal(x))),
        Err(fault) => Err(Stop::Thrown(fault)),
    }
}

/// `dev`: the node of the path is the active package from now on.
#[tactic(auto, unfolding(crate::proofs::InFull::in_full))]
fn select<C: CodeStore>(eval: &mut Eval<C>, path: Part) -> Result<(), Throw>
    ensures { Leaves (text_acted flat_calls (selecting (node_at (bytes_in (latest_text eval.old.flow.texts) path)
        eval.old.board)) eval.old) eval.new result }
{
    let node = node_at(path.of(eval.flow.texts.latest()), &eval.board)?;
    eval.board.active.package = Some(node);
    Ok(())
}

/// Does what a word of a text does, with what it parses, or appends it. The reading stands behind it.
#[tactic(auto, unfolding(crate::specs::TextWords::text_act, crate::proofs::InFull::in_full))]
pub(crate) fn run_word<C: CodeStore>(eval: &mut Eval<C>, word: TextWord) -> Result<(), Halt>
    ensures { IsHeard (text_act word (front_of eval.old)) eval.old eval.new result }
{
    match word {
        TextWord::End => Ok(eval.end_reading()?),
        TextWord::Found { xt, immediate } => run_found(eval, xt, immediate),
        TextWord::Number(number) => Ok(run_number(eval, number)?),
        TextWord::Defining(word, name) => Ok(define_named(eval, word, name)?),
        TextWord::Tick(found) => Ok(push_found(eval, found)?),
        TextWord::To(found) => Ok(run_to(eval, found)?),
        TextWord::See(found) => Ok(see(eval, found)?),
        TextWord::Device(path) => Ok(select(eval, path)?),
        TextWord::Plain(string) => Ok(run_string(eval, string)?),
        TextWord::Quoted(at) => Ok(run_quoted(eval, at)?),
        TextWord::Printed(string) => Ok(print_string(eval, string)?),
        TextWord::Char(found) => Ok(run_char(eval, found)?),
        TextWord::BracketTick(found) => Ok(run_bracketed(eval, found)?),
        TextWord::BracketChar(found) => Ok(run_bracketed(eval, found)?),
        TextWord::Comment => Ok(()),
        TextWord::Compiling(word) => Ok(run_compiling(eval, word)?),
    }
}
