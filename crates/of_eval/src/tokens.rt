//! The tokens of an image: what they do, or leave in the open definition.
ghost use Rattle.std.specs.Prelude.{◌≡◌, ◌<◌, ◌≤◌, ◌+◌, ◌^◌};
ghost use Rattle.of_fcodes.specs.Tokens.{entry_in};
ghost use Rattle.of_stream.specs.Targets.{landing};
ghost use Rattle.of_control.specs.Element.{Plain};
ghost use Rattle.of_compile.specs.Elements.{CanBeStored, element_of, own_item};
ghost use Rattle.of_compile.specs.declared.element.PlainItem.TheVariants as plain;
ghost use Rattle.of_eval.specs.Acts.{Copies, Does, front_of, leaving};
ghost use Rattle.of_eval.specs.Doing.{IsDone, IsTaken, acted, worked};
ghost use Rattle.of_eval.specs.Executing.{execution};
ghost use Rattle.of_flow.specs.Returns.{pushed};
ghost use Rattle.of_flow.specs.Reading.{IsShort};
ghost use Rattle.of_state.specs.State.{Leaves, flat_calls};
ghost use Rattle.of_eval.specs.Tokens.{appending, calling, compiling_act, control_element, control_token, named};
ghost use Rattle.of_eval.specs.Tokens.{plain_act, storing, string_address, token_act};

use crate::defining_tokens::{compile, define, leave, semicolon, turn_at};
use crate::executing::{execute, keep, push_string};
use of_asking::Halt;
use of_cells::Cell;
use of_code::{CAPACITY, CodeStore};
use of_compile::{CompiledOperand, Element, PlainItem, TokenMaker, called, token_element};
use of_fcodes::{FCode, StreamWord};
use of_flow::{ControlWord, Token};
use of_prims::throw_of;
use of_stacks::{LoopExit, Stop, Throw};
use of_state::Eval;
use of_stream::{HEADER_LENGTH, target_at};

/// Where a token stands.
#[derive(Clone, Copy)]
pub struct Spot {
    /// Its position in the image.
    pub position: usize,
    /// The position behind it.
    pub behind: usize,
    /// Where the image begins in the data space.
    pub begin: Cell,
    /// How many bytes the image has.
    pub size: usize,
}

impl Spot {
    /// The position to which an offset leads, if that is behind the header and in the image.
    #[inline]
    fn landing(self, by: i16) -> Option<usize>
        requires { self.position < 2 ^ 63 }
        ensures { result ≡ landing self.size self.position by }
    {
        let target = target_at(self.position, by)?;
        if target < HEADER_LENGTH || target >= self.size {
            return None;
        }
        Some(target)
    }

    /// The address of the string of so many bytes that ends where the token does.
    #[inline]
    fn string_address(self, length: usize) -> Cell
        requires behind { self.behind ≤ self.size }
        requires fits { self.begin.0 + self.size < 2 ^ 32 }
        ensures { result.0 ≡ string_address self length }
    {
        Cell(self.begin.0 + self.behind.saturating_sub(length) as u32)
    }
}

/// The element that a word of control leaves in the open definition.
fn control_element(word: ControlWord, position: usize, by: i16) -> Element
    requires { position < 2 ^ 63 }
    ensures element { element_of result ≡ control_element word position by }
    ensures storable { CanBeStored (own_item (element_of result)) }
{
    let stream = match word {
        ControlWord::Branch => StreamWord::Branch,
        ControlWord::BranchIfZero => StreamWord::BranchIfZero,
        ControlWord::Do => StreamWord::Do,
        ControlWord::QuestionDo => StreamWord::QuestionDo,
        ControlWord::Loop => StreamWord::Loop,
        ControlWord::PlusLoop => StreamWord::PlusLoop,
        ControlWord::Of => StreamWord::Of,
        ControlWord::EndOf => StreamWord::EndOf,
        ControlWord::EndCase => return Element::EndCase,
    };
    match token_element(stream, CompiledOperand::Offset(by), position) {
        Some(element) => element,
        None => Element::EndCase,
    }
}

// ---- what tokens do that aren't compiled

/// A word of control with its offset.
fn control<C: CodeStore>(
    eval: &mut Eval<C>,
    word: ControlWord,
    by: i16,
    here: Spot,
) -> Result<(), Throw>
    requires position { here.position < 2 ^ 63 }
    ensures { Leaves (acted flat_calls (control_token word by here (front_of eval.old)) eval.old)
        eval.new result }
{
    let exit = LoopExit::Position(target_at(here.position, by).unwrap_or(0));
    turn_at(eval, word, here.landing(by), exit)
}

/// `b(')` ( -- xt )
#[tactic(auto, unfolding(crate::specs::Doing::worked))]
fn tick<C: CodeStore>(eval: &mut Eval<C>, code: FCode) -> Result<(), Throw>
    ensures { Leaves (worked flat_calls (named (entry_in eval.old.words.table code.0)
        (λ xt. leaving (pushed (record { 0 = xt }) eval.old.board.stack))) eval.old) eval.new result }
{
    match eval.words.table().get(code) {
        Some(entry) => eval.board.stack.try_push(Cell(entry.xt)),
        None => Err(Throw::NOT_ASSIGNED),
    }
}

/// `b(to)` ( x -- ) looks for its cell before it asks what its FCode names.
#[tactic(auto, unfolding(crate::specs::Doing::worked))]
fn store<C: CodeStore>(eval: &mut Eval<C>, code: FCode) -> Result<(), Throw>
    ensures { Leaves (worked flat_calls (storing (entry_in eval.old.words.table code.0) eval.old.board.stack
        (front_of eval.old)) eval.old) eval.new result }
{
    match eval.words.table().get(code) {
        Some(entry) => keep(eval, Cell(entry.xt)),
        None => {
            let _ = eval.board.stack.peek()?;
            Err(Throw::NOT_ASSIGNED)
        }
    }
}

/// An FCode that names a word: the word is executed.
#[inline(always)]
#[tactic(auto, unfolding(crate::specs::Doing::acted, crate::specs::Doing::worked))]
fn run_named<C: CodeStore>(eval: &mut Eval<C>, code: FCode) -> Result<(), Halt>
    ensures { IsTaken (Does (named (entry_in eval.old.words.table code.0)
        (λ xt. execution xt (front_of eval.old)))) eval.old eval.new result }
{
    let Some(entry) = eval.words.table().get(code) else {
        return Err(Halt::Thrown(Throw::NOT_ASSIGNED));
    };
    execute(eval, Cell(entry.xt))
}

/// Does what a token does that isn't compiled.
#[tactic(auto, unfolding(crate::specs::Tokens::token_act, crate::specs::Doing::acted, crate::specs::Doing::worked))]
fn run_token<C: CodeStore>(eval: &mut Eval<C>, token: Token, here: Spot) -> Result<(), Halt>
    requires position { here.position < 2 ^ 63 }
    requires behind { here.behind ≤ here.size }
    requires fits { here.begin.0 + here.size < 2 ^ 32 }
    requires short { IsShort token }
    ensures { IsTaken (token_act token here (front_of eval.old)) eval.old eval.new result }
{
    match token {
        Token::Literal(x) => Ok(eval.board.stack.try_push(x)?),
        Token::Tick(code) => Ok(tick(eval, code)?),
        Token::To(code) => Ok(store(eval, code)?),
        Token::String(length) => {
            Ok(push_string(eval, here.string_address(length), Cell(length as u32))?)
        }
        Token::Control(word, by) => Ok(control(eval, word, by, here)?),
        Token::Leave => Ok(leave(eval, here.size)?),
        Token::EndCase => { Ok(turn_at(eval, ControlWord::EndCase, None, LoopExit::Position(0))?) }
        Token::Case | Token::Mark | Token::Resolve | Token::Offset16 => Ok(()),
        Token::NewToken(code) => {
            Ok(
                eval.words
                    .announce(TokenMaker::New, code, &eval.board.memory)?,
            )
        }
        Token::Define(word) => Ok(define(eval, word)?),
        Token::Semicolon => Ok(semicolon(eval)?),
        Token::End => Ok(eval.end_reading()?),
        Token::Word(code) => run_named(eval, code),
        Token::Stray => Err(Halt::Thrown(Throw::NOT_ASSIGNED)),
    }
}

// ---- what tokens leave in the open definition

/// `b(')`: the execution token of the word that the FCode names.
#[tactic(auto, unfolding(crate::specs::Doing::acted, crate::specs::Doing::worked))]
fn compile_tick<C: CodeStore>(eval: &mut Eval<C>, code: FCode) -> Result<(), Stop>
    ensures { IsDone (Does (named (entry_in eval.old.words.table code.0) (λ xt. appending
        (Plain (plain.Literal (record { 0 = xt }))) (front_of eval.old)))) eval.old eval.new result }
{
    match eval.words.table().get(code) {
        Some(entry) => compile(eval, Element::Plain(PlainItem::Literal(Cell(entry.xt)))),
        None => Err(Stop::Thrown(Throw::NOT_ASSIGNED)),
    }
}

/// `b(to)`: a store into the word that the FCode names.
#[tactic(auto, unfolding(crate::specs::Doing::acted, crate::specs::Doing::worked))]
fn compile_store<C: CodeStore>(eval: &mut Eval<C>, code: FCode) -> Result<(), Stop>
    ensures { IsDone (Does (named (entry_in eval.old.words.table code.0) (λ xt. appending
        (Plain (plain.Store (record { 0 = xt }))) (front_of eval.old)))) eval.old eval.new result }
{
    match eval.words.table().get(code) {
        Some(entry) => compile(eval, Element::Plain(PlainItem::Store(Cell(entry.xt)))),
        None => Err(Stop::Thrown(Throw::NOT_ASSIGNED)),
    }
}

/// An FCode that names a word: an immediate word is executed, a call of another is appended.
#[tactic(auto, unfolding(crate::specs::Doing::acted, crate::specs::Doing::worked))]
fn call_named<C: CodeStore>(eval: &mut Eval<C>, code: FCode) -> Result<(), Halt>
    ensures { IsTaken (Does (calling (entry_in eval.old.words.table code.0) (front_of eval.old)))
        eval.old eval.new result }
{
    let Some(entry) = eval.words.table().get(code) else {
        return Err(Halt::Thrown(Throw::NOT_ASSIGNED));
    };
    let xt = Cell(entry.xt);
    if entry.immediate {
        return execute(eval, xt);
    }
    if !eval.words.is_word(xt) {
        return Err(Halt::Thrown(Throw::BAD_HANDLE));
    }
    Ok(compile(eval, Element::Plain(called(xt)))?)
}

/// Copies a string that stands at an address to `here`, and appends its element.
#[tactic(auto, using(crate::proofs::Strings::string_full, crate::proofs::Strings::string_faulty))]
fn compile_string<C: CodeStore>(eval: &mut Eval<C>, from: Cell, length: Cell) -> Result<(), Stop>
    ensures { IsDone (Copies from.0 length.0) eval.old eval.new result }
{
    let address = eval.board.memory.here();
    if eval.coding.code().end().cell as usize + 3 > CAPACITY {
        return Err(Stop::Thrown(Throw::DICTIONARY_OVERFLOW));
    }
    eval.coding.reserve(1)?;
    if let Err(fault) = eval.board.memory.append_copy(from, length, &[]) {
        return Err(Stop::Thrown(throw_of(fault)));
    }
    let _ = eval.board.memory.allot_zeros(Cell::ZERO);
    let _ = eval
        .coding
        .compile(Element::Plain(PlainItem::String { address, length }));
    Ok(())
}

/// Leaves in the open definition what a token leaves there; one that isn't appended acts.
#[tactic(auto, unfolding(crate::specs::Tokens::compiling_act, crate::specs::Doing::acted))]
fn compile_token<C: CodeStore>(eval: &mut Eval<C>, token: Token, here: Spot) -> Result<(), Halt>
    requires position { here.position < 2 ^ 63 }
    requires behind { here.behind ≤ here.size }
    requires fits { here.begin.0 + here.size < 2 ^ 32 }
    requires short { IsShort token }
    ensures { IsTaken (compiling_act token here (front_of eval.old)) eval.old eval.new result }
{
    match token {
        Token::Literal(x) => Ok(compile(eval, Element::Plain(PlainItem::Literal(x)))?),
        Token::Tick(code) => Ok(compile_tick(eval, code)?),
        Token::To(code) => Ok(compile_store(eval, code)?),
        Token::String(length) => {
            Ok(compile_string(eval, here.string_address(length), Cell(length as u32))?)
        }
        Token::Control(word, by) => { Ok(compile(eval, control_element(word, here.position, by))?) }
        Token::Leave => Ok(compile(eval, Element::Leave)?),
        Token::Case => Ok(compile(eval, Element::Case)?),
        Token::EndCase => Ok(compile(eval, Element::EndCase)?),
        Token::Mark => Ok(compile(eval, Element::Mark(Some(here.position)))?),
        Token::Resolve => Ok(compile(eval, Element::Resolve(Some(here.position)))?),
        Token::Word(code) => call_named(eval, code),
        Token::Offset16 => run_token(eval, Token::Offset16, here),
        Token::NewToken(code) => run_token(eval, Token::NewToken(code), here),
        Token::Define(word) => run_token(eval, Token::Define(word), here),
        Token::Semicolon => run_token(eval, Token::Semicolon, here),
        Token::End => run_token(eval, Token::End, here),
        Token::Stray => run_token(eval, Token::Stray, here),
    }
}

/// Does what a token does, or appends it where words are compiled.
#[inline(always)]
pub(crate) fn plain_token<C: CodeStore>(
    eval: &mut Eval<C>,
    token: Token,
    here: Spot,
) -> Result<(), Halt>
    requires position { here.position < 2 ^ 63 }
    requires behind { here.behind ≤ here.size }
    requires fits { here.begin.0 + here.size < 2 ^ 32 }
    requires short { IsShort token }
    ensures { IsTaken (plain_act token here (front_of eval.old)) eval.old eval.new result }
{
    if eval.flow.is_compiling {
        compile_token(eval, token, here)
    } else {
        run_token(eval, token, here)
    }
}
