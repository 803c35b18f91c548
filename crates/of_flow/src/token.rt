//! Tokens of an image, each with its own operand.
ghost use Rattle.std.specs.Prelude.{◌≡◌};
ghost use Rattle.of_stream.specs.Decoding.{IsShort as IsShortArgument, argument_shown, token_shown};
ghost use Rattle.of_flow.specs.Reading.{AreShort, IsShort, typed_shown};
ghost use Rattle.of_flow.specs.Tokens.{Plain, by_nothing, by_offset, typed_of, typed_word};

use crate::control::ControlWord;
use of_cells::Cell;
use of_compile::DefiningWord;
use of_fcodes::{FCode, StreamWord, Word, word_of};
use of_stream::{Argument, Token as ReadToken};

/// A token of an image that carries no name, with its operand (IEEE 1275-1994, 5.2.2 and annex A).
#[derive(Clone, Copy)]
pub enum Token {
    /// `b(lit)` with its cell.
    Literal(Cell),
    /// `b(')` with the FCode of a word.
    Tick(FCode),
    /// `b(to)` with the FCode of a word.
    To(FCode),
    /// `b(")` with a string of so many bytes.
    String(usize),
    /// A word of control with its offset.
    Control(ControlWord, i16),
    /// `b(leave)`
    Leave,
    /// `b(case)`
    Case,
    /// `b(endcase)`
    EndCase,
    /// `b(<mark)`
    Mark,
    /// `b(>resolve)`
    Resolve,
    /// `offset16`
    Offset16,
    /// `new-token` with the FCode of the next word.
    NewToken(FCode),
    /// `b(:)` to `b(field)`
    Define(DefiningWord),
    /// `b(;)`
    Semicolon,
    /// `end0` and `end1`
    End,
    /// Any other FCode: that of a word.
    Word(FCode),
    /// An operand that isn't its word's, which no image has.
    Stray,
}

/// A token of an image.
#[derive(Clone, Copy)]
pub enum Typed<'a> {
    /// One that carries no name.
    Plain(Token),
    /// `named-token` with the name and the FCode of the next word.
    NamedToken(&'a [u8], FCode),
    /// `external-token` with the name and the FCode of the next word.
    ExternalToken(&'a [u8], FCode),
}

/// A token behind which nothing stands.
#[inline(always)]
fn by_nothing<'a>(token: Token, argument: Argument<'a>) -> Typed<'a>
    ensures token { typed_shown result ≡ Plain (by_nothing token (argument_shown argument.entry)) }
    ensures short { IsShort token → AreShort result }
{
    match argument {
        Argument::Nothing => Typed::Plain(token),
        Argument::Literal(_)
        | Argument::String(_)
        | Argument::FCode(_)
        | Argument::Named(_, _)
        | Argument::Offset(_) => Typed::Plain(Token::Stray),
    }
}

/// A word of control with its offset.
#[inline(always)]
fn by_offset<'a>(word: ControlWord, argument: Argument<'a>) -> Typed<'a>
    ensures token { typed_shown result ≡ Plain (by_offset word (argument_shown argument.entry)) }
    ensures short { AreShort result }
{
    match argument {
        Argument::Offset(by) => Typed::Plain(Token::Control(word, by)),
        Argument::Nothing
        | Argument::Literal(_)
        | Argument::String(_)
        | Argument::FCode(_)
        | Argument::Named(_, _) => Typed::Plain(Token::Stray),
    }
}

/// A word of the stream, an arm a word.
#[inline(always)]
#[tactic(auto, unfolding(crate::specs::Tokens::typed_word))]
fn typed_word<'a>(word: StreamWord, argument: Argument<'a>) -> Typed<'a>
    ensures token { typed_shown result ≡ typed_word word (argument_shown argument.entry) }
    ensures short { IsShortArgument (argument_shown argument.entry) → AreShort result }
{
    match word {
        StreamWord::End0 | StreamWord::End1 => by_nothing(Token::End, argument),
        StreamWord::Literal => match argument {
            Argument::Literal(x) => Typed::Plain(Token::Literal(x)),
            _ => Typed::Plain(Token::Stray),
        },
        StreamWord::Tick => match argument {
            Argument::FCode(code) => Typed::Plain(Token::Tick(code)),
            _ => Typed::Plain(Token::Stray),
        },
        StreamWord::To => match argument {
            Argument::FCode(code) => Typed::Plain(Token::To(code)),
            _ => Typed::Plain(Token::Stray),
        },
        StreamWord::String => match argument {
            Argument::String(text) => Typed::Plain(Token::String(text.len())),
            _ => Typed::Plain(Token::Stray),
        },
        StreamWord::Branch => by_offset(ControlWord::Branch, argument),
        StreamWord::BranchIfZero => by_offset(ControlWord::BranchIfZero, argument),
        StreamWord::Do => by_offset(ControlWord::Do, argument),
        StreamWord::QuestionDo => by_offset(ControlWord::QuestionDo, argument),
        StreamWord::Loop => by_offset(ControlWord::Loop, argument),
        StreamWord::PlusLoop => by_offset(ControlWord::PlusLoop, argument),
        StreamWord::Of => by_offset(ControlWord::Of, argument),
        StreamWord::EndOf => by_offset(ControlWord::EndOf, argument),
        StreamWord::Leave => by_nothing(Token::Leave, argument),
        StreamWord::Case => by_nothing(Token::Case, argument),
        StreamWord::EndCase => by_nothing(Token::EndCase, argument),
        StreamWord::Mark => by_nothing(Token::Mark, argument),
        StreamWord::Resolve => by_nothing(Token::Resolve, argument),
        StreamWord::Offset16 => by_nothing(Token::Offset16, argument),
        StreamWord::NewToken => match argument {
            Argument::FCode(code) => Typed::Plain(Token::NewToken(code)),
            _ => Typed::Plain(Token::Stray),
        },
        StreamWord::Colon => by_nothing(Token::Define(DefiningWord::Colon), argument),
        StreamWord::Value => by_nothing(Token::Define(DefiningWord::Value), argument),
        StreamWord::Constant => by_nothing(Token::Define(DefiningWord::Constant), argument),
        StreamWord::Variable => by_nothing(Token::Define(DefiningWord::Variable), argument),
        StreamWord::Create => by_nothing(Token::Define(DefiningWord::Create), argument),
        StreamWord::Defer => by_nothing(Token::Define(DefiningWord::Defer), argument),
        StreamWord::Buffer => by_nothing(Token::Define(DefiningWord::Buffer), argument),
        StreamWord::Field => by_nothing(Token::Define(DefiningWord::Field), argument),
        StreamWord::Semicolon => by_nothing(Token::Semicolon, argument),
        StreamWord::NamedToken => match argument {
            Argument::Named(name, code) => Typed::NamedToken(name, code),
            _ => Typed::Plain(Token::Stray),
        },
        StreamWord::ExternalToken => match argument {
            Argument::Named(name, code) => Typed::ExternalToken(name, code),
            _ => Typed::Plain(Token::Stray),
        },
    }
}

/// What a token is that was read.
#[inline(always)]
pub fn typed_of(token: ReadToken<'_>) -> Typed<'_>
    ensures token { typed_shown result ≡ typed_of (token_shown token.entry) }
    ensures short { IsShortArgument (argument_shown token.entry.argument) → AreShort result }
{
    match word_of(token.code) {
        Some(Word::Stream(word)) => typed_word(word, token.argument),
        _ => by_nothing(Token::Word(token.code), token.argument),
    }
}
