// Whether a definition is a nest of control structures.

ghost use Rattle.std.specs.Prelude.{◌≡◌, ◌<◌, ◌^◌, ◌||◌, length, nat_eq};
ghost use Rattle.std.specs.Option.{option_map};
ghost use Rattle.of_stream.specs.Sizes.{is_end};
ghost use Rattle.of_control.specs.Calls.{after_call};
ghost use Rattle.of_compile.specs.Elements.{element_of};
ghost use Rattle.of_check.specs.Tokens.{tokens_from};
ghost use Rattle.of_check.specs.Structures.{control_element, is_unnested};
ghost use Rattle.of_check.specs.Table.{called, standing};

use of_compile::{CompiledOperand, Element, PlainItem, token_element};
use of_control::{Control, closed_is_read};
use of_fcodes::{Word, word_of};
use of_stream::{Argument, OffsetSize, Stream, Token};

/// What a token leaves in the open definition, where it is of control.
fn control_element(token: Token<'_>, position: usize) -> Option<Element>
    requires { position < 2 ^ 63 }
    ensures { option_map element_of result
        ≡ control_element (standing position token.entry) }
{
    match (token.argument, word_of(token.code)) {
        (Argument::Nothing, Some(Word::Stream(word))) => {
            token_element(word, CompiledOperand::Nothing, position)
        }
        (Argument::Offset(by), Some(Word::Stream(word))) => {
            token_element(word, CompiledOperand::Offset(by), position)
        }
        _ => None,
    }
}

/// Makes the call of an element. All are made at the place 0, since no place matters to which closes which.
fn call(control: &mut Control<32>, element: Element)
    ensures { control.new ≡ after_call 32 0 (element_of element) control.old }
{
    match element {
        Element::Plain(_) => {}
        Element::Branch(_, target) => control.forward(0, target),
        Element::Resolve(Some(position)) => {
            control.resolve(position);
        }
        Element::Resolve(None) => {
            control.resolve_latest();
        }
        Element::Mark(position) => control.mark(0, position),
        Element::Back(_, Some(target)) => {
            control.backward(target);
        }
        Element::Back(_, None) => {
            control.backward_latest();
        }
        Element::Roll(n) => control.roll(n),
        Element::Do(_) => control.open_do(0),
        Element::Loop(_) => {
            control.close_do();
        }
        Element::Leave => control.leave(),
        Element::Case => control.open_case(0),
        Element::Of => control.of(0),
        Element::EndOf => {
            control.endof();
        }
        Element::EndCase => {
            control.close_case();
        }
        Element::Misfit(_) => control.misfit(),
    }
}

/// Makes the call of a token.
fn note(control: &mut Control<32>, token: Token<'_>, position: usize)
    requires { position < 2 ^ 63 }
    ensures { control.new ≡ called (control_element (standing position token.entry)) control.old }
{
    if let Some(element) = control_element(token, position) {
        call(control, element);
    }
}

/// Whether a token ends a definition.
fn is_semicolon(token: Token<'_>) -> bool
    ensures { result ≡ nat_eq token.entry.code.0 0x0c2 }
{
    token.code.0 == 0x0c2
}

/// Whether a definition that is open before a token has no end behind it.
fn breaks_off(token: Token<'_>) -> bool
    ensures { result ≡ (nat_eq token.entry.code.0 0x0b7 || is_end token.entry.code.0) }
{
    token.code.0 == 0x0b7 || token.is_end()
}

/// Whether the definition whose first token stands at a position has a `b(;)` and is no nest.
pub fn is_unnested(stream: Stream<'_>, position: usize, size: OffsetSize) -> bool
    ensures { result ≡ is_unnested
        (tokens_from stream.entry.image.now (length stream.entry.image.now) position size).tokens }
{
    let mut control = Control::new();
    let mut position = position;
    let mut size = size;
    closed_is_read::<PlainItem, 32>();
    for _ in 0..stream.image.len() {
        let (token, next) = match stream.token_at(position, size) {
            Ok(read) => read,
            Err(_) => return false,
        };
        if is_semicolon(token) {
            return !control.is_closed();
        }
        if breaks_off(token) {
            return false;
        }
        note(&mut control, token, position);
        position = next;
        size = token.size_behind(size);
    }
    false
}
