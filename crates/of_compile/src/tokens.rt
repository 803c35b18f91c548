//! From words and tokens to the elements that they leave in the open definition.
ghost use Rattle.std.specs.Prelude.{◌≡◌, ◌<◌, ◌^◌, map, IfSome};
ghost use Rattle.std.specs.Option.{option_map};
ghost use Rattle.of_compile.specs.Elements.{CanBeStored, element_of, own_item};
ghost use Rattle.of_compile.specs.Tokens.{backward, bare_element, branch, called, cell_element, forward};
ghost use Rattle.of_compile.specs.Tokens.{goes_back, offset_element, string_element, text_elements, token_element};

use crate::element::{Element, PlainItem};
use of_cells::Cell;
use of_fcodes::{CompilingWord, FIRST_OWN, StreamWord};
use of_stream::target_at;

/// What stands behind a token, in the form in which it is compiled.
#[derive(Clone, Copy)]
pub enum CompiledOperand {
    /// Nothing.
    Nothing,
    /// The cell behind `b(lit)`, or the execution token that the FCode names behind `b(')` or `b(to)`.
    Number(Cell),
    /// The string behind `b(")`, where it stands in the data region.
    String { address: Cell, length: Cell },
    /// An offset, which counts from its own first byte.
    Offset(i16),
}

/// What keeps the place of an element that fits nowhere; it is never run.
const MISFIT: Element = Element::Misfit(PlainItem::Literal(Cell(0)));

/// The item of a word that is called: the operation of a written word, the call of an own one.
#[inline]
pub fn called(xt: Cell) -> PlainItem
    ensures { result ≡ called xt }
{
    if xt.0 < FIRST_OWN {
        PlainItem::Operation(xt)
    } else {
        PlainItem::Call(xt)
    }
}

/// What a token of the stream leaves in the open definition, if it is one that is compiled: the token's word, what
/// stands behind it, and its position in the image (IEEE 1275-1994, annex A).
///
/// A branch with a negative offset goes back, another one forward. A `b(loop)` or `b(+loop)` whose offset isn't
/// negative fits nowhere, and so does another token of the families of `b(do)` and `b(case)` whose offset is.
pub fn token_element(word: StreamWord, operand: CompiledOperand, position: usize) -> Option<Element>
    requires { position < 2 ^ 63 }
    ensures element { option_map element_of result ≡ token_element word operand position }
    ensures storable { IfSome result (λ e. CanBeStored (own_item (element_of e))) }
{
    match operand {
        CompiledOperand::Nothing => bare_element(word, position),
        CompiledOperand::Number(x) => cell_element(word, x),
        CompiledOperand::String { address, length } => string_element(word, address, length),
        CompiledOperand::Offset(by) => offset_element(word, position, by),
    }
}

/// A token with a cell.
fn cell_element(word: StreamWord, x: Cell) -> Option<Element>
    ensures element { option_map element_of result ≡ cell_element word x }
    ensures storable { IfSome result (λ e. CanBeStored (own_item (element_of e))) }
{
    match word {
        StreamWord::Literal | StreamWord::Tick => Some(Element::Plain(PlainItem::Literal(x))),
        StreamWord::To => Some(Element::Plain(PlainItem::Store(x))),
        _ => None,
    }
}

/// A token with a string.
fn string_element(word: StreamWord, address: Cell, length: Cell) -> Option<Element>
    ensures element { option_map element_of result ≡ string_element word address length }
    ensures storable { IfSome result (λ e. CanBeStored (own_item (element_of e))) }
{
    match word {
        StreamWord::String => Some(Element::Plain(PlainItem::String { address, length })),
        _ => None,
    }
}

/// A token with nothing behind it.
fn bare_element(word: StreamWord, position: usize) -> Option<Element>
    ensures element { option_map element_of result ≡ bare_element word position }
    ensures storable { IfSome result (λ e. CanBeStored (own_item (element_of e))) }
{
    match word {
        StreamWord::Mark => Some(Element::Mark(Some(position))),
        StreamWord::Resolve => Some(Element::Resolve(Some(position))),
        StreamWord::Leave => Some(Element::Leave),
        StreamWord::Case => Some(Element::Case),
        StreamWord::EndCase => Some(Element::EndCase),
        _ => None,
    }
}

/// A token with an offset.
fn offset_element(word: StreamWord, position: usize, by: i16) -> Option<Element>
    requires { position < 2 ^ 63 }
    ensures element { option_map element_of result ≡ offset_element word position by }
    ensures storable { IfSome result (λ e. CanBeStored (own_item (element_of e))) }
{
    match word {
        StreamWord::Branch => Some(branch(false, position, by)),
        StreamWord::BranchIfZero => Some(branch(true, position, by)),
        StreamWord::Do => Some(forward(by, Element::Do(false))),
        StreamWord::QuestionDo => Some(forward(by, Element::Do(true))),
        StreamWord::Loop => Some(backward(by, Element::Loop(false))),
        StreamWord::PlusLoop => Some(backward(by, Element::Loop(true))),
        StreamWord::Of => Some(forward(by, Element::Of)),
        StreamWord::EndOf => Some(forward(by, Element::EndOf)),
        _ => None,
    }
}

/// Whether an offset goes back.
fn goes_back(by: i16) -> bool
    ensures { result ≡ goes_back by }
{
    by < 0
}

/// A branch, by its offset.
fn branch(on_zero: bool, position: usize, by: i16) -> Element
    requires { position < 2 ^ 63 }
    ensures element { element_of result ≡ branch on_zero position by }
    ensures storable { CanBeStored (own_item (element_of result)) }
{
    let target = target_at(position, by);
    if goes_back(by) {
        Element::Back(on_zero, Some(target.unwrap_or(0)))
    } else {
        Element::Branch(on_zero, target)
    }
}

/// An element whose offset must go back.
fn backward(by: i16, element: Element) -> Element
    requires { CanBeStored (own_item (element_of element)) }
    ensures element { element_of result ≡ backward by (element_of element) }
    ensures storable { CanBeStored (own_item (element_of result)) }
{
    if goes_back(by) { element } else { MISFIT }
}

/// An element whose offset must go forward.
fn forward(by: i16, element: Element) -> Element
    requires { CanBeStored (own_item (element_of element)) }
    ensures element { element_of result ≡ forward by (element_of element) }
    ensures storable { CanBeStored (own_item (element_of result)) }
{
    if goes_back(by) { MISFIT } else { element }
}

/// What a control word of a text leaves in the open definition, in order; nothing for any other word (Forth 2012, 6.1
/// and 6.2).
pub fn text_elements(word: CompilingWord) -> &'static [Element]
    ensures { map element_of result.now ≡ text_elements word }
{
    match word {
        CompilingWord::If | CompilingWord::While => &[Element::Branch(true, None)],
        CompilingWord::Ahead => &[Element::Branch(false, None)],
        CompilingWord::Else => &[
            Element::Branch(false, None),
            Element::Roll(1),
            Element::Resolve(None),
        ],
        CompilingWord::Then => &[Element::Resolve(None)],
        CompilingWord::Begin => &[Element::Mark(None)],
        CompilingWord::Repeat => &[Element::Back(false, None), Element::Resolve(None)],
        CompilingWord::Until => &[Element::Back(true, None)],
        CompilingWord::Again => &[Element::Back(false, None)],
        CompilingWord::Do => &[Element::Do(false)],
        CompilingWord::QuestionDo => &[Element::Do(true)],
        CompilingWord::Loop => &[Element::Loop(false)],
        CompilingWord::PlusLoop => &[Element::Loop(true)],
        CompilingWord::Leave => &[Element::Leave],
        CompilingWord::Case => &[Element::Case],
        CompilingWord::Of => &[Element::Of],
        CompilingWord::EndOf => &[Element::EndOf],
        CompilingWord::EndCase => &[Element::EndCase],
        _ => &[],
    }
}
