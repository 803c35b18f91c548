// A law has no parameters and does nothing: its contract is the law.

ghost use Rattle.of_meaning.specs.Laws.{BodyOfNest};

use of_source::{accepted_is_plain, items_give_nest, parsed_is_nested};

/// The elements that the tokens of a definition leave have the body of its nest, in which each word closes what it
/// closes there by the nest alone; and no body exactly where more than 32 structures were open at once. So it is with
/// each definition of a source that is accepted.
#[tactic(auto, using(crate::proofs::Bodies::body_of_nest))]
pub fn body_of_nest()
    ensures { BodyOfNest }
{
    parsed_is_nested();
    accepted_is_plain();
    items_give_nest();
}
