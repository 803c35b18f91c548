// A law has no parameters and does nothing: its contract is the law.

ghost use Rattle.of_console_laws.specs.Lines.{ListingsAreLines, NamesStay};

use of_console::{children_are_listed, properties_are_listed};

/// What is printed of a node's properties, and of its children, has a line for each, in their order, and each once.
#[tactic(auto, using(crate::proofs::Lines::listings_are_lines))]
pub fn listings_are_lines()
    ensures { ListingsAreLines }
{
    children_are_listed();
    properties_are_listed();
}

/// Each property of the first tree has a name that a property may have (IEEE 1275-1994, 3.2.2.1.1), and so has each of
/// every tree that comes of it, whatever is done with it.
#[tactic(auto, using(crate::proofs::Names::names_stay))]
pub fn names_stay()
    ensures { NamesStay }
{}
