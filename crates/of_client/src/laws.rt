// A law has no parameters and does nothing: its contract is the law.
ghost use Rattle.of_client.specs.Laws.{NamesAreMet, ValuesAreGot};

use of_memory::ranges_are_placed;
use of_nodes::{properties_are_found, stored_stays};

/// A value that was set is got: its whole length, and its first bytes, as many as there is room for.
#[tactic(auto, using(crate::proofs::Values::values_are_got))]
pub fn values_are_got()
    ensures { ValuesAreGot }
{
    ranges_are_placed();
    properties_are_found();
}

/// The names of a node's properties are met in their order, each once: the first behind the empty name, then each
/// behind the one before, and none behind the last.
#[tactic(auto, using(crate::proofs::Names::names_are_met))]
pub fn names_are_met()
    ensures { NamesAreMet }
{
    properties_are_found();
    stored_stays();
}
