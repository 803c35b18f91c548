// A law has no parameters and does nothing: its contract is the law.

ghost use Rattle.of_source_runs.specs.Runs.{TokenizedMeans};

use of_means::{sources_behave, sources_print_alike};

/// The run of a tokenized source does what the source means, and only that: the image, loaded for `/slot` on a new
/// machine, ends, throws and waits for an answer where the source does, in the same state, and what either has printed
/// begins what the other prints; and the machine of the run after so many steps has the state that so many steps lead
/// to.
pub fn tokenized_means()
    ensures { TokenizedMeans }
{
    sources_behave();
    sources_print_alike();
}
