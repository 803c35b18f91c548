// A law has no parameters and does nothing: its contract is the law.
ghost use Rattle.of_prims.specs.Listed.{ThrowListedNumbers};

use of_calc::calculations_throw_listed;

/// What these words throw has one of the numbers that words raise of themselves, and so has what a
/// fault of the data space throws.
#[tactic(auto, using(crate::proofs::ListedLemmas::throw_listed_numbers))]
pub fn prims_throw_listed()
    ensures { ThrowListedNumbers }
{
    calculations_throw_listed();
}
