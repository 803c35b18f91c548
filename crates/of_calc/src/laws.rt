// A law has no parameters and does nothing: its contract is the law.
ghost use Rattle.of_calc.specs.Listed.{ThrowListedNumbers};

/// What the words of these tables throw has one of the numbers that words raise of themselves.
#[tactic(auto, using(crate::proofs::ListedLemmas::throw_listed_numbers))]
pub fn calculations_throw_listed()
    ensures { ThrowListedNumbers }
{}
