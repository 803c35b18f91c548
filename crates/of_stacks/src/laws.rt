// A law has no parameters and does nothing: its contract is the law.
ghost use Rattle.of_stacks.specs.Order.{FirstCounts, OrderIsWritten};
ghost use Rattle.of_stacks.specs.ReturnLaws.{EndsCut, LimitsArePassed, LoopsAreOwn, ThrowsCut};

/// Of the faults that a word finds the one counts that stands first in the order, and one counts
/// where one is found.
#[tactic(auto, using(crate::proofs::Order::first_counts))]
pub fn first_fault_counts()
    ensures { FirstCounts }
{}

/// The order of faults: a word used where it can't be comes first, then what is missing on a
/// stack, then handles, addresses, names and numbers; what finds no room comes last.
#[tactic(auto, using(crate::proofs::Order::order_is_written))]
pub fn order_is_written()
    ensures { OrderIsWritten }
{}

/// The open loops are those among the running word's own items, whatever lies beneath.
#[tactic(auto, using(crate::proofs::ReturnLemmas::loops_are_own))]
pub fn loops_are_own()
    ensures { LoopsAreOwn }
{}

/// The end of an image or text cuts the return stack at the latest source.
#[tactic(auto, using(crate::proofs::ReturnLemmas::ends_cut))]
pub fn ends_cut()
    ensures { EndsCut }
{}

/// A throw cuts the return stack at the latest handler, and the data stack keeps its lowest cells.
#[tactic(auto, using(crate::proofs::ReturnLemmas::throws_cut))]
pub fn throws_cut()
    ensures { ThrowsCut }
{}

/// A loop ends exactly where its step crosses the boundary between the limit minus one and the
/// limit (Forth 2012, 6.1.0140, 6.1.1800).
#[tactic(auto, using(crate::proofs::LimitLemmas::limits_are_passed))]
pub fn limits_are_passed()
    ensures { LimitsArePassed }
{}
