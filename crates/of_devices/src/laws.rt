// A law has no parameters and does nothing: its contract is the law.
ghost use Rattle.of_devices.specs.Laws.{BrokenAddressesFault, ClockCounts, KeysComeInOrder, MemoryHolds};

/// Device memory holds what is written. Behind a write that it takes, a read of the same width there gives the number,
/// cut to the width, and a read of addresses that were not written gives what it gave before. The first byte of a
/// number is its highest. A poke does what a write does, and a peek gives what a read gives; reads and peeks change
/// nothing.
#[tactic(auto, using(crate::proofs::HoldsLemmas::memory_holds))]
pub fn memory_holds()
    ensures { MemoryHolds }
{}

/// Every access faults one of whose addresses is broken, whatever it does, and no other.
#[tactic(auto, using(crate::proofs::BrokenLemmas::broken_addresses_fault))]
pub fn broken_addresses_fault()
    ensures { BrokenAddressesFault }
{}

/// The keys of a keyboard come in the order in which they were typed, whatever else is asked; there is a key until all
/// were asked for.
#[tactic(auto, using(crate::proofs::CountsLemmas::keys_come_in_order))]
pub fn keys_come_in_order()
    ensures { KeysComeInOrder }
{}

/// A clock counts how often it was asked, modulo 2^32: the n-th answer of a new one is n - 1.
#[tactic(auto, using(crate::proofs::CountsLemmas::clock_counts))]
pub fn clock_counts()
    ensures { ClockCounts }
{}
