//! What holds of all definitions, said of the calls of `Control` and of what is compiled from their answers.
//!
//! A body is tight where each Block and Cycle has one jump and is no wider than that jump needs, each Choice begins
//! with its first Arm, and each jump is inside the part that it names. The body of a definition is the tight one whose
//! items, with the targets that its nesting gives, are the items of the definition's elements, with the places of the
//! partners as targets.
ghost use Rattle.of_control.specs.Law.{CallsFollowMatching, ClosedIsRead, CompiledIsFlat, ItemsAreCounted};
ghost use Rattle.of_control.specs.Law.{ItemsAreFlat, JumpsStayInside, MatchingIsDecided, OneReading};
ghost use Rattle.of_control.specs.Law.{PlacesStayWithin};
ghost use Rattle.of_control.specs.RunningLaw.{RunsByPlaces, RunsByPoints};

/// A definition has at most one matching. The calls that its elements make answer exactly the places of the partners,
/// and `None` from the first element on with which there is no matching, or one with more than `N` openers open at
/// once.
#[tactic(auto, using(crate::proofs::LawLemmas::calls_follow_matching))]
pub fn calls_follow_matching<A, const N: usize>()
    ensures { CallsFollowMatching A N }
{}

/// A definition has a matching with never more than `N` openers open at once, or it has none.
pub fn matching_is_decided<A, const N: usize>()
    ensures { MatchingIsDecided A N }
{}

/// Where no call is made past a place, no call keeps or answers one past it: not one call, and not all calls of a
/// definition.
#[tactic(auto, using(crate::proofs::Places::places_stay_within))]
pub fn places_stay_within<A, const N: usize>()
    ensures { PlacesStayWithin A N }
{}

/// `is_closed` holds, wherever the calls are made, exactly where all is matched and never more than `N` openers were
/// open at once. Exactly there the definition has a body.
#[tactic(auto, using(crate::proofs::LawLemmas::closed_is_read))]
pub fn closed_is_read<A, const N: usize>()
    ensures { ClosedIsRead A N }
{}

/// Tight bodies with equal items are equal, so a definition has at most one body.
#[tactic(auto, using(crate::proofs::LawLemmas::one_reading_law))]
pub fn one_reading<A, const N: usize>()
    ensures { OneReading A N }
{}

/// No jump of a definition's body crosses a Counted, a Choice or an Arm, each `leave` is in a Counted, and each Arm
/// directly in a Choice.
pub fn jumps_stay_inside<A, const N: usize>()
    ensures { JumpsStayInside A N }
{}

/// The items of a definition's body, with the targets that its nesting gives, are the items of the definition's
/// elements, with the places of the partners as targets.
pub fn items_are_flat<A, const N: usize>()
    ensures { ItemsAreFlat A N }
{}

/// A definition that is compiled element by element, with the targets that are set at a resolve, a `loop`, an `endof`
/// and an `endcase`, has exactly these items.
#[tactic(auto, using(crate::proofs::CompilingLemmas::compiled_is_flat))]
pub fn compiled_is_flat<A, const N: usize>()
    ensures { CompiledIsFlat A N }
{}

/// A definition that is compiled element by element has one item for each element that leaves one, and its plain items
/// are those of its operations and of the elements that fit nowhere, in their order; all this also where an element
/// fits nowhere.
#[tactic(auto, using(crate::proofs::Counted::items_are_counted))]
pub fn items_are_counted<A, const N: usize>()
    ensures { ItemsAreCounted A N }
{}

/// Item `k` of a body is the one that its structure has there, with the numbers of the points where execution may
/// continue as targets, and after it comes item `k + 1`.
#[tactic(auto, using(crate::proofs::RunningLemmas::runs_by_places))]
pub fn runs_by_places<A>()
    ensures { RunsByPlaces A }
{}

/// In each run of a body by its structure alone, what is taken at a point is the item of that point's number.
#[tactic(auto, using(crate::proofs::RunningLemmas::runs_by_points))]
pub fn runs_by_points<A>()
    ensures { RunsByPoints A }
{}
