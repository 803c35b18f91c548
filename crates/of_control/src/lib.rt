//! Control structures of a definition: which closer belongs to which opener, and what body they make.
#![tactic(auto)]

mod control;
mod laws;
mod opener;
mod search;

pub use control::Control;
pub use laws::{
    calls_follow_matching, closed_is_read, compiled_is_flat, items_are_counted, items_are_flat,
    jumps_stay_inside, matching_is_decided, one_reading, places_stay_within, runs_by_places,
    runs_by_points,
};
pub use opener::{Kind, Opener};
