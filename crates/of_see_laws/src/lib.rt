//! What holds of what `see` prints.
#![tactic(auto)]

mod laws;

pub use laws::{
    printed_definitions_have_their_bodies, printed_elements_have_the_body, text_scans_back,
};
