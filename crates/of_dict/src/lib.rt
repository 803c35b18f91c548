//! The dictionary of own words: names, flags and kinds in the order of making.
#![tactic(auto)]

mod dict;
mod fault;
mod header;
mod laws;
mod name;
mod word;

pub use dict::Dict;
pub use fault::DictFault;
pub use laws::{changes_are_found, names_are_listed_once, newest_is_found};
pub use name::{LONGEST_NAME, Name};
pub use word::{CAPACITY, Kind, OwnWord, Slot, Word};
