//! Compiled code: definitions as items in code cells.
#![tactic(auto)]

mod fault;
mod item;
mod laws;
mod list_code;
mod numbering;
mod store;

pub use fault::CodeFault;
pub use item::{Item, Place};
pub use laws::{
    abandoned_items_are_forgotten, appended_items_are_found, finished_words_are_bound,
    targets_change_alone,
};
pub use list_code::ListCode;
pub use numbering::{ItemPlace, item_count, item_place};
pub use store::{CAPACITY, CodeStore, MOST_CALLS, Start};
