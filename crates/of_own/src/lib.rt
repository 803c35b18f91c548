//! Own words over the board: words that are one of each instance, what is stored into a word, what defers lead to, and
//! what names find.
#![tactic(auto)]

mod defers;
mod finding;
mod laws;
mod slots;
mod stores;

pub use defers::{behavior, follow, is_deferred};
pub use finding::find;
pub use laws::slots_hold;
pub use slots::{slot_address, slot_cell};
pub use stores::store;
