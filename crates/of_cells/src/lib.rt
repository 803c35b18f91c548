//! Cells: the numbers of 32 bits that every word computes with, and doubles of two cells.
#![tactic(auto)]

mod arithmetic;
mod bits;
mod bytes;
mod cells;
mod comparisons;
mod division;
mod doubles;
mod laws;

pub use cells::Cell;
pub use doubles::Double;
pub use laws::{floored_division, joins_of_splits, splits_of_joins};
