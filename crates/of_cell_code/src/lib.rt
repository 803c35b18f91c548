//! Compiled code in cells of four bytes.
#![tactic(auto)]

mod cell_code;
mod cells;
mod items;
mod kinds;
mod tags;

pub use cell_code::CellCode;
