//! The data stack and the return stack, and what a word throws.
#![tactic(auto)]

mod data_stack;
mod laws;
mod loops;
mod return_item;
mod return_stack;
mod stop;
mod texts;
mod throws;

pub use data_stack::{CAPACITY, DataStack};
pub use laws::{
    ends_cut, first_fault_counts, limits_are_passed, loops_are_own, order_is_written, throws_cut,
};
pub use return_item::{
    Continuation, Due, ExceptionFrame, Input, LoopExit, LoopParameters, Reading, ReturnItem,
};
pub use return_stack::ReturnStack;
pub use stop::Stop;
pub use texts::text_of;
pub use throws::Throw;
