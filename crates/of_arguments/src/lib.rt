//! What a command line of `ofw` asks for, and the statuses that the program gives back.
#![tactic(auto)]

mod arguments;
mod limits;
mod request;
mod status;

pub use arguments::{parse, status_of};
pub use limits::limit_of;
pub use request::{Guide, Listing, Listings, Outside, Product, Request};
pub use status::Status;
