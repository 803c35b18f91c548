//! Images as streams of tokens: the header, and each token with its operand.
#![tactic(auto)]

mod bytes;
mod fault;
mod laws;
mod operand;
mod stream;
mod target;
mod token;

pub use fault::StreamFault;
pub use laws::{tokens_read_back, tokens_stand_alone};
pub use stream::{HEADER_LENGTH, OffsetSize, Stream, open};
pub use target::target_at;
pub use token::{Argument, Token};
