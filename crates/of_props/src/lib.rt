//! Property values as arrays of bytes: how they are encoded at `here`, joined and decoded.
#![tactic(auto)]

mod arrays;
mod decoding;
mod encoding;
mod fault;
mod laws;

pub use arrays::{Array, join};
pub use decoding::{decode_int, decode_phys, decode_string};
pub use encoding::{encode_bytes, encode_int, encode_phys, encode_string};
pub use fault::PropFault;
pub use laws::{
    arrays_adjoin, bytes_read_back, cells_read_back, decodings_are_refused, encodings_are_refused,
    ints_read_back, strings_read_back,
};
