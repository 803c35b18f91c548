//! The tokenizer: the image of a source.
#![tactic(auto)]

mod fault;
mod header;
mod laws;
mod layout;
mod origin;
mod place;
mod placing;
mod token;
mod tokenizer;
mod writing;
mod written;

pub use fault::TokFault;
pub use laws::{
    header_is_the_sum, image_has_tokens, nests_end_at_their_places, passes_give_tokens,
    tokens_have_origins,
};
pub use origin::image_origins;
pub use tokenizer::tokenize;
