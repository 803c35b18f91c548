//! The words that ask the outside: keys, registers of devices, and time.
#![tactic(auto)]

mod answers;
mod devices;
mod halt;
mod keys;
mod laws;
mod query;

pub use devices::run_devices_word;
pub use halt::Halt;
pub use keys::run_keys_word;
pub use laws::{answers_settle, asking_words_throw_listed, images_stay_asked, questions_are_said};
pub use query::{Answer, Query, is_fitting};
