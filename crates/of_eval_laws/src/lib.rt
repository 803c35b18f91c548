//! Laws of the evaluator: what the steps of tokens, items and words come to, in words of their own.
#![tactic(auto)]

mod laws;

pub use laws::{
    calls_come_back, catch_keeps, definitions_run, dictionary_words_keep, ends_go_back,
    frames_hold, images_are_readings, images_run, images_stand, items_go, loads_begin,
    memory_is_asked, mismatch_is_no_body, names_stay_home, questions_settle, space_stays_sound,
    stack_leads_back, states_stay_placed, steps_agree, steps_throw_listed, throw_takes,
    throws_settle, tokens_are_typed, tokens_go, words_throw_listed,
};
