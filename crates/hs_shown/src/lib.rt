//! What operations are answered is what the plain store answers.
#![tactic(auto)]

mod laws;

pub use laws::{
    an_answer_by_the_view_is_the_stores, an_effect_is_the_stores,
    bytes_are_answered_as_the_store_does,
};
