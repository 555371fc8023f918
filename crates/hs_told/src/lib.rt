//! What the core's journal tells of an event, and in which order.
#![tactic(auto)]

mod bytes;
mod lines;
mod order;

pub use bytes::the_store_rests_on_no_bytes;
pub use lines::a_line_is_told;
pub use order::answers_stay_in_order;
