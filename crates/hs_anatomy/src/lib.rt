//! The anatomy of an event: of which single acts it is made.
#![tactic(auto)]

mod aside;
mod event;
mod sizes;
mod strokes;

pub use aside::acts_aside_change_no_answer;
pub use event::each_event_is_made_of_acts;
pub use sizes::sizes_stay;
pub use strokes::acts_are_made_of_strokes;
