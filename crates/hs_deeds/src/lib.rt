//! A journal is its deeds.
#![tactic(auto)]

mod changes;
mod history;
mod judged;
mod marks;
mod runs;

pub use changes::each_change_tells_deeds;
pub use history::deeds_go_on;
pub use judged::{a_judged_answer_is_a_deed, what_a_shard_does_is_a_deed};
pub use marks::each_change_keeps_pointers;
pub use runs::a_history_is_its_deeds;
