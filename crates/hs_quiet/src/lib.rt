//! What is left to do of copies, and that a settle which was gone past leaves nothing: laws, each a function without
//! parameters whose clauses are the law.
#![tactic(auto)]

mod causes;
mod keeping;
mod lost;
mod open;
mod rested;
mod settled;
mod story;
mod turning;

pub use causes::each_operation_waits_for_what_is_there;
pub use keeping::copies_keep_up;
pub use lost::a_lost_shard_has_its_cause;
pub use open::a_quiet_store_has_nothing_open;
pub use rested::where_no_peer_has_a_job_all_is_sealed;
pub use settled::a_settle_leaves_nothing;
pub use story::a_settle_of_a_run_leaves_nothing;
pub use turning::who_is_good_turns_by_cause;
