//! What each event of a run keeps, and that reads which fail are counted: laws, each a function without parameters whose
//! clauses are the law.
#![tactic(auto)]

mod counted;
mod event;
mod line;
mod machine;
mod opened;
mod rest;
mod run;
mod zeros;

pub use counted::reads_that_fail_are_counted;
pub use event::each_event_keeps_the_promise;
pub use line::each_line_keeps_the_promise;
pub use machine::each_core_of_the_machines_run_keeps_the_promise;
pub use opened::a_cluster_opens_in_a_run;
pub use rest::a_settle_leaves_nothing_open;
pub use run::each_core_of_a_run_keeps_the_promise;
pub use zeros::zero_blocks_are_right;
