//! How much room the journal of a run needs: laws, each a function without parameters whose clauses are the law.
#![tactic(auto)]

mod journal;
mod line;
mod opened;
mod run;

pub use journal::a_journal_has_room;
pub use line::each_line_has_room;
pub use opened::a_cluster_opens_with_room;
pub use run::a_run_with_room_is_not_full;
