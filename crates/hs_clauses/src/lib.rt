//! Clauses of the promise of a run, and the bytes that its reads tell: laws, each a function without parameters whose clauses
//! are the law.
#![tactic(auto)]

mod answered;
mod images;
mod kept;
mod reading;
mod standing;
mod stopped;
mod stored;
mod telling;

pub use answered::a_run_is_answered;
pub use images::images_of_good_peers_count;
pub use kept::a_run_keeps;
pub use reading::a_run_reads_on;
pub use standing::a_run_stands;
pub use stopped::{a_run_may_stop, a_run_of_copies_may_stop};
pub use stored::{each_block_is_of_an_entry, what_is_read_is_sealed};
pub use telling::each_report_tells_its_block;
