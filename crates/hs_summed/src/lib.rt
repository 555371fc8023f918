//! What the summary of a load counts: laws, each a function without parameters whose clauses are the law.
#![tactic(auto)]

mod fit;
mod stored;
mod summed;

pub use fit::a_load_begins_its_last_lines;
pub use stored::a_done_load_leaves_its_store;
pub use summed::a_done_load_sums_up;
