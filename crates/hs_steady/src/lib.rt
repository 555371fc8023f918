//! A core beside its whole lists owes nothing to those who do its jobs: laws, each a function without parameters whose clauses are the law.
#![tactic(auto)]

mod lists;
mod opening;
mod runs;
mod steady;

pub use lists::a_store_in_step_shows_its_lists;
pub use opening::what_opens_has_its_lists;
pub use runs::{
    a_good_peers_disk_begins_its_leads_list, a_run_shows_its_lists, lists_of_one_stamp_are_one,
};
pub use steady::{a_store_goes_on_steadily, each_event_is_steady, what_is_whole_in_step_is_steady};
