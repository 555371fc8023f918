//! The whole lists of a store are those of the machine of its copies: laws, each a function without parameters whose clauses are the law.
#![tactic(auto)]

mod copying;
mod lineage;
mod lists;

pub use copying::a_copying_step_adds_the_next_of_the_leads;
pub use lineage::a_disks_list_of_greater_rank_goes_on_from_a_good_peers;
pub use lists::{what_is_whole_in_step_stays_so, what_opens_is_whole_in_step};
