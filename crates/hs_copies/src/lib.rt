//! The copies of one shard's list as a machine over whole lists: laws, each a function without parameters.
#![tactic(auto)]

mod faithful;
mod front;
mod lineage;
mod lines;
mod run;
mod stamps;
mod stop;

pub use faithful::events_keep_the_copies_faithful;
pub use front::good_lists_are_fronts_of_the_leads;
pub use lineage::a_list_of_greater_rank_goes_on_from_a_good_one;
pub use lines::pending_entries_are_of_open_lines;
pub use run::runs_of_the_core_are_runs_of_the_machine;
pub use stamps::stamps_of_good_copies_are_fronts_of_the_leads;
pub use stop::{
    entries_of_one_stamp_are_equal, images_are_fronts,
    the_list_of_greatest_rank_has_all_that_took_effect,
};
