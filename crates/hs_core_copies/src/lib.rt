//! The core's copies are the machine's: laws, each a function without parameters whose clauses are the law.
#![tactic(auto)]

mod copying;
mod events;
mod fronts;
mod jobs;
mod knowing;
mod lineage;
mod lists;
mod opening;
mod settled;

pub use copying::a_copying_step_is_the_machines;
pub use events::every_event_is_the_machines;
pub use fronts::good_stamps_are_fronts_of_the_leads;
pub use jobs::{the_first_job_is_the_next, the_jobs_are_those_of_what_is_unsealed};
pub use knowing::what_is_known_is_within_the_leads_list;
pub use lineage::a_list_of_greater_rank_goes_on_from_a_good_peers;
pub use lists::each_list_is_what_is_told_and_what_waits;
pub use opening::{good_stamps_are_fronts_along_a_run, what_opens_is_in_step};
pub use settled::an_entry_takes_effect_as_the_front_reaches_it;
