//! What lists of entries amount to: catalogues, the store at which lists open, and which lists are sound.
#![tactic(auto)]

mod deletion;
mod fronts;
mod histories;
mod memory;
mod numbered;
mod soundness;
mod standing;
mod waiting;

pub use deletion::{
    clients_and_enters_change_the_store, clients_see_no_runs, ends_of_rounds_change_the_store,
    rounds_stay_within_bounds, runs_keep_catalogues_own, runs_keep_roots_by_key,
};
pub use fronts::fronts_are_prefixes;
pub use histories::{
    catalogues_are_of_their_shards, histories_change_the_store, shards_see_their_own,
};
pub use memory::runs_go_as_in_memory;
pub use numbered::numbered_lists_part;
pub use soundness::lists_stay_sound;
pub use standing::lists_stand_at_what_is_behind;
pub use waiting::{waiting_entries_may_still_come, waiting_lists_are_lawful};
