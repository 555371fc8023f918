//! The journal of a store is a legal run of the plain store behind each event, for any number of copies, and a store of one
//! copy a shard stands at each moment of its run: laws, each a function without parameters whose clauses are the law.
#![tactic(auto)]

mod addresses;
mod answered;
mod begun;
mod coming;
mod effect;
mod follows;
mod fresh;
mod images;
mod kept;
mod lists;
mod marks;
mod opened;
mod opening;
mod proposed;
mod reopening;
mod rests;
mod run;
mod sane;
mod standing;
mod stored;
mod suffices;
mod told;
mod waits;
mod walk;

pub use addresses::{each_change_keeps_addresses, handles_stand_for_addresses};
pub use answered::a_script_is_answered;
pub use begun::each_line_was_begun;
pub use coming::a_scripts_events_may_come;
pub use effect::an_entry_takes_effect;
pub use follows::an_entry_that_waits_may_come;
pub use fresh::a_scripts_lines_are_new;
pub use images::{good_images_are_logs, images_that_count_reopen};
pub use kept::what_was_sent_is_kept;
pub use lists::fronts_reopen;
pub use marks::{a_mark_gives_its_writes_block, each_change_keeps_marks};
pub use opened::opened_lists_stand;
pub use opening::what_opens_well_stands;
pub use proposed::an_entry_comes_to_wait;
pub use reopening::what_stands_reopens;
pub use rests::what_waits_rests_on_what_is_there;
pub use run::{a_run_goes_on, each_moment_of_a_run_stands};
pub use sane::{a_sane_store_has_lists, a_sane_store_knows_its_copies};
pub use standing::what_stands_may_stop;
pub use stored::what_is_present_was_stored;
pub use suffices::easily_told_facts_suffice;
pub use told::{a_line_asks_as_its_command, an_event_may_come_to_it, each_event_is_told};
pub use waits::a_waiting_got_may_come;
pub use walk::{each_event_keeps_it, opening_keeps_it};
