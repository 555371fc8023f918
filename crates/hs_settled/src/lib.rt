//! What a run has done that was gone past, what it has deleted, and why it ended: laws, each a function without parameters
//! whose clauses are the law.
#![tactic(auto)]

mod causes;
mod counts;
mod dates;
mod ending;
mod entries;
mod failures;
mod first;
mod going;
mod good;
mod kept;
mod led;
mod machine;
mod note_ends;
mod noted;
mod notes;
mod nothing;
mod order;
mod promised;
mod prompt;
mod refusals;
mod rest;
mod rises;
mod settled;

pub use causes::each_status_has_its_cause;
pub use counts::each_core_of_a_run_counts_right;
pub use dates::notes_have_their_line;
pub use ending::a_calm_run_ends_well;
pub use entries::each_entry_stands_for_its_cause;
pub use failures::a_failed_disk_is_told_once;
pub use first::the_first_shard_enters_for_a_line;
pub use going::each_operation_goes_on;
pub use good::a_peer_is_good_until_it_is_told;
pub use kept::{a_run_keeps_the_rule_of_done, each_event_keeps_the_rule_of_done};
pub use led::shard_0_is_led_by_lines;
pub use machine::a_core_counts_right;
pub use note_ends::a_note_ends_the_run;
pub use noted::each_entry_has_its_cause;
pub use notes::each_note_has_its_cause;
pub use nothing::{a_run_without_a_course_began_nothing, a_run_without_a_course_has_its_cause};
pub use order::a_journal_is_in_order;
pub use promised::a_run_deletes_as_promised;
pub use prompt::a_prompt_line_has_its_entry;
pub use refusals::a_refusal_comes_where_its_row_says;
pub use rest::a_settle_comes_to_rest;
pub use rises::each_rise_is_told;
pub use settled::each_settle_settles;
