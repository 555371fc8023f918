//! What entries that take effect do to the plain store of the core's catalogues and sessions.
#![tactic(auto)]

mod deleted;
mod dropped;
mod lawful;
mod logged;
mod marked;
mod once;
mod refused;
mod room;
mod rooted;
mod shards;
mod stored;

pub use deleted::a_delete_is_answered_at_its_effect;
pub use dropped::a_drop_is_answered_at_its_effect;
pub use lawful::{all_that_is_committed_keeps_a_lawful_store, an_entry_keeps_a_lawful_store};
pub use logged::operations_wait_for_their_entries;
pub use marked::a_present_block_is_answered_at_its_effect;
pub use once::no_line_waits_twice;
pub use refused::a_refused_entry_is_judged_at_its_effect;
pub use room::an_entry_has_its_room;
pub use rooted::a_root_is_answered_at_its_effect;
pub use shards::{a_got_is_silent_or_a_sweep, an_enter_by_itself_is_told};
pub use stored::a_new_block_is_answered_at_its_effect;
