//! What waits may come still: laws, each a function without parameters whose clauses are the law.
#![tactic(auto)]

mod got;
mod lists;
mod logged;
mod waiting;

pub use got::an_accepted_got_is_what_its_sender_keeps;
pub use lists::waiting_lists_are_lawful_with_runs;
pub use logged::logged_gots_are_what_their_senders_keep;
pub use waiting::what_waits_may_come_still;
