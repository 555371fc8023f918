//! What the store of a client keeps of a file: laws, each a function without parameters whose clauses are the law.
#![tactic(auto)]

mod copies;
mod files;
mod pending;
mod stops;
mod survives;
mod told;

pub use copies::{a_copied_store_stays, a_root_is_copied};
pub use files::a_file_is_kept;
pub use pending::what_is_pending_is_asked;
pub use stops::a_key_is_kept_whole;
pub use survives::a_kept_file_survives;
pub use told::{a_client_is_told, a_settle_answers_what_was_asked};
