//! Sound lists stay sound with runs in progress: laws, each a function without parameters whose clauses are the law.
#![tactic(auto)]

mod counted;
mod sound;
mod told;

pub use counted::histories_are_counted;
pub use sound::waiting_lists_are_sound_with_runs;
pub use told::kept_rounds_tell_each_shard_its_own;
