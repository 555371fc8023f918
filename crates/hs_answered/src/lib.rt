//! What the core answers is what the plain store of its catalogues and sessions answers.
#![tactic(auto)]

mod answered;
mod busy;
mod plain;
mod reading;
mod shown;
mod stepping;
mod writing;

pub use answered::an_answer_is_the_judges;
pub use busy::a_busy_session_is_told;
pub use plain::a_core_gives_the_plain_store;
pub use reading::a_read_is_the_judges;
pub use shown::views_show_the_store;
pub use stepping::a_step_that_answers_is_the_judges;
pub use writing::a_write_is_the_judges;
