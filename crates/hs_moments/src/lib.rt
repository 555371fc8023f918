//! What a run tells of each of its moments: laws, each a function without parameters whose clauses are the law.
#![tactic(auto)]

mod course;
mod fronts;
mod journal;
mod sane;
mod seals;
mod working;

pub use course::the_course_tells_each_moment;
pub use fronts::what_took_effect_stays;
pub use journal::the_journal_tells_each_moment;
pub use sane::{each_job_is_the_next, what_is_sane_stays_so, what_opens_is_sane};
pub use seals::only_reports_tell_of_seals;
pub use working::{a_report_tells_what_was_done, lists_only_grow, what_was_appended_stays};
