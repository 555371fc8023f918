//! Workers of peers and one who asks take turns at a book.
#![tactic(auto)]

mod driving;
mod opening;
mod script;
