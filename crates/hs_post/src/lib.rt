//! The pool of messages under way between the peers.
#![tactic(auto)]

mod fault;
mod inboxes;
mod message;
mod numbers;
mod pool;

pub use fault::PostFault;
pub use message::Message;
pub use pool::Pool;
