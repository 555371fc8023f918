//! The work of peers, writers and the deleter in threads, over a book behind one lock.
#![tactic(auto)]

mod ask;
mod beside;
mod blocks;
mod deleter;
mod element;
mod fault;
mod job;
mod peer;
mod shared;
mod stage;
mod sums;
mod writer;

pub use beside::all_work;
pub use deleter::deleter_work;
pub use element::{Deleter, Element, Worker, Writer};
pub use fault::WorkFault;
pub use job::{do_job, is_failed};
pub use peer::peer_work;
pub use shared::Shared;
pub use writer::writer_work;
