//! The plain store: what the whole program must look like from outside, with no shard's log, copy or message in it.
#![tactic(auto)]

mod command;
mod copy;
mod course;
mod deed;
mod fault;
mod naming;
mod op;
mod plain;
mod reply;
mod same;
mod slow;
mod store;
mod telling;

pub use command::Command;
pub use course::CourseItem;
pub use deed::Deed;
pub use fault::ModelFault;
pub use op::{Asked, Op};
pub use plain::{PlainBlock, PlainRoot, PlainStore};
pub use reply::Reply;
pub use slow::{Pointing, Run, is_since, peel, reach, reached, removes, unreachable};
pub use store::StoredBlock;
pub use telling::{deed_of, given_address};
