//! What every crate of the store speaks of: addresses, shapes, names, keys, limits and lists.
#![tactic(auto)]

mod address;
mod delta;
mod key;
mod limits;
mod list;
mod name;
mod shape;
mod spelling;

pub use address::{Address, Held, fresh};
pub use delta::Delta;
pub use key::{Key, is_key};
pub use limits::{LAST_EPOCH, Limits, PeerStatus};
pub use list::ListOf;
pub use name::{Name, is_name};
pub use shape::{Shape, peer_of, shard_of, shard_of_key};
pub use spelling::{MOST_BYTES, MOST_POINTERS, SpellingFault, parts_of, spelt};
