//! Whether the copies of a shard agree, and copying one of them over the others.
#![tactic(auto)]

mod compare;
mod copying;
mod emptying;
mod fault;
mod from_peer;
mod giving;
mod laws;
mod look;
mod mark;
mod scrubbing;
mod shard;
mod text;

pub use fault::ScrubFault;
pub use from_peer::copy_from;
pub use laws::{each_mark_is_by_its_cause, none_is_bad_where_all_are_same};
pub use mark::PeerMark;
pub use scrubbing::scrub;
