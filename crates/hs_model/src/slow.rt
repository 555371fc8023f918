//! The slow functions: what is reached, what a sweep would remove, and what goes by itself.
mod peeling;
mod pointing;
mod reaching;
mod unreached;

pub use peeling::peel;
pub(crate) use pointing::has;
pub use pointing::{Pointing, reach};
pub use reaching::reached;
pub use unreached::{Run, is_since, removes, unreachable};
