//! What the store meets outside itself: sources, sinks, disks and the watch, with their contracts.
#![tactic(auto)]

mod change;
mod disk;
mod fault;
mod history;
mod image;
mod list_sink;
mod list_source;
mod memory_disk;
mod platter;
mod schedule;
mod sides;
mod sink;
mod source;
mod tear;
mod watch;

pub use disk::{Disk, Side};
pub use fault::PortFault;
pub use list_sink::ListSink;
pub use list_source::ListSource;
pub use memory_disk::MemoryDisk;
pub use sink::Sink;
pub use source::Source;
pub use tear::Tear;
pub use watch::Watch;
