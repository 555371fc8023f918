//! What happened in a run beside its answers.

/// An item of a run's course, with its moment.
#[derive(Clone, Copy, Debug, PartialEq, Eq)]
pub enum CourseItem {
    /// A client's line was begun.
    Begun { line: u64, moment: u64 },
    /// A peer became good.
    Good { peer: u8, moment: u64 },
    /// A peer is good no more.
    Bad { peer: u8, moment: u64 },
    /// The entries of a shard up to this number took effect.
    Took { shard: u8, number: u64, moment: u64 },
}
