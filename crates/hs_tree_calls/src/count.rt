//! How often a client asked for what a copy is known by.
use hs_model::Op;

/// Reads, writes, roots and deletions.
#[derive(Clone, Copy, Debug, PartialEq, Eq)]
pub(crate) struct Count {
    pub(crate) reads: u32,
    pub(crate) writes: u32,
    pub(crate) roots: u32,
    pub(crate) deletions: u32,
}

impl Count {
    /// Nothing was asked for.
    pub(crate) fn none() -> Count {
        Count {
            reads: 0,
            writes: 0,
            roots: 0,
            deletions: 0,
        }
    }

    /// Counts an operation.
    pub(crate) fn add(&mut self, op: &Op) {
        match op {
            Op::Read { .. } => self.reads = self.reads.saturating_add(1),
            Op::Write { .. } => self.writes = self.writes.saturating_add(1),
            Op::Root { .. } => self.roots = self.roots.saturating_add(1),
            Op::Delete => self.deletions = self.deletions.saturating_add(1),
            Op::Open { .. }
            | Op::Close { .. }
            | Op::Look { .. }
            | Op::Drop { .. }
            | Op::Forget { .. }
            | Op::Name { .. }
            | Op::Stat => {}
        }
    }
}
