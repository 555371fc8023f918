//! The views of a list's entries, as runs of one view.
ghost use Rattle.std.specs.Prelude.{◌≡◌, ◌+◌, ◌∷◌, ◌++◌, [], length, replicate, slice_index_or, IfOk, OnOk, OnErr};
ghost use Rattle.hs_replica.specs.Group.{last_view, view_after};
ghost use Rattle.hs_replica.specs.Runs.{AreRuns, end_of, expand};

use crate::GroupFault;
use hs_entry::Entry;
use std::alloc::Global;
use std::marker::Model;

/// Entries of one view: those behind the run before it, up to the number `end`.
#[derive(Clone, Copy, Debug, Drop)]
pub struct Run {
    pub view: u64,
    pub end: u64,
}

/// The view of each entry of a list.
#[derive(Debug, Drop)]
pub struct Stamps {
    runs: Vec<Run>,
}

impl Model for Stamps {
    ghost use Rattle.std.specs.Prelude.{ℕ, List};
    ghost use Rattle.hs_replica.specs.Runs.{AreRuns, expand};

    ghost Value = { List ℕ };

    ghost view = { λ a. expand 0 a.runs.items };

    ghost invariant = { λ a. AreRuns 0 a.runs.items };
}

impl Stamps {
    /// No entry. It takes no memory.
    pub fn new(alloc: Global) -> Stamps
        ensures { result ≡ [] }
    {
        Stamps {
            runs: Vec::new(alloc),
        }
    }

    /// So many entries of one view.
    pub fn all_of(alloc: Global, view: u64, count: u64) -> Result<Stamps, GroupFault>
        ensures { IfOk result (λ stamps. stamps ≡ replicate count view) }
    {
        let mut runs = Vec::new(alloc);
        if count > 0 {
            runs.push(Run { view, end: count })?;
        }
        Ok(Stamps { runs })
    }

    /// The number of entries. It takes no memory.
    #[tactic(auto, using(crate::proofs::RunLemmas::length_expand))]
    pub fn len(&self) -> u64
        ensures { result ≡ length self.now }
    {
        end_of(self.runs.as_slice())
    }

    /// The view of the last entry, 0 where there is none. It takes no memory.
    #[tactic(auto, using(crate::proofs::RunLemmas::last_expand))]
    pub fn last(&self) -> u64
        ensures { result ≡ last_view self.now }
    {
        let count = self.runs.len();
        if count == 0 {
            0
        } else {
            self.runs[count - 1].view
        }
    }

    /// The view of the entry behind so many, 0 where there is none. It takes no memory.
    pub fn get(&self, index: u64) -> u64
        ensures { result ≡ slice_index_or self.now index 0 }
    {
        view_at(self.runs.as_slice(), index)
    }

    /// One entry more. Without memory nothing changes.
    #[tactic(auto, using(crate::proofs::RunLemmas::length_expand))]
    pub fn push(&mut self, view: u64) -> Result<(), GroupFault>
        ensures ok { OnOk result (self.new ≡ self.old ++ view ∷ []) }
        ensures same { OnErr result (self.new ≡ self.old) }
    {
        let Some(end) = self.len().checked_add(1) else {
            return Err(GroupFault::NoMemory);
        };
        add(&mut self.runs, view, end)
    }

    /// Takes all entries away. It takes no memory.
    pub fn clear(&mut self)
        ensures { self.new ≡ [] }
    {
        self.runs.clear();
    }
}

/// Where the last run ends.
#[tactic(auto, using(crate::proofs::RunLemmas::end_last))]
fn end_of(runs: &[Run]) -> u64
    ensures { result ≡ end_of 0 runs.now }
{
    let count = runs.len();
    if count == 0 { 0 } else { runs[count - 1].end }
}

/// The view of the entry behind so many, by a binary search.
fn view_at(runs: &[Run], index: u64) -> u64
    requires { AreRuns 0 runs.now }
    ensures { result ≡ slice_index_or (expand 0 runs.now) index 0 }
{
    let place = runs.partition_point(|run| run.end <= index);
    if place < runs.len() {
        runs[place].view
    } else {
        0
    }
}

/// One entry more of this view, after which the list ends there.
#[tactic(auto, using(crate::proofs::RunLemmas::expand_more, crate::proofs::RunLemmas::runs_more, crate::proofs::RunLemmas::expand_last, crate::proofs::RunLemmas::runs_last))]
fn add(runs: &mut Vec<Run>, view: u64, end: u64) -> Result<(), GroupFault>
    requires runs { AreRuns 0 runs.old.items }
    requires end { end ≡ end_of 0 runs.old.items + 1 }
    ensures ok { OnOk result (expand 0 runs.new.items ≡ expand 0 runs.old.items ++ view ∷ []) }
    ensures runs { AreRuns 0 runs.new.items }
    ensures same { OnErr result (runs.new.items ≡ runs.old.items) }
{
    let count = runs.len();
    if count > 0 && runs[count - 1].view == view {
        runs[count - 1].end = end;
        Ok(())
    } else {
        runs.push(Run { view, end })?;
        Ok(())
    }
}

/// The view of an entry behind one of this view.
pub(crate) fn view_after(before: u64, entry: &Entry) -> u64
    ensures { result ≡ view_after before entry.now }
{
    match entry {
        Entry::View { view } => *view,
        Entry::Base { view, .. } => *view,
        Entry::Block { .. }
        | Entry::Mark { .. }
        | Entry::Root { .. }
        | Entry::Drop { .. }
        | Entry::Enter { .. }
        | Entry::Got { .. }
        | Entry::KeptBlock { .. }
        | Entry::KeptRoot { .. }
        | Entry::KeptRound { .. } => before,
    }
}
