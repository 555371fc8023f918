//! Whether shards of the plain store entered and swept as an entry says, and what was refused and noted.
ghost use Rattle.std.specs.Prelude.{◌≡◌, ◌↔◌, ◌&&◌, false, IsTrue, IfOk, List, map, nat_le};
ghost use Rattle.std.specs.List.{list_all, list_any};
ghost use Rattle.std.specs.Option.{option_map_or};
ghost use Rattle.hs_journal.specs.Deeds.{as_deed};
ghost use Rattle.hs_limits.specs.declared.limits.Limits.{Limits};
ghost use Rattle.hs_model.specs.declared.deed.Deed.TheVariants.{Entered, Swept};
ghost use Rattle.hs_model.specs.Deeds.{DeedEntry, IsNote, MayBeRefused, is_done_of, is_sweep_of};
ghost use Rattle.hs_model.specs.declared.reply.Reply.TheVariants.{Run};
ghost use Rattle.hs_plain.specs.Deeds.{Does, IsBusy, answers_line, last_told};

use super::MemoryStore;
use hs_journal::{JournalEntry, Who};
use hs_limits::Limits;
use hs_model::{Asked, ModelFault, Reply};

impl MemoryStore {
    /// Whether a shard entered its next epoch; where it did, it does.
    pub(super) fn does_enter(
        &mut self,
        limits: Limits,
        shard: u8,
        told: &Reply,
    ) -> Result<bool, ModelFault>
        ensures { IfOk result (λ is. (before : List DeedEntry)
            → Does limits self.old before (Entered shard) told.now is self.new) }
    {
        match told {
            Reply::Run { epoch } => self.does_delete(limits, shard, *epoch),
            Reply::Enter { .. } => {
                if !self.may_enter(shard) {
                    return Ok(false);
                }
                let answer = self.enter(shard)?;
                Ok(answer.reply.is_same(told))
            }
            _ => Ok(false),
        }
    }

    /// Whether shard 0 did for a deletion.
    fn does_delete(&mut self, limits: Limits, shard: u8, epoch: u64) -> Result<bool, ModelFault>
        ensures { IfOk result (λ is. (before : List DeedEntry)
            → Does limits self.old before (Entered shard) (Run epoch) is self.new) }
    {
        if shard != 0 {
            return Ok(false);
        }
        if let Some(_) = self.delete_refusal(limits) {
            return Ok(false);
        }
        let answer = self.delete(limits)?;
        Ok(is_run(&answer.reply, epoch))
    }

    /// Whether a shard swept its epoch; where it did, it does.
    pub(super) fn does_sweep(&mut self, shard: u8, told: &Reply) -> Result<bool, ModelFault>
        ensures { IfOk result (λ is. (limits : Limits) (before : List DeedEntry)
            → Does limits self.old before (Swept shard) told.now is self.new) }
    {
        if !self.may_sweep(shard) {
            return Ok(false);
        }
        let answer = self.sweep(shard)?;
        Ok(answer.reply.is_same(told))
    }

    /// Whether an operation was refused: for a line that has no answer yet, or for its first refusal.
    pub(super) fn may_be_refused(
        &self,
        limits: Limits,
        before: &[JournalEntry],
        asked: &Asked,
        told: &Reply,
    ) -> Result<bool, ModelFault>
        ensures { IfOk result (λ is. IsTrue is
            ↔ MayBeRefused limits self.now (map as_deed before.now) asked.now told.now) }
    {
        if is_busy(before, told) {
            return Ok(true);
        }
        self.is_refused(limits, asked, told)
    }

    /// Whether a reply may be told where nothing is done.
    pub(super) fn is_note(&self, before: &[JournalEntry], told: &Reply) -> Result<bool, ModelFault>
        ensures { IfOk result
            (λ is. IsTrue is ↔ IsNote self.now (map as_deed before.now) told.now) }
    {
        match told {
            Reply::Name { address } => Ok(self.is_held_fresh(0, address)),
            Reply::Stat { .. } => {
                let answer = self.stat()?;
                Ok(answer.reply.is_same(told))
            }
            Reply::Done { epoch } => Ok(self.is_done(before, *epoch)),
            Reply::Visits { epoch, .. } => Ok(last_ends(before, *epoch)),
            Reply::Down { .. } => Ok(true),
            Reply::NoPeer { .. } => Ok(true),
            Reply::NotUp { .. } => Ok(true),
            Reply::NotDown { .. } => Ok(true),
            Reply::NoMessage { .. } => Ok(true),
            Reply::PoolFull { .. } => Ok(true),
            _ => Ok(false),
        }
    }

    /// Whether each shard has swept an epoch, the last of them by the last of some entries.
    fn is_done(&self, before: &[JournalEntry], epoch: u64) -> bool
        ensures { result ≡ (option_map_or (is_sweep_of epoch) (last_told before.now) false
            && list_all (λ swept. nat_le epoch swept) self.now.swept) }
    {
        last_sweeps(before, epoch) && self.have_swept(epoch)
    }

    /// Whether each shard has swept an epoch.
    fn have_swept(&self, epoch: u64) -> bool
        ensures { result ≡ list_all (λ swept. nat_le epoch swept) self.now.swept }
    {
        self.swept.iter().all(|swept| epoch <= *swept)
    }
}

/// Whether a reply tells that a session is busy with a line that has no entry among some.
fn is_busy(before: &[JournalEntry], told: &Reply) -> bool
    ensures { IsTrue result ↔ IsBusy before.now told.now }
{
    match told {
        Reply::Busy { line } => !is_answered(before, *line),
        _ => false,
    }
}

/// Whether some entries have one of a line.
fn is_answered(before: &[JournalEntry], line: u64) -> bool
    ensures { result ≡ list_any (λ entry. answers_line line entry) before.now }
{
    before.iter().any(|entry| is_of(entry, line))
}

/// Whether an entry answers a line.
fn is_of(entry: &JournalEntry, line: u64) -> bool
    ensures { result ≡ answers_line line entry.now }
{
    entry.who == Who::Line(line)
}

/// Whether the last of some entries tells the sweep of an epoch.
fn last_sweeps(before: &[JournalEntry], epoch: u64) -> bool
    ensures { result ≡ option_map_or (is_sweep_of epoch) (last_told before.now) false }
{
    match before.last() {
        Some(entry) => matches!(&entry.reply, Reply::Sweep { epoch: swept, .. } if *swept == epoch),
        None => false,
    }
}

/// Whether it tells the end of the run of an epoch.
fn last_ends(before: &[JournalEntry], epoch: u64) -> bool
    ensures { result ≡ option_map_or (is_done_of epoch) (last_told before.now) false }
{
    match before.last() {
        Some(entry) => matches!(&entry.reply, Reply::Done { epoch: done } if *done == epoch),
        None => false,
    }
}

/// Whether a reply tells that a run of this epoch begins.
fn is_run(told: &Reply, epoch: u64) -> bool
    ensures { IsTrue result ↔ (told.now ≡ Run epoch) }
{
    match told {
        Reply::Run { epoch: run } => *run == epoch,
        _ => false,
    }
}
