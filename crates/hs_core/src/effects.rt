//! Entries take effect.
ghost use Rattle.std.specs.Prelude.{◌≡◌, [], IfOk, OnOk, is_some};
ghost use Rattle.hs_awaiting.specs.Words.{change_with};
ghost use Rattle.hs_core_words.specs.Effects.{after_entry, commit, commit_next, note_sweep, reach_view};
ghost use Rattle.hs_core_words.specs.Entering.{propose_due};
ghost use Rattle.hs_core_state.specs.Handing.{take_handed};
ghost use Rattle.hs_core_state.specs.Keeping.{KeepsCore};
ghost use Rattle.hs_core_words.specs.Looking.{group_of};
ghost use Rattle.hs_members.specs.Members.{IsShard};
ghost use Rattle.hs_replica.specs.Group.{committed};

use crate::entering::propose_due;
use crate::going::tell_operation;
use crate::resuming::{resume_viewed, resume_woken};
use crate::telling::tell_enter;
use hs_core_state::{NoMemory, State};
use hs_desk::What;
use hs_entry::Entry;
use hs_shard::Effect;

/// All entries that every good peer is known to have sealed take effect, in order. Where none waits
/// any more it goes no further, however much is known to be sealed.
#[tactic(auto, using(crate::proofs::CommitLemmas::times_next, crate::proofs::CommitLemmas::times_end, crate::proofs::CommitLemmas::times_begin))]
pub(crate) fn commit(core: &mut State, shard: u8) -> Result<(), NoMemory>
    requires { IsShard core.old.members.shape shard }
    ensures ok { OnOk result (core.new ≡ commit shard core.old) }
    ensures kept { KeepsCore core.old core.new }
{
    let front = core.front(shard);
    let due = core.group(shard).commit_front().saturating_sub(front);
    for _turn in 0..due {
        let more = commit_next(core, shard)?;
        if !more {
            return Ok(());
        }
    }
    Ok(())
}

/// The next entry that every good peer is known to have sealed takes effect. Whether there was one.
fn commit_next(core: &mut State, shard: u8) -> Result<bool, NoMemory>
    requires { IsShard core.old.members.shape shard }
    ensures ok { OnOk result (core.new ≡ commit_next shard core.old) }
    ensures more { IfOk result (λ more. more ≡ is_some (committed (group_of shard core.old))) }
    ensures kept { KeepsCore core.old core.new }
{
    let Some((number, entry)) = core.take_committed(shard) else {
        return Ok(false);
    };
    take_handed(core, shard, number, entry)?;
    Ok(true)
}

/// An entry that was handed out takes effect.
#[tactic(auto, using(crate::proofs::CommitLemmas::after_sends))]
fn take_handed(core: &mut State, shard: u8, number: u64, entry: Entry) -> Result<(), NoMemory>
    requires { IsShard core.old.members.shape shard }
    ensures ok { OnOk result (core.new ≡ take_handed shard number entry core.old) }
    ensures kept { KeepsCore core.old core.new }
{
    let named = core.named(&entry);
    let Effect {
        what,
        sends,
        removed,
    } = core.apply(shard, number, &entry, named)?;
    core.round_out(shard, sends)?;
    after_entry(core, shard, &entry, what, removed)?;
    resume_woken(core, shard, &entry, named)
}

/// What an entry did is told, and what follows from it.
fn after_entry(
    core: &mut State,
    shard: u8,
    entry: &Entry,
    what: What,
    removed: Option<u32>,
) -> Result<(), NoMemory>
    requires { IsShard core.old.members.shape shard }
    ensures ok { OnOk result (core.new ≡ after_entry shard entry.now
        (record { what = what; sends = []; removed = removed }) core.old) }
    ensures kept { KeepsCore core.old core.new }
{
    match entry {
        Entry::View { view } => reach_view(core, shard, *view),
        Entry::Block { op, .. } => tell_operation(core, *op, what),
        Entry::Mark { op, .. } => tell_operation(core, *op, what),
        Entry::Root { op, .. } => tell_operation(core, *op, what),
        Entry::Drop { op, .. } => tell_operation(core, *op, what),
        Entry::Enter { op, .. } => tell_enter(core, shard, *op, what),
        Entry::Got { .. } => after_got(core, shard, removed),
        Entry::Base { .. }
        | Entry::KeptBlock { .. }
        | Entry::KeptRoot { .. }
        | Entry::KeptRound { .. } => Ok(()),
    }
}

/// After a Got: a sweep is told, and a due Enter is proposed.
fn after_got(core: &mut State, shard: u8, removed: Option<u32>) -> Result<(), NoMemory>
    requires { IsShard core.old.members.shape shard }
    ensures ok { OnOk result (core.new
        ≡ propose_due shard (change_with removed (note_sweep shard) core.old)) }
    ensures kept { KeepsCore core.old core.new }
{
    if let Some(removed) = removed {
        core.note_sweep(shard, removed)?;
    }
    propose_due(core, shard)
}

/// The View of the current view: what waited for it goes on.
fn reach_view(core: &mut State, shard: u8, view: u64) -> Result<(), NoMemory>
    requires { IsShard core.old.members.shape shard }
    ensures ok { OnOk result (core.new ≡ reach_view shard view core.old) }
    ensures kept { KeepsCore core.old core.new }
{
    if view != core.group(shard).view() {
        return Ok(());
    }
    core.reach(shard);
    resume_viewed(core, shard)
}
