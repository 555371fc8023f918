//! How a peer goes down.
ghost use Rattle.std.specs.Prelude.{◌≡◌, OnOk};
ghost use Rattle.hs_awaiting.specs.Words.{change_if, each};
ghost use Rattle.hs_core_words.specs.Failing.{commit_rest, fail_disk, go_down};
ghost use Rattle.hs_core_words.specs.Joining.{begin_joining, joining_peers};
ghost use Rattle.hs_core_state.specs.Keeping.{KeepsCore};
ghost use Rattle.hs_core_words.specs.Looking.{status_of};
ghost use Rattle.hs_core_words.specs.Views.{change_view};
ghost use Rattle.hs_members.specs.Members.{IsPeer, IsShard, is_joining};

use crate::asking::is_peer;
use crate::effects::commit;
use crate::joining::begin_joining;
use hs_core_state::{NoMemory, State};
use hs_journal::Who;
use hs_limits::{PeerStatus, peer_of};
use hs_model::{Deed, Reply};

/// A disk has failed: its peer is told of, and goes down.
#[tactic(auto, using(crate::proofs::NowhereLemmas::go_down_nowhere))]
pub(crate) fn fail_disk(core: &mut State, disk: u8) -> Result<(), NoMemory>
    ensures ok { OnOk result (core.new ≡ fail_disk disk core.old) }
    ensures kept { KeepsCore core.old core.new }
{
    let line = core.event_line();
    core.note(Who::Store, Deed::Nothing, Reply::Down { peer: disk, line })?;
    let shape = core.shape();
    if disk >= shape.shards * shape.copies {
        return core.leave(disk);
    }
    go_down(core, disk)
}

/// A peer goes down: where it was good the view rises; where it led, the joining peers begin
/// again; then what all that are left have sealed takes effect.
pub(crate) fn go_down(core: &mut State, peer: u8) -> Result<(), NoMemory>
    requires { IsPeer core.old.members.shape peer }
    ensures ok { OnOk result (core.new ≡ go_down peer core.old) }
    ensures kept { KeepsCore core.old core.new }
{
    let shard = core.home(peer);
    let was_good = core.status(peer) == PeerStatus::Good;
    let was_lead = is_peer(peer, core.lead(shard));
    core.leave(peer)?;
    change_view_if(core, was_good, shard)?;
    begin_joining_if(core, was_lead, shard);
    commit_rest_if(core, was_good, shard)
}

/// The view of a shard changes, where its good peers have.
fn change_view_if(core: &mut State, was_good: bool, shard: u8) -> Result<(), NoMemory>
    requires { IsShard core.old.members.shape shard }
    ensures ok { OnOk result (core.new ≡ change_if was_good (change_view shard) core.old) }
    ensures kept { KeepsCore core.old core.new }
{
    if was_good {
        core.change_view(shard)?;
    }
    Ok(())
}

/// The joining peers of a shard begin again, where its lead is gone.
fn begin_joining_if(core: &mut State, was_lead: bool, shard: u8)
    requires { IsShard core.old.members.shape shard }
    ensures ok { core.new ≡ change_if was_lead
        (λ core. each (joining_peers shard core) begin_joining core) core.old }
    ensures kept { KeepsCore core.old core.new }
{
    if was_lead {
        begin_all_joining(core, shard);
    }
}

/// The joining peers of a shard begin again.
#[tactic(auto, using(crate::proofs::JoiningLemmas::each_from_next, crate::proofs::JoiningLemmas::each_from_end, crate::proofs::JoiningLemmas::each_from_begin))]
fn begin_all_joining(core: &mut State, shard: u8)
    requires { IsShard core.old.members.shape shard }
    ensures ok { core.new ≡ each (joining_peers shard core.old) begin_joining core.old }
    ensures kept { KeepsCore core.old core.new }
{
    let shape = core.shape();
    for copy in 0..shape.copies {
        begin_if_joining(core, peer_of(shard, copy, shape));
    }
}

/// A peer begins again, if it is joining.
fn begin_if_joining(core: &mut State, peer: u8)
    requires { IsPeer core.old.members.shape peer }
    ensures ok { core.new
        ≡ change_if (is_joining (status_of peer core.old)) (begin_joining peer) core.old }
    ensures kept { KeepsCore core.old core.new }
{
    if core.status(peer) == PeerStatus::Joining {
        begin_joining(core, peer);
    }
}

/// What all good peers that are left have sealed takes effect, where the good peers have changed.
fn commit_rest_if(core: &mut State, was_good: bool, shard: u8) -> Result<(), NoMemory>
    requires { IsShard core.old.members.shape shard }
    ensures ok { OnOk result (core.new ≡ change_if was_good (commit_rest shard) core.old) }
    ensures kept { KeepsCore core.old core.new }
{
    if was_good && core.has_good(shard) {
        commit(core, shard)?;
    }
    Ok(())
}
