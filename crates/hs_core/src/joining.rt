//! How a peer joins: it copies the lead's list, and is good once it has all of it.
ghost use Rattle.std.specs.Prelude.{◌≡◌, OnOk, true};
ghost use Rattle.hs_awaiting.specs.Words.{each};
ghost use Rattle.hs_core_words.specs.Changing.{change_rejoin};
ghost use Rattle.hs_core_words.specs.Joining.{begin_joining, follow_lead, join, join_if_level, joining_peers, start};
ghost use Rattle.hs_core_state.specs.Keeping.{KeepsCore};
ghost use Rattle.hs_core_words.specs.Looking.{status_of};
ghost use Rattle.hs_core_words.specs.Reporting.{take_copied, take_emptied};
ghost use Rattle.hs_members.specs.Members.{IsPeer, IsShard, is_down};
ghost use Rattle.hs_rejoin.specs.Rejoin.{follow};

use crate::effects::commit;
use hs_core_state::{NoMemory, State};
use hs_limits::peer_of;
use hs_rejoin::Rejoin;

/// A peer that is down starts to join.
pub(crate) fn start(core: &mut State, peer: u8) -> Result<(), NoMemory>
    requires peer { IsPeer core.old.members.shape peer }
    requires down { is_down (status_of peer core.old) ≡ true }
    ensures ok { OnOk result (core.new ≡ start peer core.old) }
    ensures kept { KeepsCore core.old core.new }
{
    core.make_joining(peer)?;
    begin_joining(core, peer);
    Ok(())
}

/// A joining peer begins, or begins again, with the lead that there is. It takes no memory.
pub(crate) fn begin_joining(core: &mut State, peer: u8)
    requires { IsPeer core.old.members.shape peer }
    ensures ok { core.new ≡ begin_joining peer core.old }
    ensures kept { KeepsCore core.old core.new }
{
    let rejoin = match core.lead(core.home(peer)) {
        Some(lead) => Some(Rejoin::new(lead)),
        None => None,
    };
    core.set_rejoin(peer, rejoin);
}

/// The joining peers of a shard copy from its lead on. It takes no memory.
pub(crate) fn follow_lead(core: &mut State, shard: u8)
    requires { IsShard core.old.members.shape shard }
    ensures ok { core.new ≡ follow_lead shard core.old }
    ensures kept { KeepsCore core.old core.new }
{
    if let Some(lead) = core.lead(shard) {
        follow(core, shard, lead);
    }
}

/// The joining peers of a shard copy from this peer on.
fn follow(core: &mut State, shard: u8, lead: u8)
    requires { IsShard core.old.members.shape shard }
    ensures ok { core.new
        ≡ each (joining_peers shard core.old) (λ peer. change_rejoin peer (follow lead)) core.old }
    ensures kept { KeepsCore core.old core.new }
{
    let shape = core.shape();
    let first = peer_of(shard, 0, shape);
    let last = first + shape.copies;
    for peer in first..last {
        core.follow_if_joining(peer, lead);
    }
}

/// A joining peer's disk was emptied.
pub(crate) fn take_emptied(core: &mut State, peer: u8) -> Result<(), NoMemory>
    requires { IsPeer core.old.members.shape peer }
    ensures ok { OnOk result (core.new ≡ take_emptied peer core.old) }
    ensures kept { KeepsCore core.old core.new }
{
    core.empty_copy(peer);
    join_if_level(core, peer)
}

/// A joining peer's disk got the lead's entry of this number.
pub(crate) fn take_copied(core: &mut State, peer: u8, number: u64) -> Result<(), NoMemory>
    requires { IsPeer core.old.members.shape peer }
    ensures ok { OnOk result (core.new ≡ take_copied peer number core.old) }
    ensures kept { KeepsCore core.old core.new }
{
    core.add_copied(peer, number)?;
    join_if_level(core, peer)
}

/// A joining peer whose list is as long as the lead's is good, and the view rises.
pub(crate) fn join_if_level(core: &mut State, peer: u8) -> Result<(), NoMemory>
    requires { IsPeer core.old.members.shape peer }
    ensures ok { OnOk result (core.new ≡ join_if_level peer core.old) }
    ensures kept { KeepsCore core.old core.new }
{
    if core.is_level(peer) {
        join(core, peer)?;
    }
    Ok(())
}

/// A peer is good, the view rises, the joining peers copy from the lead that there is now, and what
/// all good peers have sealed takes effect.
fn join(core: &mut State, peer: u8) -> Result<(), NoMemory>
    requires { IsPeer core.old.members.shape peer }
    ensures ok { OnOk result (core.new ≡ join peer core.old) }
    ensures kept { KeepsCore core.old core.new }
{
    let shard = core.home(peer);
    core.make_good(peer)?;
    core.change_view(shard)?;
    follow_lead(core, shard);
    commit(core, shard)
}
