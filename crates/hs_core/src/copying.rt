//! A Copy comes to a peer.
ghost use Rattle.std.specs.Prelude.{◌≡◌, OnOk};
ghost use Rattle.hs_core_words.specs.Delivering.{on_copy};
ghost use Rattle.hs_core_state.specs.Keeping.{KeepsCore};
ghost use Rattle.hs_core_words.specs.Looking.{group_of};
ghost use Rattle.hs_members.specs.Members.{IsShard};
ghost use Rattle.hs_replica.specs.Group.{last_number};

use crate::joining::follow_lead;
use hs_core_state::{NoMemory, State};
use hs_entry::Entry;

/// A Copy comes to a peer. It is taken exactly where the peer is good, the view is the shard's, and
/// the number is the next of its list: then the peer has the jobs of it, and the joining peers copy
/// from the lead that there is now.
pub(crate) fn on_copy(
    core: &mut State,
    shard: u8,
    peer: u8,
    view: u64,
    number: u64,
    entry: Entry,
) -> Result<(), NoMemory>
    ensures ok { OnOk result (core.new ≡ on_copy shard peer view number entry core.old) }
    ensures kept { KeepsCore core.old core.new }
{
    if shard >= core.shape().shards {
        return Ok(());
    }
    if core.append(shard, peer, view, number, &entry)? {
        core.add_entry_tasks(peer, number, entry)?;
        follow_lead(core, shard);
    }
    Ok(())
}

/// The number of the last entry of a lead's list. It takes no memory.
pub(crate) fn last_number(core: &State, shard: u8) -> u64
    requires { IsShard core.now.members.shape shard }
    ensures { result ≡ last_number (group_of shard core.now) }
{
    core.group(shard).last_number()
}
