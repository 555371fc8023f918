//! When a shard's lead proposes an Enter that nobody asked it for.
ghost use Rattle.std.specs.Prelude.{◌≡◌, ◌+◌, OnOk};
ghost use Rattle.hs_core_words.specs.Entering.{is_enter_due, propose_due};
ghost use Rattle.hs_core_state.specs.Keeping.{KeepsCore};
ghost use Rattle.hs_core_words.specs.Looking.{catalogue_of};
ghost use Rattle.hs_members.specs.Members.{IsShard};

use hs_core_state::{NoMemory, State};
use hs_entry::Entry;

/// The Enter of the next epoch is proposed where it is due. Where an epoch has no next one the
/// answer is NoMemory.
pub(crate) fn propose_due(core: &mut State, shard: u8) -> Result<(), NoMemory>
    requires { IsShard core.old.members.shape shard }
    ensures ok { OnOk result (core.new ≡ propose_due shard core.old) }
    ensures kept { KeepsCore core.old core.new }
{
    let Some(next) = core.catalogue(shard).epoch().checked_add(1) else {
        return Err(NoMemory);
    };
    if is_enter_due(core, shard, next) {
        core.propose_entry(shard, Entry::Enter { op: 0, epoch: next })?;
    }
    Ok(())
}

/// Whether the Enter of the next epoch is due: in a shard other than 0 where round 0 of that
/// epoch has come, its own epoch is swept, and the lead's list has no such Enter.
fn is_enter_due(core: &State, shard: u8, next: u64) -> bool
    requires shard { IsShard core.now.members.shape shard }
    requires next { next ≡ (catalogue_of shard core.now).epoch + 1 }
    ensures { result ≡ is_enter_due shard core.now }
{
    let catalogue = core.catalogue(shard);
    shard != 0
        && catalogue.swept() == catalogue.epoch()
        && catalogue.run().has_come(next, 0)
        && !core.group(shard).waits_to_enter(next)
}
