//! What is told of sweeps.
ghost use Rattle.std.specs.Prelude.{◌≡◌, OnOk, nat_le};
ghost use Rattle.std.specs.List.{list_all};
ghost use Rattle.hs_core_words.specs.Effects.{note_sweep};
ghost use Rattle.hs_core_state.specs.Keeping.{KeepsCore};
ghost use Rattle.hs_members.specs.Members.{IsShard};

use crate::State;
use crate::no_memory::NoMemory;
use hs_journal::Who;
use hs_model::{Deed, Reply};
use hs_shard::Catalogue;

impl State {
    /// A shard has swept, and maybe it was the last to.
    pub fn note_sweep(&mut self, shard: u8, removed: u32) -> Result<(), NoMemory>
        requires { IsShard self.old.members.shape shard }
        ensures ok { OnOk result (self.new ≡ note_sweep shard removed self.old) }
        ensures kept { KeepsCore self.old self.new }
    {
        let _shape = self.shape();
        let epoch = self.catalogues[usize::from(shard)].swept();
        let all = have_swept(self.catalogues.as_slice(), epoch);
        self.note(
            Who::Shard(shard),
            Deed::Swept { shard },
            Reply::Sweep { epoch, removed },
        )?;
        if all {
            self.note(Who::Store, Deed::Nothing, Reply::Done { epoch })?;
        }
        Ok(())
    }
}

/// Whether all shards have swept an epoch.
fn have_swept(catalogues: &[Catalogue], epoch: u64) -> bool
    ensures { result ≡ list_all (λ c. nat_le epoch c.swept) catalogues.now }
{
    catalogues
        .iter()
        .all(|catalogue| epoch <= catalogue.swept())
}
