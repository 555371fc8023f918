//! What an entry does to its shard.
ghost use Rattle.std.specs.Prelude.{◌≡◌, IfOk, OnOk, true};
ghost use Rattle.hs_core_words.specs.Changing.{set_catalogue, set_viewed};
ghost use Rattle.hs_core_state.specs.Keeping.{KeepsCore};
ghost use Rattle.hs_core_words.specs.Looking.{catalogue_of};
ghost use Rattle.hs_members.specs.Members.{IsShard};
ghost use Rattle.hs_shard.specs.Apply.{apply};

use crate::State;
use crate::no_memory::NoMemory;
use hs_entry::Entry;
use hs_limits::Address;
use hs_shard::Effect;

impl State {
    /// What an entry does to its shard's catalogue. Where the catalogue can't take the entry under
    /// this number, the answer is NoMemory.
    pub fn apply(
        &mut self,
        shard: u8,
        number: u64,
        entry: &Entry,
        named: Option<Address>,
    ) -> Result<Effect, NoMemory>
        requires { IsShard self.old.members.shape shard }
        ensures ok { OnOk result (self.new ≡ set_catalogue shard
            (apply number entry.now named (catalogue_of shard self.old)).catalogue self.old) }
        ensures effect { IfOk result (λ effect. effect
            ≡ (apply number entry.now named (catalogue_of shard self.old)).effect) }
        ensures kept { KeepsCore self.old self.new }
    {
        let _shape = self.shape();
        let catalogue = &mut self.catalogues[usize::from(shard)];
        if !catalogue.may_take(number, entry, named) {
            return Err(NoMemory);
        }
        match catalogue.apply(number, entry, named) {
            Ok(effect) => Ok(effect),
            Err(_) => Err(NoMemory),
        }
    }

    /// The View of a shard's current view has taken effect. It takes no memory.
    pub fn reach(&mut self, shard: u8)
        requires { IsShard self.old.members.shape shard }
        ensures ok { self.new ≡ set_viewed shard true self.old }
        ensures kept { KeepsCore self.old self.new }
    {
        let _shape = self.shape();
        self.viewed[usize::from(shard)] = true;
    }
}
