//! A copy of what a present block points to.
ghost use Rattle.std.specs.Prelude.{[], ◌≡◌, IfOk, IsOkUnless};
ghost use Rattle.std.specs.Option.{option_map_or};
ghost use Rattle.hs_shard.specs.declared.fault.ShardFault.TheVariants.{NoMemory};
ghost use Rattle.hs_shard.specs.Facts.{facts_at};

use crate::ShardFault;
use crate::catalogue::Catalogue;
use hs_limits::{Address, ListOf};

impl Catalogue {
    /// A copy of what the present block of an address points to; nothing where there is none. The
    /// only fault is NoMemory.
    pub fn copy_pointers(&mut self, address: &Address) -> Result<ListOf<Address>, ShardFault>
        ensures value { IfOk result (λ pointers. pointers
            ≡ option_map_or (λ facts. facts.pointers) (facts_at address.now self.old) []) }
        ensures only { IsOkUnless result NoMemory }
        ensures same { self.new ≡ self.old }
    {
        match self.blocks.get(address) {
            Some(facts) => Ok(facts.pointers.copy(self.alloc)?),
            None => Ok(ListOf::new(self.alloc)),
        }
    }
}
