//! What a catalogue has in a plain store.
ghost use Rattle.std.specs.Prelude.{◌≡◌, IsOkUnless, OnOk, slice_set};
ghost use Rattle.hs_model.specs.Plain.{IsPlain, plain_of};
ghost use Rattle.hs_shard.specs.declared.fault.ShardFault.TheVariants.{NoMemory};
ghost use Rattle.hs_shard.specs.Plain.{add_shard};

use crate::ShardFault;
use crate::catalogue::Catalogue;
use crate::plain_roots::add_roots;
use hs_limits::ListOf;
use hs_model::PlainStore;
use std::mem::replace;

impl Catalogue {
    /// Puts what the shard has into a plain store that has nothing of it yet: its blocks without
    /// their data, what was given, its roots, its epoch and the last one that it swept. The only
    /// fault is NoMemory; after it nothing is said of that store.
    pub fn plain(&mut self, into: &mut PlainStore) -> Result<(), ShardFault>
        requires plain { IsPlain into.old }
        ensures ok { OnOk result (plain_of into.new ≡ add_shard self.old (plain_of into.old)) }
        ensures plain { OnOk result (IsPlain into.new) }
        ensures shape { OnOk result (into.new.shape ≡ into.old.shape) }
        ensures same { self.new ≡ self.old }
        ensures only { IsOkUnless result NoMemory }
    {
        let alloc = self.alloc;
        let blocks = replace(&mut into.blocks, ListOf::new(alloc));
        into.blocks = self.blocks.with_blocks(blocks)?;
        let given = replace(&mut into.given, ListOf::new(alloc));
        into.given = self.blocks.with_given(given)?;
        let roots = replace(&mut into.roots, ListOf::new(alloc));
        into.roots = add_roots(alloc, self.roots.records(), roots)?;
        let epochs = replace(&mut into.epochs, ListOf::new(alloc));
        into.epochs = with_number(epochs, self.shard, self.epoch);
        let swept = replace(&mut into.swept, ListOf::new(alloc));
        into.swept = with_number(swept, self.shard, self.swept);
        Ok(())
    }
}

/// Some numbers with this one at the place of a shard, if it has one there. It takes no memory.
fn with_number(numbers: ListOf<u64>, shard: u8, number: u64) -> ListOf<u64>
    ensures { result ≡ slice_set numbers shard number }
{
    let mut numbers = numbers.into_vec();
    if let Some(place) = numbers.get_mut(usize::from(shard)) {
        *place = number;
    }
    ListOf::from_vec(numbers)
}
