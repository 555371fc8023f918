//! What clients' entries do.
ghost use Rattle.std.specs.Prelude.{[], ◌≡◌, ◌==◌, ◌*◌, None, false, IfOk, IsOkUnless, length};
ghost use Rattle.std.specs.Option.{option_map_or};
ghost use Rattle.hs_limits.specs.Reading.{addresses, read_block};
ghost use Rattle.hs_shard.specs.declared.fault.ShardFault.TheVariants.{NoMemory};
ghost use Rattle.hs_shard.specs.Clients.{applied, drop_root, mark_block, put_root, store_block};
ghost use Rattle.hs_shard.specs.Facts.{facts_at, has_room, is_fresh, is_mine, pointers_at};

use crate::catalogue::Catalogue;
use crate::{Effect, ShardFault};
use hs_desk::What;
use hs_limits::{Address, Key, Limits, ListOf, parts_of, shard_of, shard_of_key};
use hs_roots::RootFault;
use std::alloc::{AllocError, Global};

impl Catalogue {
    /// A Block stores a block.
    pub(crate) fn store_block(
        &mut self,
        number: u64,
        least: u64,
        address: Address,
        bytes: &[u8],
    ) -> Result<Effect, ShardFault>
        requires { pointers_at number self.old.blocks ≡ None }
        ensures ok { IfOk result (λ effect. applied self.new effect
            ≡ store_block number least address (read_block bytes.now) self.old) }
        ensures only { IsOkUnless result NoMemory }
    {
        let Ok((count, pointers, _)) = parts_of(bytes) else {
            return Ok(self.only(What::Nothing));
        };
        if !self.is_mine(&address) || self.blocks.get(&address).is_some() {
            return Ok(self.only(What::Nothing));
        }
        if !self.is_fresh(least) || !self.has_room() {
            return Ok(self.only(What::Refused));
        }
        let pointers = ListOf::from_vec(addresses_of(self.alloc, count, pointers)?);
        self.blocks.store(address, number, self.epoch, pointers)?;
        Ok(self.only(What::Stored))
    }

    /// A Mark gives a block. It takes no memory.
    pub(crate) fn mark_block(&mut self, least: u64, number: u64, address: &Address) -> Effect
        ensures { applied self.new result ≡ mark_block least number address.now self.old }
    {
        if !self.is_stored_by(address, number) {
            return self.only(What::Again);
        }
        if !self.is_fresh(least) {
            return self.only(What::Refused);
        }
        self.blocks.give(address, self.epoch);
        self.only(What::Marked)
    }

    /// A Root retains an address under a key.
    pub(crate) fn put_root(
        &mut self,
        held: u64,
        address: Address,
        key: &Key,
    ) -> Result<Effect, ShardFault>
        ensures ok { IfOk result (λ effect. applied self.new effect
            ≡ put_root held address key.now self.old) }
        ensures only { IsOkUnless result NoMemory }
    {
        if shard_of_key(key, self.shape) != self.shard {
            return Ok(self.only(What::Nothing));
        }
        if !self.is_fresh(held) {
            return Ok(self.only(What::Refused));
        }
        match self.roots.put(key, address, self.epoch) {
            Ok(()) => Ok(self.only(What::Rooted)),
            Err(RootFault::NoMemory) => Err(ShardFault::NoMemory),
            Err(_) => Ok(self.only(What::Refused)),
        }
    }

    /// A Drop ends the retention of a key. It takes no memory.
    pub(crate) fn drop_root(&mut self, key: &Key) -> Effect
        ensures { applied self.new result ≡ drop_root key.now self.old }
    {
        match self.roots.drop_key(key, self.epoch) {
            Ok(()) => self.only(What::Dropped),
            Err(_) => self.only(What::Refused),
        }
    }

    /// An effect that sends and removes nothing. It takes no memory.
    pub(crate) fn only(&self, what: What) -> Effect
        ensures { result ≡ record { what = what; sends = []; removed = None } }
    {
        Effect {
            what,
            sends: ListOf::new(self.alloc),
            removed: None,
        }
    }

    /// Whether an address is of this shard.
    fn is_mine(&self, address: &Address) -> bool
        ensures { result ≡ is_mine address.now self.now }
    {
        shard_of(address, self.shape) == self.shard
    }

    /// Whether what was given in an epoch may still be used.
    fn is_fresh(&self, held: u64) -> bool
        ensures { result ≡ is_fresh held self.now }
    {
        self.epoch.saturating_sub(1) <= held
    }

    /// Whether there is room for one block more.
    fn has_room(&self) -> bool
        ensures { result ≡ has_room self.now }
    {
        self.blocks.len() < Limits::greatest().blocks
    }

    /// Whether the block of an address was stored by the entry of a number.
    fn is_stored_by(&self, address: &Address, number: u64) -> bool
        ensures { result ≡ option_map_or (λ f. f.number == number) (facts_at address.now self.now) false }
    {
        match self.blocks.get(address) {
            Some(facts) => facts.number == number,
            None => false,
        }
    }
}

/// As many addresses as the bytes hold, 32 bytes each.
fn addresses_of(alloc: Global, count: u16, bytes: &[u8]) -> Result<Vec<Address>, AllocError>
    requires { length bytes.now ≡ 32 * count }
    ensures { IfOk result (λ pointers. pointers.items ≡ addresses count bytes.now) }
{
    let mut pointers = Vec::with_capacity(alloc, count as usize)?;
    let mut rest = bytes;
    for _ in 0..count {
        let (front, behind) = rest.split_at(32);
        let mut address = Address([0; 32]);
        address.0.copy_from_slice(front);
        pointers.push(address)?;
        rest = behind;
    }
    Ok(pointers)
}
