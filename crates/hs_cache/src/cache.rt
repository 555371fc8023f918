//! Bytes under their shard and their number, the last used first.
ghost use Rattle.std.specs.Prelude.{◌≡◌, ◌<◌, [], IfOk, OnErr, OnOk};
ghost use Rattle.std.specs.Map.{lookup};
ghost use Rattle.hs_cache.specs.Cached.{cached, is_key, promoted_at, put_at};

use crate::CacheFault;
use hs_shared::SharedBytes;
use lru::LruCache;
use std::alloc::Global;
use std::marker::Model;
use std::num::NonZeroUsize;

/// Bytes that were read lately, each under its shard and its number. Where it is full the
/// last used of all goes for a new one. Contracts see the list of what is kept, the last used first,
/// and how much there may be.
#[derive(Drop)]
pub struct Cache {
    kept: LruCache<(u8, u64), SharedBytes>,
}

impl Model for Cache {
    ghost use Rattle.hs_cache.specs.Cached.{Cached};

    ghost Value = { Cached };

    ghost view = { λ a. a.kept };
}

impl Cache {
    /// An empty cache of at most so many bytes that were read. It reserves no room.
    pub fn new(alloc: Global, limit: u32) -> Result<Cache, CacheFault>
        requires least { 0 < limit }
        ensures { IfOk result (λ cache. cache ≡ cached [] limit) }
    {
        let Some(limit) = NonZeroUsize::new(limit as usize) else {
            return Err(CacheFault::NoMemory);
        };
        let kept = LruCache::sparse(alloc, limit)?;
        Ok(Cache { kept })
    }

    /// What is kept under a number of a shard, which it brings to the front. None exactly where
    /// nothing is kept there. It fails only where no more owners of the bytes can be counted, and then
    /// too these are in front. It takes no memory.
    #[tactic(auto, using(crate::proofs::LookupLemmas::lookup_promoted))]
    pub fn get(&mut self, shard: u8, number: u64) -> Result<Option<SharedBytes>, CacheFault>
        ensures kept { self.new ≡ cached (promoted_at shard number self.old.entries) self.old.cap }
        ensures value { IfOk result (λ found.
            found ≡ lookup (is_key shard number) self.old.entries) }
    {
        let key = (shard, number);
        self.kept.promote(&key);
        let Some(bytes) = self.kept.peek(&key) else {
            return Ok(None);
        };
        let bytes = bytes.copy()?;
        Ok(Some(bytes))
    }

    /// Keeps bytes under a number of a shard, in front. Where the cache is full and has no such number
    /// the last one goes. Without memory all is as before; and what is there already always finds it.
    pub fn put(&mut self, shard: u8, number: u64, bytes: SharedBytes) -> Result<(), CacheFault>
        ensures kept { OnOk result (self.new ≡ cached (put_at shard number bytes self.old) self.old.cap) }
        ensures same { OnErr result (self.new ≡ self.old) }
    {
        self.kept.put((shard, number), bytes)?;
        Ok(())
    }
}
