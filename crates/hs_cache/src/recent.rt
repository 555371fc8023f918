//! A cache, or none: where there is none nothing is kept.
ghost use Rattle.std.specs.Prelude.{◌≡◌, ◌⊎◌, Contains, IfSome};
ghost use Rattle.std.specs.Option.{option_map};
ghost use Rattle.hs_cache.specs.Cached.{HasNoMore, pairs_of, with_pair};

use crate::Cache;
use hs_shared::SharedBytes;

/// What is kept under a number of a shard, which comes to the front. It takes no memory. None too
/// where no more owners of the bytes can be counted.
pub fn recall(cache: &mut Option<Cache>, shard: u8, number: u64) -> Option<SharedBytes>
    ensures found { IfSome result (λ bytes.
        Contains (pairs_of cache.old) ((shard, number), bytes)) }
    ensures fewer { HasNoMore cache.old cache.new }
{
    let Some(kept) = cache else {
        return None;
    };
    let Ok(found) = kept.get(shard, number) else {
        return None;
    };
    found
}

/// Keeps bytes under a number of a shard, in front; without memory all is as before.
pub fn remember(cache: &mut Option<Cache>, shard: u8, number: u64, bytes: &SharedBytes)
    ensures { (cache.new ≡ option_map (with_pair shard number bytes.now) cache.old)
        ⊎ (cache.new ≡ cache.old) }
{
    let Some(kept) = cache else {
        return;
    };
    let Ok(shared) = bytes.copy() else {
        return;
    };
    let _kept = kept.put(shard, number, shared);
}
