//! What a core counts.
ghost use Rattle.std.specs.Prelude.{◌≡◌};
ghost use Rattle.hs_load.specs.Tallied.{blocks_in, roots_in};

use hs_core::Core;

/// The present blocks of all shards. It takes no memory.
pub(crate) fn blocks_in(core: &Core) -> u64
    ensures { result ≡ blocks_in core.now }
{
    let shape = core.shape();
    let mut sum = 0;
    for shard in 0..shape.shards {
        sum += u64::from(core.catalogue(shard).count());
    }
    sum
}

/// The retained roots of all shards. It takes no memory.
pub(crate) fn roots_in(core: &Core) -> u64
    ensures { result ≡ roots_in core.now }
{
    let shape = core.shape();
    let mut sum = 0;
    for shard in 0..shape.shards {
        sum += u64::from(core.catalogue(shard).roots().retained());
    }
    sum
}
