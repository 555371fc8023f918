//! Entries that take effect.
ghost use Rattle.hs_shard.specs.Apply.{MayTake};

use hs_entry::Entry;
use hs_limits::Address;
use hs_shard::{Catalogue, ShardFault};

/// An entry takes effect. How many blocks went, where it ended a run.
pub fn take(
    catalogue: &mut Catalogue,
    number: u64,
    entry: Entry,
    named: Option<Address>,
) -> Result<Option<u32>, ShardFault>
    requires { MayTake number entry named catalogue.old }
{
    let effect = catalogue.apply(number, &entry, named)?;
    Ok(effect.removed)
}
