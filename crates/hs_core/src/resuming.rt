//! Operations that waited go on.
ghost use Rattle.std.specs.Prelude.{◌≡◌, OnOk};
ghost use Rattle.hs_awaiting.specs.Words.{each};
ghost use Rattle.hs_core_words.specs.Effects.{is_for_view, wakes};
ghost use Rattle.hs_core_state.specs.Keeping.{KeepsCore};
ghost use Rattle.hs_core_words.specs.Operating.{resume, resume_where};
ghost use Rattle.hs_core_words.specs.Reporting.{tell_bytes};

use crate::going::{go_by, resume};
use hs_awaiting::Next;
use hs_core_state::{NoMemory, State};
use hs_entry::Entry;
use hs_limits::Address;
use hs_shared::SharedBytes;

/// What waited for the View of a shard's view goes on, by line.
pub(crate) fn resume_viewed(core: &mut State, shard: u8) -> Result<(), NoMemory>
    ensures ok { OnOk result (core.new ≡ resume_where shard is_for_view core.old) }
    ensures kept { KeepsCore core.old core.new }
{
    let lines = core.lines_for_view(shard)?;
    resume_each(core, lines.as_slice())
}

/// What waited for such an entry goes on, by line; `address` is that of the block that it stores.
pub(crate) fn resume_woken(
    core: &mut State,
    shard: u8,
    entry: &Entry,
    address: Option<Address>,
) -> Result<(), NoMemory>
    ensures ok { OnOk result
        (core.new ≡ resume_where shard (wakes entry.now address core.old) core.old) }
    ensures kept { KeepsCore core.old core.new }
{
    let lines = core.lines_woken(shard, entry, address)?;
    resume_each(core, lines.as_slice())
}

/// The operations of some lines go on, in this order.
#[tactic(auto, using(crate::proofs::KeptLemmas::kept_then))]
fn resume_each(core: &mut State, lines: &[u64]) -> Result<(), NoMemory>
    ensures ok { OnOk result (core.new ≡ each lines.now resume core.old) }
    ensures kept { KeepsCore core.old core.new }
{
    for line in lines {
        resume(core, *line)?;
    }
    Ok(())
}

/// The bytes of an entry, None where it is gone, are for the operation of a line, where it still
/// waits for them.
pub(crate) fn tell_bytes(
    core: &mut State,
    line: u64,
    number: u64,
    bytes: Option<SharedBytes>,
) -> Result<(), NoMemory>
    ensures ok { OnOk result (core.new
        ≡ tell_bytes line number bytes core.old) }
    ensures kept { KeepsCore core.old core.new }
{
    if !core.is_reading(line, number) {
        return Ok(());
    }
    go_by(core, line, &Next::Bytes { bytes })
}
