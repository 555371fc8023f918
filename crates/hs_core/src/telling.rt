//! What is told of sweeps, of Enters that no line asked for, and of events that are refused.
ghost use Rattle.std.specs.Prelude.{◌≡◌, OnOk};
ghost use Rattle.hs_core_words.specs.Changing.{refuse};
ghost use Rattle.hs_core_words.specs.Effects.{note_enter, tell_enter};
ghost use Rattle.hs_core_state.specs.Keeping.{KeepsCore};

use crate::going::tell_operation;
use hs_core_state::{NoMemory, State};
use hs_desk::What;
use hs_journal::Who;
use hs_model::{Deed, Reply};

/// The refusal of a line that is not a client's.
pub(crate) fn refuse_event(core: &mut State, line: u64, reply: Reply) -> Result<(), NoMemory>
    ensures ok { OnOk result (core.new ≡ refuse line reply core.old) }
    ensures kept { KeepsCore core.old core.new }
{
    core.note(Who::Line(line), Deed::Nothing, reply)
}

/// The operation that asked for an Enter hears what it did; one that no line asked for is told by
/// its shard.
pub(crate) fn tell_enter(core: &mut State, shard: u8, line: u64, did: What) -> Result<(), NoMemory>
    ensures ok { OnOk result (core.new ≡ tell_enter shard line did core.old) }
    ensures kept { KeepsCore core.old core.new }
{
    if core.is_awaited(line) {
        tell_operation(core, line, did)
    } else {
        note_enter(core, shard, did)
    }
}

/// An Enter that no line asked for is told by its shard.
fn note_enter(core: &mut State, shard: u8, did: What) -> Result<(), NoMemory>
    ensures ok { OnOk result (core.new ≡ note_enter shard did core.old) }
    ensures kept { KeepsCore core.old core.new }
{
    match did {
        What::Entered { epoch } => core.note(
            Who::Shard(shard),
            Deed::Entered { shard },
            Reply::Enter { epoch },
        ),
        What::Nothing
        | What::Viewed { .. }
        | What::Stored
        | What::Marked
        | What::Again
        | What::Rooted
        | What::Dropped
        | What::Refused => Ok(()),
    }
}
