//! How an operation goes on.
ghost use Rattle.std.specs.Prelude.{◌≡◌, OnOk};
ghost use Rattle.hs_core_words.specs.Effects.{tell_operation};
ghost use Rattle.hs_core_state.specs.Going.{go_by};
ghost use Rattle.hs_core_state.specs.Keeping.{KeepsCore};
ghost use Rattle.hs_core_words.specs.Operating.{resume};

use crate::carrying::carry_out;
use hs_awaiting::Next;
use hs_core_state::{NoMemory, State};
use hs_desk::What;

/// The operation of a line goes on, where it has no answer.
pub(crate) fn resume(core: &mut State, line: u64) -> Result<(), NoMemory>
    ensures ok { OnOk result (core.new ≡ resume line core.old) }
    ensures kept { KeepsCore core.old core.new }
{
    go_by(core, line, &Next::Go)
}

/// The operation of a line hears what its entry did.
pub(crate) fn tell_operation(core: &mut State, line: u64, did: What) -> Result<(), NoMemory>
    ensures ok { OnOk result (core.new ≡ tell_operation line did core.old) }
    ensures kept { KeepsCore core.old core.new }
{
    go_by(core, line, &Next::Effect { did })
}

/// The operation of a line goes on, where it has no answer.
pub(crate) fn go_by(core: &mut State, line: u64, how: &Next) -> Result<(), NoMemory>
    ensures ok { OnOk result (core.new ≡ go_by how.now line core.old) }
    ensures kept { KeepsCore core.old core.new }
{
    let Some(aim) = core.aim_at(line) else {
        return Ok(());
    };
    let judged = core.judge_at(line, aim, how)?;
    carry_out(core, line, aim, judged)
}
