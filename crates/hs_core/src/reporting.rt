//! What the report of a job brings.
ghost use Rattle.std.specs.Prelude.{◌≡◌, OnOk};
ghost use Rattle.hs_core_state.specs.Keeping.{KeepsCore};
ghost use Rattle.hs_core_words.specs.Reporting.{on_report, take_report, take_sealed};
ghost use Rattle.hs_members.specs.Members.{IsPeer};

use crate::effects::commit;
use crate::failing::fail_disk;
use crate::joining::{take_copied, take_emptied};
use crate::resuming::tell_bytes;
use hs_core_state::{NoMemory, State};
use hs_desk::Done;

/// A report is taken where it answers the peer's first job, which is then taken out; else it
/// changes nothing.
#[tactic(auto, using(crate::proofs::ReportLemmas::report_some, crate::proofs::ReportLemmas::report_none))]
pub(crate) fn on_report(core: &mut State, peer: u8, done: Done) -> Result<(), NoMemory>
    ensures ok { OnOk result (core.new ≡ on_report peer done core.old) }
    ensures kept { KeepsCore core.old core.new }
{
    let shape = core.shape();
    if peer >= shape.shards * shape.copies {
        return Ok(());
    }
    let Some(line) = core.answered_line(peer, &done) else {
        return Ok(());
    };
    core.drop_first_task(peer);
    take_report(core, peer, line, done)
}

/// What a report brings.
fn take_report(core: &mut State, peer: u8, line: u64, done: Done) -> Result<(), NoMemory>
    requires { IsPeer core.old.members.shape peer }
    ensures ok { OnOk result (core.new ≡ take_report peer line done core.old) }
    ensures kept { KeepsCore core.old core.new }
{
    match done {
        Done::Stored { .. } | Done::Stepped { .. } => Ok(()),
        Done::Sealed { number } => take_sealed(core, peer, number),
        Done::Bytes { number, bytes } => tell_bytes(core, line, number, Some(bytes)),
        Done::Gone { number } => tell_bytes(core, line, number, None),
        Done::Emptied => take_emptied(core, peer),
        Done::Copied { number } => take_copied(core, peer, number),
        Done::Failed { disk } => fail_disk(core, disk),
    }
}

/// A peer has sealed an entry: another than the lead sends a Have, and what is committed takes
/// effect.
fn take_sealed(core: &mut State, peer: u8, number: u64) -> Result<(), NoMemory>
    requires { IsPeer core.old.members.shape peer }
    ensures ok { OnOk result (core.new ≡ take_sealed peer number core.old) }
    ensures kept { KeepsCore core.old core.new }
{
    let shard = core.home(peer);
    core.seal_known(peer, number)?;
    commit(core, shard)
}
