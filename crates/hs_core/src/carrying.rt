//! What the step of an operation asks for is done.
ghost use Rattle.std.specs.Prelude.{◌≡◌, ◌+◌, IfSome, OnOk};
ghost use Rattle.hs_awaiting.specs.declared.wait.Wait.TheVariants as wait;
ghost use Rattle.hs_awaiting.specs.Words.{change_with, ◌▸◌};
ghost use Rattle.hs_core_state.specs.Going.{answer_with, carry_by, set_wait};
ghost use Rattle.hs_core_state.specs.Keeping.{KeepsCore};
ghost use Rattle.hs_core_words.specs.Looking.{group_of, lead_of, operation_of};
ghost use Rattle.hs_core_words.specs.Operating.{add_read, propose_entry};
ghost use Rattle.hs_members.specs.Members.{IsShard};
ghost use Rattle.hs_replica.specs.Group.{last_number};

use hs_awaiting::{Judged, Wait};
use hs_core_state::{Aim, NoMemory, State};
use hs_core_words::Task;
use hs_desk::Job;
use hs_entry::Entry;
use hs_limits::{Held, ListOf};
use hs_model::Reply;
use hs_ops::OpStep;

/// What the step of a line's operation asks for is done.
pub(crate) fn carry_out(
    core: &mut State,
    line: u64,
    aim: Aim,
    judged: Judged,
) -> Result<(), NoMemory>
    requires { IsShard core.old.members.shape aim.shard }
    ensures ok { OnOk result
        (core.new ≡ carry_by aim line judged.step judged.helds core.old) }
    ensures kept { KeepsCore core.old core.new }
{
    let Judged { step, helds } = judged;
    match step {
        OpStep::Answer(reply) => answer(core, line, reply, helds),
        OpStep::Propose(entry) => propose_for(core, line, aim.shard, entry),
        OpStep::Compare { number } => compare(core, line, aim.shard, number),
        OpStep::Wait => {
            let what = core.holds_by(aim);
            core.set_wait(line, what)
        }
    }
}

/// An operation is answered, where its reply gives these to hold: it is over, the journal tells
/// it, and its session changes as the reply says.
pub(crate) fn answer(
    core: &mut State,
    line: u64,
    reply: Reply,
    helds: ListOf<Held>,
) -> Result<(), NoMemory>
    ensures ok { OnOk result (core.new
        ≡ (core.old ▸ change_with (operation_of line core.old) (answer_with line reply helds))) }
    ensures kept { KeepsCore core.old core.new }
{
    let Some(waiting) = core.end_operation(line)? else {
        return Ok(());
    };
    core.tell_answer(line, waiting, reply, helds)
}

/// An operation proposes its entry, and waits for it.
fn propose_for(core: &mut State, line: u64, shard: u8, entry: Entry) -> Result<(), NoMemory>
    requires { IsShard core.old.members.shape shard }
    ensures ok { OnOk result (core.new ≡ (core.old
        ▸ set_wait line (wait.Entry (last_number (group_of shard core.old) + 1))
        ▸ propose_entry shard entry)) }
    ensures kept { KeepsCore core.old core.new }
{
    let Some(number) = next_number(core, shard) else {
        return Err(NoMemory);
    };
    core.set_wait(line, Wait::Entry { number })?;
    core.propose_entry(shard, entry)
}

/// An operation wants the bytes of an entry, which the lead is to read.
fn compare(core: &mut State, line: u64, shard: u8, number: u64) -> Result<(), NoMemory>
    requires { IsShard core.old.members.shape shard }
    ensures ok { OnOk result (core.new ≡ (core.old ▸ set_wait line (wait.Bytes number)
        ▸ change_with (lead_of shard core.old) (add_read number line))) }
    ensures kept { KeepsCore core.old core.new }
{
    let lead = core.lead(shard);
    core.set_wait(line, Wait::Bytes { number })?;
    if let Some(peer) = lead {
        let job = Job::Read { number };
        core.add_task(peer, Task { job, line })?;
    }
    Ok(())
}

/// The lead of a shard is to read an entry for the operation of a line.
pub(crate) fn read_for(core: &mut State, line: u64, shard: u8, number: u64) -> Result<(), NoMemory>
    requires { IsShard core.old.members.shape shard }
    ensures ok { OnOk result (core.new
        ≡ change_with (lead_of shard core.old) (add_read number line) core.old) }
    ensures kept { KeepsCore core.old core.new }
{
    if let Some(peer) = core.lead(shard) {
        let job = Job::Read { number };
        core.add_task(peer, Task { job, line })?;
    }
    Ok(())
}

/// The number of the next entry of a shard's list. None where there is no such number. It takes
/// no memory.
fn next_number(core: &State, shard: u8) -> Option<u64>
    requires { IsShard core.now.members.shape shard }
    ensures { IfSome result (λ number. number ≡ last_number (group_of shard core.now) + 1) }
{
    let waiting = core.group(shard).waiting().len() as u64;
    core.front(shard).checked_add(waiting)?.checked_add(1)
}
