//! A client's line.
ghost use Rattle.std.specs.Prelude.{◌≡◌, OnOk};
ghost use Rattle.hs_core_words.specs.Changing.{add_operation};
ghost use Rattle.hs_core_state.specs.Going.{answer_new, carry_by, compare_new};
ghost use Rattle.hs_core_state.specs.Keeping.{KeepsCore};
ghost use Rattle.hs_core_words.specs.Operating.{begin_line};
ghost use Rattle.hs_members.specs.Members.{IsShard};

use crate::carrying::{answer, carry_out, read_for};
use hs_awaiting::{Judged, Wait, Waiting};
use hs_core_state::{Aim, NoMemory, State};
use hs_limits::{Held, ListOf};
use hs_model::{Op, Reply};
use hs_ops::{OpStep, Operation};

/// The operation of a line is begun: it is answered at once, or it waits for a job, an entry or a
/// view.
pub(crate) fn begin_line(core: &mut State, line: u64, op: Op) -> Result<(), NoMemory>
    ensures ok { OnOk result (core.new ≡ begin_line line op core.old) }
    ensures kept { KeepsCore (record core.old {
      progress = record core.old.progress { last_line = line };
    }) core.new }
{
    core.set_line(line);
    let busy = core.busy_line(&op)?;
    let mut operation = Operation::begin(core.alloc(), line, op)?;
    let aim = core.first_aim(&operation);
    let judged = core.judge_first(&mut operation, aim, busy)?;
    let waiting = Waiting {
        operation,
        shard: aim.shard,
        wait: Wait::View,
    };
    take_first(core, line, aim, waiting, judged)
}

/// A new operation is judged by its first step: it is answered at once, and then it is not kept, or
/// it is without an answer.
fn take_first(
    core: &mut State,
    line: u64,
    aim: Aim,
    waiting: Waiting,
    judged: Judged,
) -> Result<(), NoMemory>
    requires aim { IsShard core.old.members.shape aim.shard }
    requires waiting { IsShard core.old.members.shape waiting.shard }
    ensures ok { OnOk result (core.new
        ≡ carry_by aim line judged.step judged.helds (add_operation line waiting core.old)) }
    ensures kept { KeepsCore core.old core.new }
{
    let Judged { step, helds } = judged;
    match step {
        OpStep::Answer(reply) => answer_first(core, line, waiting, reply, helds),
        OpStep::Compare { number } => compare_first(core, line, aim.shard, waiting, number),
        step => {
            core.add_operation(line, waiting)?;
            carry_out(core, line, aim, Judged { step, helds })
        }
    }
}

/// A new operation is answered, where its reply gives these to hold.
#[tactic(auto, using(crate::proofs::FirstLemmas::told_first))]
fn answer_first(
    core: &mut State,
    line: u64,
    waiting: Waiting,
    reply: Reply,
    helds: ListOf<Held>,
) -> Result<(), NoMemory>
    requires { IsShard core.old.members.shape waiting.shard }
    ensures ok { OnOk result (core.new ≡ answer_new line reply helds waiting core.old) }
    ensures kept { KeepsCore core.old core.new }
{
    if core.is_awaited(line) {
        core.add_operation(line, waiting)?;
        return answer(core, line, reply, helds);
    }
    core.tell_answer(line, waiting, reply, helds)
}

/// A new operation wants the bytes of an entry, which the lead is to read.
#[tactic(auto, using(crate::proofs::FirstLemmas::compared_first))]
fn compare_first(
    core: &mut State,
    line: u64,
    shard: u8,
    waiting: Waiting,
    number: u64,
) -> Result<(), NoMemory>
    requires shard { IsShard core.old.members.shape shard }
    requires waiting { IsShard core.old.members.shape waiting.shard }
    ensures ok { OnOk result (core.new ≡ compare_new shard line number waiting core.old) }
    ensures kept { KeepsCore core.old core.new }
{
    let wait = Wait::Bytes { number };
    let Waiting {
        operation,
        shard: judge,
        ..
    } = waiting;
    let waiting = Waiting {
        operation,
        shard: judge,
        wait,
    };
    core.add_operation(line, waiting)?;
    read_for(core, line, shard, number)
}
