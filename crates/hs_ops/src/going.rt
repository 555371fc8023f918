//! How an operation goes on.
ghost use Rattle.std.specs.Prelude.{◌≡◌, IfOk};
ghost use Rattle.hs_ops.specs.Going.{at_once, begin, go, judged_in};

use crate::asking::asked_for;
use crate::table::refusal_of;
use crate::{OpFault, OpStep, OpView};
use hs_model::{Op, Reply};
use std::alloc::Global;

/// The step of an operation at its own line.
#[tactic(auto, unfolding(crate::specs::Going::begin, crate::specs::Going::go))]
pub(crate) fn begin(view: &OpView, alloc: Global, line: u64, op: &Op) -> Result<OpStep, OpFault>
    ensures { IfOk result (λ step. step ≡ begin view.now line op.now) }
{
    match judged(view, alloc, op)? {
        Some(reply) => Ok(OpStep::Answer(reply)),
        None if view.viewed => asked_for(view, alloc, line, op),
        None => Ok(OpStep::Wait),
    }
}

/// The step of an operation that goes on.
#[tactic(auto, unfolding(crate::specs::Going::go))]
pub(crate) fn go(view: &OpView, alloc: Global, line: u64, op: &Op) -> Result<OpStep, OpFault>
    ensures { IfOk result (λ step. step ≡ go view.now line op.now) }
{
    if !view.viewed {
        return Ok(OpStep::Wait);
    }
    match judged(view, alloc, op)? {
        Some(reply) => Ok(OpStep::Answer(reply)),
        None => asked_for(view, alloc, line, op),
    }
}

/// What an operation is answered by the view alone.
#[tactic(auto, unfolding(crate::specs::Going::judged_in))]
fn judged(view: &OpView, alloc: Global, op: &Op) -> Result<Option<Reply>, OpFault>
    ensures { IfOk result (λ reply. reply ≡ judged_in view.now op.now) }
{
    match refusal_of(view, alloc, op)? {
        Some(refusal) => Ok(Some(refusal)),
        None => at_once(view, alloc, op),
    }
}

/// What an operation that is not refused is answered by the view alone.
fn at_once(view: &OpView, alloc: Global, op: &Op) -> Result<Option<Reply>, OpFault>
    ensures { IfOk result (λ reply. reply ≡ at_once view.now op.now) }
{
    match op {
        Op::Open { .. } => Ok(Some(Reply::Ok)),
        Op::Close { .. } => Ok(Some(Reply::Ok)),
        Op::Write { .. } => Ok(None),
        Op::Read { .. } => Ok(None),
        Op::Look { session, .. } => Ok(Some(view.held_reply(session))),
        Op::Root { key, .. } => Ok(view.kept_reply(key)),
        Op::Drop { .. } => Ok(None),
        Op::Forget { .. } => Ok(Some(Reply::Ok)),
        Op::Name { session, handle } => Ok(Some(view.name_reply(session, *handle))),
        Op::Delete => Ok(None),
        Op::Stat => view.stat_reply(alloc),
    }
}
