//! What the effect of an operation's entry brings.
ghost use Rattle.std.specs.Prelude.{◌≡◌, IfOk};
ghost use Rattle.hs_ops.specs.Going.{effect_reply, given_reply, on_effect};

use crate::going::go;
use crate::table::refusal_of;
use crate::{OpFault, OpStep, OpView};
use hs_desk::What;
use hs_model::{Op, Reply};
use std::alloc::Global;

/// The step of an operation whose entry took effect.
#[tactic(auto, unfolding(crate::specs::Going::on_effect))]
pub(crate) fn on_effect(
    view: &OpView,
    alloc: Global,
    line: u64,
    what: &What,
    op: &Op,
) -> Result<OpStep, OpFault>
    ensures { IfOk result (λ step. step ≡ on_effect view.now line what.now op.now) }
{
    match effect_reply(view, alloc, what, op)? {
        Some(reply) => Ok(OpStep::Answer(reply)),
        None => go(view, alloc, line, op),
    }
}

/// What the effect of its entry answers. A refused entry is answered by the refusal that holds now.
fn effect_reply(
    view: &OpView,
    alloc: Global,
    what: &What,
    op: &Op,
) -> Result<Option<Reply>, OpFault>
    ensures { IfOk result (λ reply. reply ≡ effect_reply view.now what.now op.now) }
{
    match what {
        What::Nothing => Ok(None),
        What::Viewed { .. } => Ok(None),
        What::Stored => Ok(given_reply(view, false, op)),
        What::Marked => Ok(given_reply(view, true, op)),
        What::Again => Ok(None),
        What::Rooted => Ok(Some(Reply::Ok)),
        What::Dropped => Ok(Some(Reply::Ok)),
        What::Entered { epoch } => Ok(Some(Reply::Run { epoch: *epoch })),
        What::Refused => refusal_of(view, alloc, op),
    }
}

/// A write's answer.
fn given_reply(view: &OpView, dup: bool, op: &Op) -> Option<Reply>
    ensures { result ≡ given_reply dup view.now op.now }
{
    match op {
        Op::Write { session, .. } => Some(view.given_reply(dup, session)),
        _ => None,
    }
}
