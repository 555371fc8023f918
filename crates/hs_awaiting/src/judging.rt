//! How an operation takes its next step.
ghost use Rattle.std.specs.Prelude.{◌≡◌, Some, IfOk, OnOk};
ghost use Rattle.std.specs.BTreeMap.{is_at};
ghost use Rattle.std.specs.Map.{lookup};
ghost use Rattle.std.specs.Ordering.{nat_cmp};
ghost use Rattle.hs_awaiting.specs.declared.waiting.Waiting.{Waiting};
ghost use Rattle.hs_awaiting.specs.Going.{given_by, judge_in, next_step};
ghost use Rattle.hs_ops.specs.Answers.{gained};
ghost use Rattle.hs_ops.specs.Operations.{after_step};

use crate::{AwaitingFault, Next, Waiting};
use hs_limits::{Address, Held, ListOf};
use hs_ops::{OpFault, OpStep, OpView, Operation};
use std::alloc::Global;
use std::collections::BTreeMap;

/// The step of an operation, and what its reply gives to hold, where it is one.
#[derive(Drop)]
pub struct Judged {
    pub step: OpStep,
    /// Nothing where the step is no answer.
    pub helds: ListOf<Held>,
}

/// The operation of a line takes its next step by what it sees, with the pointers that the catalogue
/// has.
pub(crate) fn judge_in(
    alloc: Global,
    operations: &mut BTreeMap<u64, Waiting>,
    line: u64,
    view: &OpView,
    pointers: &[Address],
    how: &Next,
) -> Result<Judged, AwaitingFault>
    ensures ok { OnOk result (operations.new.entries
        ≡ judge_in how.now pointers.now view.now line operations.old.entries) }
    ensures step { (w : Waiting) → lookup (is_at (nat_cmp line)) operations.old.entries ≡ Some w
        → IfOk result (λ judged. judged.step
        ≡ next_step how.now pointers.now view.now w.operation) }
    ensures helds { (w : Waiting) → lookup (is_at (nat_cmp line)) operations.old.entries ≡ Some w
        → IfOk result (λ judged. judged.helds
        ≡ given_by judged.step (gained view.now pointers.now w.operation.op)) }
{
    match operations.get_mut(&line) {
        Some(waiting) => judge(alloc, &mut waiting.operation, view, pointers, how),
        None => Ok(Judged {
            step: OpStep::Wait,
            helds: ListOf::new(alloc),
        }),
    }
}

/// An operation takes its next step by what it sees, with the pointers that the catalogue has of the
/// block that it writes or reads. Without memory (NoMemory) it may have taken it or not.
pub fn judge(
    alloc: Global,
    operation: &mut Operation,
    view: &OpView,
    pointers: &[Address],
    how: &Next,
) -> Result<Judged, AwaitingFault>
    ensures step { IfOk result (λ judged. judged.step
        ≡ next_step how.now pointers.now view.now operation.old) }
    ensures helds { IfOk result (λ judged. judged.helds
        ≡ given_by judged.step (gained view.now pointers.now operation.old.op)) }
    ensures after { OnOk result (operation.new
        ≡ after_step (next_step how.now pointers.now view.now operation.old) operation.old) }
{
    let step = next_step(operation, view, pointers, how)?;
    let helds = match &step {
        OpStep::Answer(_) => operation.gained(view, pointers)?,
        OpStep::Propose(_) => ListOf::new(alloc),
        OpStep::Compare { .. } => ListOf::new(alloc),
        OpStep::Wait => ListOf::new(alloc),
    };
    Ok(Judged { step, helds })
}

/// The next step of an operation.
fn next_step(
    operation: &mut Operation,
    view: &OpView,
    pointers: &[Address],
    how: &Next,
) -> Result<OpStep, OpFault>
    ensures step { IfOk result (λ step. step
        ≡ next_step how.now pointers.now view.now operation.old) }
    ensures after { OnOk result (operation.new
        ≡ after_step (next_step how.now pointers.now view.now operation.old) operation.old) }
{
    match how {
        Next::Go => operation.go(view),
        Next::Bytes { bytes: Some(bytes) } => operation.bytes(view, Some(bytes), pointers),
        Next::Bytes { bytes: None } => operation.bytes(view, None, pointers),
        Next::Effect { did } => operation.effect(view, did),
    }
}
