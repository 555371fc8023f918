//! What an operation asks for that the view alone does not answer.
ghost use Rattle.std.specs.Prelude.{◌≡◌, ◌<◌, ◌+◌, [], None, slice_index, IfOk};
ghost use Rattle.hs_entry.specs.declared.entry.Entry.TheVariants as kind;
ghost use Rattle.hs_limits.specs.Block.{IsBlock};
ghost use Rattle.hs_ops.specs.declared.step.OpStep.TheVariants.{Answer, Propose};
ghost use Rattle.hs_ops.specs.Going.{asked_for, block_entry, judged_in, propose_unless, read_or, read_reply, root_entry};
ghost use Rattle.hs_ops.specs.Speaking.{asked_block};

use crate::telling::no_data;
use crate::view::number_at;
use crate::{OpFault, OpStep, OpView};
use hs_entry::Entry;
use hs_limits::{Key, Name};
use hs_model::Op;
use std::alloc::Global;

/// What an operation asks for that the view alone does not answer.
#[tactic(auto, unfolding(crate::specs::Going::asked_for))]
pub(crate) fn asked_for(view: &OpView, alloc: Global, line: u64, op: &Op) -> Result<OpStep, OpFault>
    requires { judged_in view.now op.now ≡ None }
    ensures { IfOk result (λ step. step ≡ asked_for view.now line op.now) }
{
    match op {
        Op::Write {
            session,
            payload,
            handles,
            ..
        } => view.ask_write(alloc, line, session, payload.as_slice(), handles.as_slice()),
        Op::Read { session, .. } => view.ask_read(alloc, session),
        Op::Root {
            session,
            key,
            handle,
        } => view.ask_root(alloc, line, session, key, *handle),
        Op::Drop { key } => view.ask_drop(alloc, line, key),
        Op::Delete => Ok(view.ask_delete(line)),
        Op::Open { .. } => Ok(OpStep::Wait),
        Op::Close { .. } => Ok(OpStep::Wait),
        Op::Look { .. } => Ok(OpStep::Wait),
        Op::Forget { .. } => Ok(OpStep::Wait),
        Op::Name { .. } => Ok(OpStep::Wait),
        Op::Stat => Ok(OpStep::Wait),
    }
}

impl<'a> OpView<'a> {
    /// A present block is compared; an absent one is stored, unless another entry is to take effect
    /// first.
    fn ask_write(
        &self,
        alloc: Global,
        line: u64,
        session: &Name,
        payload: &[u8],
        handles: &[u32],
    ) -> Result<OpStep, OpFault>
        requires { IsBlock (asked_block self.now.seats session.now payload.now handles.now) }
        ensures { IfOk result (λ step. step ≡ read_or (propose_unless self.now.pending
            (block_entry self.now line session.now payload.now handles.now)) self.now.present) }
    {
        if let Some(number) = self.present {
            return Ok(OpStep::Compare { number });
        }
        if self.pending {
            return Ok(OpStep::Wait);
        }
        let entry = self.block_entry(alloc, line, session, payload, handles)?;
        Ok(OpStep::Propose(entry))
    }

    /// A present block is read; of an absent one nothing is told.
    fn ask_read(&self, alloc: Global, session: &Name) -> Result<OpStep, OpFault>
        ensures { IfOk result (λ step. step
            ≡ read_or (Answer (read_reply self.now session.now [])) self.now.present) }
    {
        if let Some(number) = self.present {
            return Ok(OpStep::Compare { number });
        }
        let reply = self.read_reply(alloc, session, no_data(alloc)?)?;
        Ok(OpStep::Answer(reply))
    }

    /// A root is retained, unless another entry is to take effect first.
    fn ask_root(
        &self,
        alloc: Global,
        line: u64,
        session: &Name,
        key: &Key,
        handle: u32,
    ) -> Result<OpStep, OpFault>
        ensures { IfOk result (λ step. step ≡ propose_unless self.now.pending
            (root_entry self.now line session.now key.now handle)) }
    {
        if self.pending {
            return Ok(OpStep::Wait);
        }
        let entry = self.root_entry(alloc, line, session, key, handle)?;
        Ok(OpStep::Propose(entry))
    }

    /// A root is dropped.
    fn ask_drop(&self, alloc: Global, line: u64, key: &Key) -> Result<OpStep, OpFault>
        ensures { IfOk result (λ step. step ≡ Propose (kind.Drop line key.now)) }
    {
        let key = key.copy(alloc)?;
        Ok(OpStep::Propose(Entry::Drop { op: line, key }))
    }

    /// Shard 0 enters its next epoch.
    fn ask_delete(&self, line: u64) -> OpStep
        requires { slice_index self.now.epochs 0 < self.now.limits.epochs }
        ensures { result ≡ Propose (kind.Enter line (slice_index self.now.epochs 0 + 1)) }
    {
        // A limit is a u64, and the epoch is below it.
        let _limit = self.limits.epochs;
        let epoch = number_at(self.epochs, 0) + 1;
        OpStep::Propose(Entry::Enter { op: line, epoch })
    }
}
