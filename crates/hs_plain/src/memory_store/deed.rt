//! Whether what an entry of a journal says is a deed at the plain store; where it is, it is done.
ghost use Rattle.std.specs.Prelude.{◌≡◌, ◌↔◌, IsTrue, IfOk, OnOk, map};
ghost use Rattle.hs_journal.specs.Deeds.{as_deed};
ghost use Rattle.hs_model.specs.Judge.{judge};
ghost use Rattle.hs_plain.specs.Deeds.{Does, IsJudged, operation_of};

use super::MemoryStore;
use hs_journal::JournalEntry;
use hs_limits::{Held, Limits};
use hs_model::{Deed, ModelFault, Op, Reply};
use std::alloc::Global;

impl MemoryStore {
    /// Whether a deed with a reply is one here, behind some entries; where it is, it is done. The only fault is
    /// NoMemory; after it, and where it is none, nothing is said of the store.
    pub(crate) fn does(
        &mut self,
        limits: Limits,
        before: &[JournalEntry],
        deed: &Deed,
        told: &Reply,
    ) -> Result<bool, ModelFault>
        ensures { IfOk result
            (λ is. Does limits self.old (map as_deed before.now) deed.now told.now is self.new) }
    {
        if let Some(op) = operation_of(self.alloc, deed)? {
            return self.is_judged(limits, op, deed, told);
        }
        match deed {
            Deed::Wrote {
                session,
                address,
                pointers,
                handle,
            } => self.does_write(limits, session, address, pointers, *handle, told),
            Deed::Marked {
                session,
                address,
                handle,
            } => self.does_mark(session, address, *handle, told),
            Deed::ReadBlock {
                session,
                address,
                epoch,
                handles,
            } => {
                let held = Held {
                    address: *address,
                    epoch: *epoch,
                };
                self.does_read(session, held, handles, told)
            }
            Deed::Rooted { key, address } => self.does_root(limits, key, address, told),
            Deed::Entered { shard } => self.does_enter(limits, *shard, told),
            Deed::Swept { shard } => self.does_sweep(*shard, told),
            Deed::Refused { asked } => self.may_be_refused(limits, before, asked, told),
            Deed::Nothing => self.is_note(before, told),
            _ => unreachable!(),
        }
    }

    /// Judges an operation. Whether it does a deed and is answered so.
    fn is_judged(
        &mut self,
        limits: Limits,
        op: Op,
        deed: &Deed,
        told: &Reply,
    ) -> Result<bool, ModelFault>
        ensures is { IfOk result (λ is. IsTrue is ↔ IsJudged limits self.old op deed.now told.now) }
        ensures store { OnOk result (self.new ≡ (judge limits self.old op).store) }
    {
        let answer = self.judge(limits, op)?;
        Ok(answer.deed.is_same(deed) && answer.reply.is_same(told))
    }
}

/// The operation that a deed tells whole.
fn operation_of(alloc: Global, deed: &Deed) -> Result<Option<Op>, ModelFault>
    ensures { IfOk result (λ op. op ≡ operation_of deed.now) }
{
    match deed {
        Deed::Opened { session } => Ok(Some(Op::Open {
            session: session.copy(alloc)?,
        })),
        Deed::Closed { session } => Ok(Some(Op::Close {
            session: session.copy(alloc)?,
        })),
        Deed::Looked { session, key, .. } => Ok(Some(Op::Look {
            session: session.copy(alloc)?,
            key: key.copy(alloc)?,
        })),
        Deed::Dropped { key } => Ok(Some(Op::Drop {
            key: key.copy(alloc)?,
        })),
        Deed::Forgot { session, handle } => Ok(Some(Op::Forget {
            session: session.copy(alloc)?,
            handle: *handle,
        })),
        _ => Ok(None),
    }
}
