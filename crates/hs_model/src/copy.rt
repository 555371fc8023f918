//! The same operation or reply again.
ghost use Rattle.std.specs.Prelude.{◌≡◌, IfOk, IsTrue};
ghost use Rattle.hs_model.specs.Judge.{asked_of};
ghost use Rattle.hs_model.specs.Replies.{is_refusal};

use crate::{Asked, ModelFault, Op, Reply};
use std::alloc::Global;

impl Asked {
    /// The operation, with the number of a write's bytes in place of the bytes.
    pub fn of(alloc: Global, op: &Op) -> Result<Asked, ModelFault>
        ensures { IfOk result (λ asked. asked ≡ asked_of op.now) }
    {
        match op {
            Op::Open { session } => Ok(Asked::Open {
                session: session.copy(alloc)?,
            }),
            Op::Close { session } => Ok(Asked::Close {
                session: session.copy(alloc)?,
            }),
            Op::Write {
                session,
                payload,
                handles,
                address,
            } => Ok(Asked::Write {
                session: session.copy(alloc)?,
                length: payload.len() as u64,
                handles: handles.copy(alloc)?,
                address: *address,
            }),
            Op::Read { session, handle } => Ok(Asked::Read {
                session: session.copy(alloc)?,
                handle: *handle,
            }),
            Op::Look { session, key } => Ok(Asked::Look {
                session: session.copy(alloc)?,
                key: key.copy(alloc)?,
            }),
            Op::Root {
                session,
                key,
                handle,
            } => Ok(Asked::Root {
                session: session.copy(alloc)?,
                key: key.copy(alloc)?,
                handle: *handle,
            }),
            Op::Drop { key } => Ok(Asked::Drop {
                key: key.copy(alloc)?,
            }),
            Op::Forget { session, handle } => Ok(Asked::Forget {
                session: session.copy(alloc)?,
                handle: *handle,
            }),
            Op::Name { session, handle } => Ok(Asked::Name {
                session: session.copy(alloc)?,
                handle: *handle,
            }),
            Op::Delete => Ok(Asked::Delete),
            Op::Stat => Ok(Asked::Stat),
        }
    }

    /// The same again.
    pub fn copy(&self, alloc: Global) -> Result<Asked, ModelFault>
        ensures { IfOk result (λ asked. asked ≡ self.now) }
    {
        match self {
            Asked::Open { session } => Ok(Asked::Open {
                session: session.copy(alloc)?,
            }),
            Asked::Close { session } => Ok(Asked::Close {
                session: session.copy(alloc)?,
            }),
            Asked::Write {
                session,
                length,
                handles,
                address,
            } => Ok(Asked::Write {
                session: session.copy(alloc)?,
                length: *length,
                handles: handles.copy(alloc)?,
                address: *address,
            }),
            Asked::Read { session, handle } => Ok(Asked::Read {
                session: session.copy(alloc)?,
                handle: *handle,
            }),
            Asked::Look { session, key } => Ok(Asked::Look {
                session: session.copy(alloc)?,
                key: key.copy(alloc)?,
            }),
            Asked::Root {
                session,
                key,
                handle,
            } => Ok(Asked::Root {
                session: session.copy(alloc)?,
                key: key.copy(alloc)?,
                handle: *handle,
            }),
            Asked::Drop { key } => Ok(Asked::Drop {
                key: key.copy(alloc)?,
            }),
            Asked::Forget { session, handle } => Ok(Asked::Forget {
                session: session.copy(alloc)?,
                handle: *handle,
            }),
            Asked::Name { session, handle } => Ok(Asked::Name {
                session: session.copy(alloc)?,
                handle: *handle,
            }),
            Asked::Delete => Ok(Asked::Delete),
            Asked::Stat => Ok(Asked::Stat),
        }
    }
}

impl Reply {
    /// The same reply again. The two share the data of a read.
    pub fn copy(&self, alloc: Global) -> Result<Reply, ModelFault>
        ensures { IfOk result (λ reply. reply ≡ self.now) }
    {
        match *self {
            Reply::Ok => Ok(Reply::Ok),
            Reply::New { handle, epoch } => Ok(Reply::New { handle, epoch }),
            Reply::Dup { handle, epoch } => Ok(Reply::Dup { handle, epoch }),
            Reply::Bytes {
                ref bytes,
                ref handles,
            } => Ok(Reply::Bytes {
                bytes: bytes.copy()?,
                handles: handles.copy(alloc)?,
            }),
            Reply::Held { handle, epoch } => Ok(Reply::Held { handle, epoch }),
            Reply::Name { address } => Ok(Reply::Name { address }),
            Reply::Stat {
                blocks,
                roots,
                sessions,
                ref epochs,
                ref swept,
            } => Ok(Reply::Stat {
                blocks,
                roots,
                sessions,
                epochs: epochs.copy(alloc)?,
                swept: swept.copy(alloc)?,
            }),
            Reply::Run { epoch } => Ok(Reply::Run { epoch }),
            Reply::Enter { epoch } => Ok(Reply::Enter { epoch }),
            Reply::Sweep { epoch, removed } => Ok(Reply::Sweep { epoch, removed }),
            Reply::Done { epoch } => Ok(Reply::Done { epoch }),
            Reply::Down { peer, line } => Ok(Reply::Down { peer, line }),
            Reply::Visits { epoch, count } => Ok(Reply::Visits { epoch, count }),
            _ => copy_refusal(self, alloc),
        }
    }
}

/// The same refusal again.
fn copy_refusal(reply: &Reply, alloc: Global) -> Result<Reply, ModelFault>
    requires { IsTrue (is_refusal reply.now) }
    ensures { IfOk result (λ copy. copy ≡ reply.now) }
{
    match *reply {
        Reply::NoSession { ref session } => Ok(Reply::NoSession {
            session: session.copy(alloc)?,
        }),
        Reply::SessionTaken { ref session } => Ok(Reply::SessionTaken {
            session: session.copy(alloc)?,
        }),
        Reply::SessionsFull { limit } => Ok(Reply::SessionsFull { limit }),
        Reply::Busy { line } => Ok(Reply::Busy { line }),
        Reply::TooLong { found } => Ok(Reply::TooLong { found }),
        Reply::TooMany { found } => Ok(Reply::TooMany { found }),
        Reply::NoHandle { handle } => Ok(Reply::NoHandle { handle }),
        Reply::HandlesFull { limit } => Ok(Reply::HandlesFull { limit }),
        Reply::Stale { handle, held, now } => Ok(Reply::Stale { handle, held, now }),
        Reply::Collision => Ok(Reply::Collision),
        Reply::ShardFull { limit } => Ok(Reply::ShardFull { limit }),
        Reply::KeyTaken { ref key } => Ok(Reply::KeyTaken {
            key: key.copy(alloc)?,
        }),
        Reply::NoKey { ref key } => Ok(Reply::NoKey {
            key: key.copy(alloc)?,
        }),
        Reply::RootsFull { limit } => Ok(Reply::RootsFull { limit }),
        Reply::Running { epoch } => Ok(Reply::Running { epoch }),
        Reply::EpochEnd { limit } => Ok(Reply::EpochEnd { limit }),
        Reply::NoPeer { peer } => Ok(Reply::NoPeer { peer }),
        Reply::NotUp { peer } => Ok(Reply::NotUp { peer }),
        Reply::NotDown { peer } => Ok(Reply::NotDown { peer }),
        Reply::NoMessage { message } => Ok(Reply::NoMessage { message }),
        Reply::PoolFull { limit } => Ok(Reply::PoolFull { limit }),
        _ => unreachable!(),
    }
}
