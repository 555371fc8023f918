//! What a token notes of an operation.
ghost use Rattle.std.specs.Prelude.{◌≡◌};
ghost use Rattle.hs_model.specs.Judge.{asked_of};

use hs_model::{Asked, Op};

/// An operation as a token notes it, without its bytes.
pub(crate) fn asked_of(op: Op) -> Asked
    ensures { result ≡ asked_of op }
{
    match op {
        Op::Open { session } => Asked::Open { session },
        Op::Close { session } => Asked::Close { session },
        Op::Write {
            session,
            payload,
            handles,
            address,
        } => Asked::Write {
            session,
            length: payload.len() as u64,
            handles,
            address,
        },
        Op::Read { session, handle } => Asked::Read { session, handle },
        Op::Look { session, key } => Asked::Look { session, key },
        Op::Root {
            session,
            key,
            handle,
        } => Asked::Root {
            session,
            key,
            handle,
        },
        Op::Drop { key } => Asked::Drop { key },
        Op::Forget { session, handle } => Asked::Forget { session, handle },
        Op::Name { session, handle } => Asked::Name { session, handle },
        Op::Delete => Asked::Delete,
        Op::Stat => Asked::Stat,
    }
}
