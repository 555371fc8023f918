//! Kinds of operations, and which replies each may be told.
ghost use Rattle.std.specs.List.{list_any};
ghost use Rattle.std.specs.Prelude.{◌≡◌, ◌==◌};
ghost use Rattle.hs_asker.specs.Kinds.{kind_grants, kind_may, kind_of, kind_refusals};
ghost use Rattle.hs_asking.specs.Telling.{refusal_number};

use hs_model::{Op, Reply};

/// What an operation asks for, without what it names.
#[derive(Clone, Copy, Debug, PartialEq, Eq)]
pub(crate) enum Kind {
    Open,
    Close,
    Write,
    Read,
    Look,
    Root,
    Drop,
    Forget,
    Name,
    Delete,
    Stat,
}

/// The kind of an operation.
pub(crate) fn kind_of(op: &Op) -> Kind
    ensures { result ≡ kind_of op.now }
{
    match op {
        Op::Open { .. } => Kind::Open,
        Op::Close { .. } => Kind::Close,
        Op::Write { .. } => Kind::Write,
        Op::Read { .. } => Kind::Read,
        Op::Look { .. } => Kind::Look,
        Op::Root { .. } => Kind::Root,
        Op::Drop { .. } => Kind::Drop,
        Op::Forget { .. } => Kind::Forget,
        Op::Name { .. } => Kind::Name,
        Op::Delete => Kind::Delete,
        Op::Stat => Kind::Stat,
    }
}

/// Whether a reply may be told of an operation of a kind: that it was done, or a refusal of its line.
pub(crate) fn may_be_told(kind: Kind, reply: &Reply) -> bool
    ensures { result ≡ kind_may kind reply.now }
{
    grants(kind, reply) || refuses(kind, refusal_number(reply))
}

/// Whether a reply says that an operation of a kind was done.
fn grants(kind: Kind, reply: &Reply) -> bool
    ensures { result ≡ kind_grants kind reply.now }
{
    match kind {
        Kind::Open | Kind::Close | Kind::Root | Kind::Drop | Kind::Forget => {
            matches!(reply, Reply::Ok)
        }
        Kind::Write => matches!(reply, Reply::New { .. } | Reply::Dup { .. }),
        Kind::Read => matches!(reply, Reply::Bytes { .. }),
        Kind::Look => matches!(reply, Reply::Held { .. }),
        Kind::Name => matches!(reply, Reply::Name { .. }),
        Kind::Delete => matches!(reply, Reply::Run { .. }),
        Kind::Stat => matches!(reply, Reply::Stat { .. }),
    }
}

/// The number of a refusal, and 0 of what is none.
fn refusal_number(reply: &Reply) -> u8
    ensures { result ≡ refusal_number reply.now }
{
    match reply {
        Reply::NoSession { .. } => 1,
        Reply::SessionTaken { .. } => 2,
        Reply::SessionsFull { .. } => 3,
        Reply::Busy { .. } => 4,
        Reply::TooLong { .. } => 5,
        Reply::TooMany { .. } => 6,
        Reply::NoHandle { .. } => 7,
        Reply::HandlesFull { .. } => 8,
        Reply::Stale { .. } => 9,
        Reply::Collision => 10,
        Reply::ShardFull { .. } => 11,
        Reply::KeyTaken { .. } => 12,
        Reply::NoKey { .. } => 13,
        Reply::RootsFull { .. } => 14,
        Reply::Running { .. } => 15,
        Reply::EpochEnd { .. } => 16,
        Reply::NoPeer { .. } => 17,
        Reply::NotUp { .. } => 18,
        Reply::NotDown { .. } => 19,
        Reply::NoMessage { .. } => 20,
        Reply::PoolFull { .. } => 21,
        Reply::Ok
        | Reply::New { .. }
        | Reply::Dup { .. }
        | Reply::Bytes { .. }
        | Reply::Held { .. }
        | Reply::Name { .. }
        | Reply::Stat { .. }
        | Reply::Run { .. }
        | Reply::Enter { .. }
        | Reply::Sweep { .. }
        | Reply::Done { .. }
        | Reply::Down { .. }
        | Reply::Visits { .. } => 0,
    }
}

/// Whether a refusal is one of the line of an operation of a kind.
fn refuses(kind: Kind, number: u8) -> bool
    ensures { result ≡ list_any (λ n. n == number) (kind_refusals kind) }
{
    match kind {
        Kind::Open => number == 2 || number == 3,
        Kind::Close => number == 1,
        Kind::Write => number == 1 || (5 <= number && number <= 11),
        Kind::Read => number == 1 || (7 <= number && number <= 9),
        Kind::Look => number == 1 || number == 8 || number == 13,
        Kind::Root => number == 1 || number == 7 || number == 9 || number == 12 || number == 14,
        Kind::Drop => number == 13,
        Kind::Forget | Kind::Name => number == 1 || number == 7,
        Kind::Delete => number == 15 || number == 16,
        Kind::Stat => false,
    }
}
