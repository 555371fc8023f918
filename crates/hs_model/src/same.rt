//! Whether two operations, replies or deeds are the same.
ghost use Rattle.std.specs.Prelude.{◌≡◌, ◌↔◌, IsTrue, false};
ghost use Rattle.hs_model.specs.Replies.{is_refusal};

use crate::{Asked, Deed, Reply};
use hs_limits::{Address, Key, ListOf, Name};

impl Asked {
    /// Whether the two are the same.
    pub fn is_same(&self, other: &Asked) -> bool
        ensures { IsTrue result ↔ (self.now ≡ other.now) }
    {
        match self {
            Asked::Open { session } => matches!(other,
                Asked::Open { session: a } if same_name(a, session)),
            Asked::Close { session } => matches!(other,
                Asked::Close { session: a } if same_name(a, session)),
            Asked::Write {
                session,
                length,
                handles,
                address,
            } => matches!(other,
                Asked::Write { session: a, length: b, handles: c, address: d }
                if same_name(a, session) && b == length && same_numbers(c.as_slice(), handles.as_slice())
                    && same_option(d, address)),
            Asked::Read { session, handle } => matches!(other,
                Asked::Read { session: a, handle: b } if same_name(a, session) && b == handle),
            Asked::Look { session, key } => matches!(other,
                Asked::Look { session: a, key: b } if same_name(a, session) && same_key(b, key)),
            Asked::Root {
                session,
                key,
                handle,
            } => matches!(other,
                Asked::Root { session: a, key: b, handle: c }
                if same_name(a, session) && same_key(b, key) && c == handle),
            Asked::Drop { key } => matches!(other, Asked::Drop { key: a } if same_key(a, key)),
            Asked::Forget { session, handle } => matches!(other,
                Asked::Forget { session: a, handle: b } if same_name(a, session) && b == handle),
            Asked::Name { session, handle } => matches!(other,
                Asked::Name { session: a, handle: b } if same_name(a, session) && b == handle),
            Asked::Delete => matches!(other, Asked::Delete),
            Asked::Stat => matches!(other, Asked::Stat),
        }
    }
}

impl Deed {
    /// Whether the two are the same.
    pub fn is_same(&self, other: &Deed) -> bool
        ensures { IsTrue result ↔ (self.now ≡ other.now) }
    {
        match self {
            Deed::Opened { session } => matches!(other,
                Deed::Opened { session: a } if same_name(a, session)),
            Deed::Closed { session } => matches!(other,
                Deed::Closed { session: a } if same_name(a, session)),
            Deed::Wrote {
                session,
                address,
                pointers,
                handle,
            } => matches!(other,
                Deed::Wrote { session: a, address: b, pointers: c, handle: d }
                if same_name(a, session) && same_address(b, address)
                    && same_addresses(c.as_slice(), pointers.as_slice()) && d == handle),
            Deed::Marked {
                session,
                address,
                handle,
            } => matches!(other,
                Deed::Marked { session: a, address: b, handle: c }
                if same_name(a, session) && same_address(b, address) && c == handle),
            Deed::ReadBlock {
                session,
                address,
                epoch,
                handles,
            } => matches!(other,
                Deed::ReadBlock { session: a, address: b, epoch: c, handles: d }
                if same_name(a, session) && same_address(b, address) && c == epoch
                    && same_numbers(d.as_slice(), handles.as_slice())),
            Deed::Looked {
                session,
                key,
                handle,
            } => matches!(other,
                Deed::Looked { session: a, key: b, handle: c }
                if same_name(a, session) && same_key(b, key) && c == handle),
            Deed::Rooted { key, address } => matches!(other,
                Deed::Rooted { key: a, address: b } if same_key(a, key) && same_address(b, address)),
            Deed::Dropped { key } => matches!(other, Deed::Dropped { key: a } if same_key(a, key)),
            Deed::Forgot { session, handle } => matches!(other,
                Deed::Forgot { session: a, handle: b } if same_name(a, session) && b == handle),
            Deed::Entered { shard } => matches!(other, Deed::Entered { shard: a } if a == shard),
            Deed::Swept { shard } => matches!(other, Deed::Swept { shard: a } if a == shard),
            Deed::Refused { asked } =>
                matches!(other, Deed::Refused { asked: a } if asked.is_same(a)),
            Deed::Nothing => matches!(other, Deed::Nothing),
        }
    }
}

impl Reply {
    /// Whether the two are the same.
    pub fn is_same(&self, other: &Reply) -> bool
        ensures { IsTrue result ↔ (self.now ≡ other.now) }
    {
        match self {
            Reply::Ok => matches!(other, Reply::Ok),
            Reply::New { handle, epoch } => matches!(other,
                Reply::New { handle: a, epoch: b } if a == handle && b == epoch),
            Reply::Dup { handle, epoch } => matches!(other,
                Reply::Dup { handle: a, epoch: b } if a == handle && b == epoch),
            Reply::Bytes { bytes, handles } => matches!(other,
                Reply::Bytes { bytes: a, handles: b }
                if same_bytes(a.as_slice(), bytes.as_slice()) && same_numbers(b.as_slice(), handles.as_slice())),
            Reply::Held { handle, epoch } => matches!(other,
                Reply::Held { handle: a, epoch: b } if a == handle && b == epoch),
            Reply::Name { address } => matches!(other,
                Reply::Name { address: a } if same_address(a, address)),
            Reply::Stat {
                blocks,
                roots,
                sessions,
                epochs,
                swept,
            } => matches!(other,
                Reply::Stat { blocks: a, roots: b, sessions: c, epochs: d, swept: e }
                if a == blocks && b == roots && c == sessions
                    && same_epochs(d.as_slice(), epochs.as_slice()) && same_epochs(e.as_slice(), swept.as_slice())),
            Reply::Run { epoch } => matches!(other, Reply::Run { epoch: a } if a == epoch),
            Reply::Enter { epoch } => matches!(other, Reply::Enter { epoch: a } if a == epoch),
            Reply::Sweep { epoch, removed } => matches!(other,
                Reply::Sweep { epoch: a, removed: b } if a == epoch && b == removed),
            Reply::Done { epoch } => matches!(other, Reply::Done { epoch: a } if a == epoch),
            Reply::Down { peer, line } => matches!(other,
                Reply::Down { peer: a, line: b } if a == peer && b == line),
            Reply::Visits { epoch, count } => matches!(other,
                Reply::Visits { epoch: a, count: b } if a == epoch && b == count),
            _ => self.is_same_refusal(other),
        }
    }

    /// Whether the two are the same refusal.
    fn is_same_refusal(&self, other: &Reply) -> bool
        requires { IsTrue (is_refusal self.now) }
        ensures { IsTrue result ↔ (self.now ≡ other.now) }
    {
        match self {
            Reply::NoSession { session } => matches!(other,
                Reply::NoSession { session: a } if same_name(a, session)),
            Reply::SessionTaken { session } => matches!(other,
                Reply::SessionTaken { session: a } if same_name(a, session)),
            Reply::SessionsFull { limit } => matches!(other,
                Reply::SessionsFull { limit: a } if a == limit),
            Reply::Busy { line } => matches!(other, Reply::Busy { line: a } if a == line),
            Reply::TooLong { found } => matches!(other, Reply::TooLong { found: a } if a == found),
            Reply::TooMany { found } => matches!(other, Reply::TooMany { found: a } if a == found),
            Reply::NoHandle { handle } => matches!(other,
                Reply::NoHandle { handle: a } if a == handle),
            Reply::HandlesFull { limit } => matches!(other,
                Reply::HandlesFull { limit: a } if a == limit),
            Reply::Stale { handle, held, now } => matches!(other,
                Reply::Stale { handle: a, held: b, now: c } if a == handle && b == held && c == now),
            Reply::Collision => matches!(other, Reply::Collision),
            Reply::ShardFull { limit } =>
                matches!(other, Reply::ShardFull { limit: a } if a == limit),
            Reply::KeyTaken { key } =>
                matches!(other, Reply::KeyTaken { key: a } if same_key(a, key)),
            Reply::NoKey { key } => matches!(other, Reply::NoKey { key: a } if same_key(a, key)),
            Reply::RootsFull { limit } =>
                matches!(other, Reply::RootsFull { limit: a } if a == limit),
            Reply::Running { epoch } => matches!(other, Reply::Running { epoch: a } if a == epoch),
            Reply::EpochEnd { limit } =>
                matches!(other, Reply::EpochEnd { limit: a } if a == limit),
            Reply::NoPeer { peer } => matches!(other, Reply::NoPeer { peer: a } if a == peer),
            Reply::NotUp { peer } => matches!(other, Reply::NotUp { peer: a } if a == peer),
            Reply::NotDown { peer } => matches!(other, Reply::NotDown { peer: a } if a == peer),
            Reply::NoMessage { message } => matches!(other,
                Reply::NoMessage { message: a } if a == message),
            Reply::PoolFull { limit } =>
                matches!(other, Reply::PoolFull { limit: a } if a == limit),
            _ => unreachable!(),
        }
    }
}

/// Whether the two are the same bytes.
fn same_bytes(a: &[u8], b: &[u8]) -> bool
    ensures { IsTrue result ↔ (b.now ≡ a.now) }
{
    a == b
}

/// Whether the two are the same handles.
fn same_numbers(a: &[u32], b: &[u32]) -> bool
    ensures { IsTrue result ↔ (b.now ≡ a.now) }
{
    a == b
}

/// Whether the two are the same epochs.
fn same_epochs(a: &[u64], b: &[u64]) -> bool
    ensures { IsTrue result ↔ (b.now ≡ a.now) }
{
    a == b
}

/// Whether the two are the same name.
fn same_name(a: &Name, b: &Name) -> bool
    ensures { IsTrue result ↔ (b.now ≡ a.now) }
{
    same_bytes(a.as_slice(), b.as_slice())
}

/// Whether the two are the same key.
fn same_key(a: &Key, b: &Key) -> bool
    ensures { IsTrue result ↔ (b.now ≡ a.now) }
{
    same_bytes(a.as_slice(), b.as_slice())
}

/// Whether the two are the same address.
fn same_address(a: &Address, b: &Address) -> bool
    ensures { IsTrue result ↔ (b.now ≡ a.now) }
{
    same_bytes(&a.0, &b.0)
}

/// Whether both are the same address, or none.
fn same_option(a: &Option<Address>, b: &Option<Address>) -> bool
    ensures { IsTrue result ↔ (b.now ≡ a.now) }
{
    match (a, b) {
        (Some(a), Some(b)) => same_address(a, b),
        (None, None) => true,
        _ => false,
    }
}

/// Whether the two are the same addresses.
fn same_addresses(a: &[Address], b: &[Address]) -> bool
    ensures { IsTrue result ↔ (b.now ≡ a.now) }
{
    if a.len() != b.len() {
        return false;
    }
    for k in 0..a.len() {
        if !same_address(&a[k], &b[k]) {
            return false;
        }
    }
    true
}
