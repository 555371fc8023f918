//! The keys by which the line of an operation stands.
ghost use Rattle.std.specs.Prelude.{◌≡◌, IfOk, Some, None};
ghost use Rattle.hs_awaiting.specs.Putting.{keys_in};

use crate::causes::{cause_of, session_in, storing};
use crate::{AwaitingFault, Waiting};
use hs_limits::Name;
use hs_waits::Cause;
use std::alloc::Global;

/// The keys by which a line stands: its operation's session, what may wake it, what a Block of it
/// stores, and the shard that judges it. All are None where it has no operation.
#[derive(Drop)]
pub(crate) struct Keys {
    pub(crate) session: Option<Name>,
    pub(crate) cause: Option<Cause>,
    pub(crate) stored: Option<Cause>,
    pub(crate) shard: Option<u8>,
}

/// Those of an operation.
pub(crate) fn keys_of(alloc: Global, waiting: &Waiting) -> Result<Keys, AwaitingFault>
    ensures { IfOk result (λ keys. keys ≡ keys_in (Some waiting.now)) }
{
    let session = session_in(alloc, waiting)?;
    Ok(Keys {
        session,
        cause: cause_of(waiting),
        stored: storing(waiting),
        shard: Some(waiting.shard),
    })
}

/// Those of an operation, where there is one.
pub(crate) fn keys_in(alloc: Global, waiting: &Option<Waiting>) -> Result<Keys, AwaitingFault>
    ensures { IfOk result (λ keys. keys ≡ keys_in waiting.now) }
{
    match waiting {
        Some(waiting) => keys_of(alloc, waiting),
        None => Ok(no_keys()),
    }
}

/// Those of a line that has no operation.
pub(crate) fn no_keys() -> Keys
    ensures { result ≡ keys_in None }
{
    Keys {
        session: None,
        cause: None,
        stored: None,
        shard: None,
    }
}
