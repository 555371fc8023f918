//! What an operation names.
ghost use Rattle.std.specs.Prelude.{◌≡◌};
ghost use Rattle.std.specs.Option.{option_copied};
ghost use Rattle.hs_model.specs.Op.{named_handles, named_key, session_of, written_address};

use crate::Op;
use hs_limits::{Address, Key, Name};
use std::slice;

impl Op {
    /// The session that asks. None where it is of no session.
    pub fn session(&self) -> Option<&Name>
        ensures { option_copied result ≡ session_of self.now }
    {
        match self {
            Op::Open { session } => Some(session),
            Op::Close { session } => Some(session),
            Op::Write { session, .. } => Some(session),
            Op::Read { session, .. } => Some(session),
            Op::Look { session, .. } => Some(session),
            Op::Root { session, .. } => Some(session),
            Op::Drop { .. } => None,
            Op::Forget { session, .. } => Some(session),
            Op::Name { session, .. } => Some(session),
            Op::Delete => None,
            Op::Stat => None,
        }
    }

    /// The key that it names. None where it names none.
    pub fn key(&self) -> Option<&Key>
        ensures { option_copied result ≡ named_key self.now }
    {
        match self {
            Op::Open { .. } => None,
            Op::Close { .. } => None,
            Op::Write { .. } => None,
            Op::Read { .. } => None,
            Op::Look { key, .. } => Some(key),
            Op::Root { key, .. } => Some(key),
            Op::Drop { key } => Some(key),
            Op::Forget { .. } => None,
            Op::Name { .. } => None,
            Op::Delete => None,
            Op::Stat => None,
        }
    }

    /// The handles that it names, in order.
    pub fn handles(&self) -> &[u32]
        ensures { result.now ≡ named_handles self.now }
    {
        match self {
            Op::Open { .. } => &[],
            Op::Close { .. } => &[],
            Op::Write { handles, .. } => handles.as_slice(),
            Op::Read { handle, .. } => slice::from_ref(handle),
            Op::Look { .. } => &[],
            Op::Root { handle, .. } => slice::from_ref(handle),
            Op::Drop { .. } => &[],
            Op::Forget { handle, .. } => slice::from_ref(handle),
            Op::Name { handle, .. } => slice::from_ref(handle),
            Op::Delete => &[],
            Op::Stat => &[],
        }
    }

    /// The address of the block that it writes. None where it writes none, or was given none.
    pub fn written_address(&self) -> Option<Address>
        ensures { result ≡ written_address self.now }
    {
        match self {
            Op::Open { .. } => None,
            Op::Close { .. } => None,
            Op::Write { address, .. } => *address,
            Op::Read { .. } => None,
            Op::Look { .. } => None,
            Op::Root { .. } => None,
            Op::Drop { .. } => None,
            Op::Forget { .. } => None,
            Op::Name { .. } => None,
            Op::Delete => None,
            Op::Stat => None,
        }
    }
}
