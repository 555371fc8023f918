//! Whose an answer of a load is.
ghost use Rattle.std.specs.Prelude.{◌≡◌, ◌==◌, bytes_eq, option_copied};
ghost use Rattle.std.specs.List.{list_any};
ghost use Rattle.std.specs.Option.{option_map};
ghost use Rattle.hs_load.specs.Owners.{asked_key, asked_session, deed_key, deed_session, is_key_of, is_of, is_of_session};

use hs_limits::{Key, Name};
use hs_model::{Asked, Deed};

/// The session that a refused operation names.
fn asked_session(asked: &Asked) -> Option<&Name>
    ensures { option_copied result ≡ asked_session asked.now }
{
    match asked {
        Asked::Open { session }
        | Asked::Close { session }
        | Asked::Write { session, .. }
        | Asked::Read { session, .. }
        | Asked::Look { session, .. }
        | Asked::Root { session, .. }
        | Asked::Forget { session, .. }
        | Asked::Name { session, .. } => Some(session),
        Asked::Drop { .. } | Asked::Delete | Asked::Stat => None,
    }
}

/// The key of a refused operation that names no session.
fn asked_key(asked: &Asked) -> Option<&Key>
    ensures { option_copied result ≡ asked_key asked.now }
{
    match asked {
        Asked::Drop { key } => Some(key),
        _ => None,
    }
}

/// The session that a deed names.
fn deed_session(deed: &Deed) -> Option<&Name>
    ensures { option_copied result ≡ deed_session deed.now }
{
    match deed {
        Deed::Opened { session }
        | Deed::Closed { session }
        | Deed::Wrote { session, .. }
        | Deed::Marked { session, .. }
        | Deed::ReadBlock { session, .. }
        | Deed::Looked { session, .. }
        | Deed::Forgot { session, .. } => Some(session),
        Deed::Refused { asked } => asked_session(asked),
        Deed::Rooted { .. }
        | Deed::Dropped { .. }
        | Deed::Entered { .. }
        | Deed::Swept { .. }
        | Deed::Nothing => None,
    }
}

/// The key of a deed that names no session.
fn deed_key(deed: &Deed) -> Option<&Key>
    ensures { option_copied result ≡ deed_key deed.now }
{
    match deed {
        Deed::Rooted { key, .. } | Deed::Dropped { key } => Some(key),
        Deed::Refused { asked } => asked_key(asked),
        _ => None,
    }
}

/// Whether a key is a session's own.
fn is_key_of(session: &[u8], key: &[u8]) -> bool
    ensures { result ≡ is_key_of session.now key.now }
{
    key.starts_with(session) && key[session.len()..].starts_with(b".f")
}

/// Whether a deed names a session, or a key of its own.
fn is_of_session(session: &Name, deed: &Deed) -> bool
    ensures { result ≡ is_of_session session.now deed.now }
{
    let named = match deed_session(deed) {
        Some(name) => name.as_slice() == session.as_slice(),
        None => false,
    };
    let keyed = match deed_key(deed) {
        Some(key) => is_key_of(session.as_slice(), key.as_slice()),
        None => false,
    };
    named || keyed
}

/// Whether a deed names one of some sessions, or a key of one.
fn is_of_any(sessions: &[Name], deed: &Deed) -> bool
    ensures { result ≡ list_any (λ session. is_of_session session deed.now) sessions.now }
{
    sessions.iter().any(|session| is_of_session(session, deed))
}

/// Whether a deed is that of the session at a place of a list, and behind its end that of none of them.
pub(crate) fn is_of(sessions: &[Name], owner: usize, deed: &Deed) -> bool
    ensures { result ≡ is_of sessions.now owner deed.now }
{
    match sessions.get(owner) {
        Some(session) => is_of_session(session, deed),
        None => !is_of_any(sessions, deed),
    }
}
