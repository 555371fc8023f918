//! The key of a command.
ghost use Rattle.std.specs.Prelude.{◌≡◌, IfOk, IsTrue};
ghost use Rattle.hs_limits.specs.Key.{is_key};

use hs_limits::{Key, ListOf};
use std::alloc::{AllocError, Global};

/// The key of these bytes.
pub(crate) fn key_of(alloc: Global, bytes: &[u8]) -> Result<Key, AllocError>
    requires { IsTrue (is_key bytes.now) }
    ensures { IfOk result (λ key. key ≡ bytes.now) }
{
    let bytes = ListOf::from_vec(Vec::from_slice(alloc, bytes)?);
    match Key::from_list(bytes) {
        Some(key) => Ok(key),
        None => unreachable!(),
    }
}
