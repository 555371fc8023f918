//! The session in which a root is copied.
ghost use Rattle.std.specs.Prelude.{◌≡◌, IfOk};
ghost use Rattle.hs_tree.specs.Storing.{our_session};

use hs_limits::{ListOf, Name};
use std::alloc::{AllocError, Global};

/// The name `a`.
pub(crate) fn session_name(alloc: Global) -> Result<Name, AllocError>
    ensures { IfOk result (λ name. name ≡ our_session) }
{
    let bytes = ListOf::from_vec(Vec::from_slice(alloc, b"a")?);
    Ok(Name::from_list(bytes).unwrap())
}
