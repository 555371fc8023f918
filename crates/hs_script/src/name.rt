//! Words that are names or keys.
ghost use Rattle.std.specs.Prelude.{◌≡◌, IsTrue, IfOk};
ghost use Rattle.hs_limits.specs.Key.{is_key};
ghost use Rattle.hs_limits.specs.Name.{is_name};
ghost use Rattle.hs_script.specs.Giving.{Gives};
ghost use Rattle.hs_script.specs.Parts.{key_of, name_of};

use crate::ScriptFault;
use hs_limits::{Key, ListOf, Name, is_key, is_name};
use std::alloc::Global;

/// The name that the word is.
pub(crate) fn name_of(alloc: Global, word: &[u8]) -> Result<Name, ScriptFault>
    ensures { Gives (λ name. name) result (name_of word.now) }
{
    if !is_name(word) {
        return Err(ScriptFault::BadLine);
    }
    let name = ListOf::from_vec(Vec::from_slice(alloc, word)?);
    Ok(Name::from_list(name).unwrap())
}

/// The key that the word is.
pub(crate) fn key_of(alloc: Global, word: &[u8]) -> Result<Key, ScriptFault>
    ensures { Gives (λ key. key) result (key_of word.now) }
{
    if !is_key(word) {
        return Err(ScriptFault::BadLine);
    }
    let key = ListOf::from_vec(Vec::from_slice(alloc, word)?);
    Ok(Key::from_list(key).unwrap())
}
