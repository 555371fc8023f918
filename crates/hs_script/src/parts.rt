//! What the words behind a verb give.
ghost use Rattle.std.specs.Prelude.{◌≡◌};
ghost use Rattle.hs_script.specs.Giving.{Gives, more_words};
ghost use Rattle.hs_script.specs.Parts.{handle_of, key_of, message_number, name_of, peer_number};
ghost use Rattle.hs_script.specs.Reading.{leading, no_word, only};

use crate::ScriptFault;
use crate::name::{key_of, name_of};
use crate::number::{handle_of, message_number, peer_number};
use crate::words::{leading_word, only_word};
use hs_limits::{Key, Name, is_key};
use std::alloc::Global;

/// Nothing.
#[tactic(auto, using(crate::proofs::WordsLemmas::no_word_more))]
pub(crate) fn no_word(rest: &[u8]) -> Result<(), ScriptFault>
    ensures { Gives (λ none. none) result (no_word (more_words rest.now)) }
{
    if rest.is_empty() {
        Ok(())
    } else {
        Err(ScriptFault::BadLine)
    }
}

/// A session alone.
pub(crate) fn session(alloc: Global, rest: &[u8]) -> Result<Name, ScriptFault>
    ensures { Gives (λ name. name) result (only name_of (more_words rest.now)) }
{
    match only_word(rest) {
        Some(word) => name_of(alloc, word),
        None => Err(ScriptFault::BadLine),
    }
}

/// A key alone.
pub(crate) fn key(alloc: Global, rest: &[u8]) -> Result<Key, ScriptFault>
    ensures { Gives (λ key. key) result (only key_of (more_words rest.now)) }
{
    match only_word(rest) {
        Some(word) => key_of(alloc, word),
        None => Err(ScriptFault::BadLine),
    }
}

/// The number of a peer alone.
pub(crate) fn peer(rest: &[u8]) -> Result<u8, ScriptFault>
    ensures { Gives (λ peer. peer) result (only peer_number (more_words rest.now)) }
{
    match only_word(rest) {
        Some(word) => peer_number(word).ok_or(ScriptFault::BadLine),
        None => Err(ScriptFault::BadLine),
    }
}

/// The number of a message alone.
pub(crate) fn message(rest: &[u8]) -> Result<u64, ScriptFault>
    ensures { Gives (λ message. message) result (only message_number (more_words rest.now)) }
{
    match only_word(rest) {
        Some(word) => message_number(word).ok_or(ScriptFault::BadLine),
        None => Err(ScriptFault::BadLine),
    }
}

/// A handle alone.
fn handle(rest: &[u8]) -> Option<u32>
    ensures { result ≡ only handle_of (more_words rest.now) }
{
    match only_word(rest) {
        Some(word) => handle_of(word),
        None => None,
    }
}

/// A session and a handle.
pub(crate) fn session_and_handle(alloc: Global, rest: &[u8]) -> Result<(Name, u32), ScriptFault>
    ensures { Gives (λ p. (p.0, p.1)) result
        (leading name_of (only handle_of) (more_words rest.now)) }
{
    let Some((word, rest)) = leading_word(rest) else {
        return Err(ScriptFault::BadLine);
    };
    let Some(handle) = handle(rest) else {
        return Err(ScriptFault::BadLine);
    };
    Ok((name_of(alloc, word)?, handle))
}

/// A key and a handle.
pub(crate) fn key_and_handle(alloc: Global, rest: &[u8]) -> Result<(Key, u32), ScriptFault>
    ensures { Gives (λ p. (p.0, p.1)) result
        (leading key_of (only handle_of) (more_words rest.now)) }
{
    let Some((word, rest)) = leading_word(rest) else {
        return Err(ScriptFault::BadLine);
    };
    let Some(handle) = handle(rest) else {
        return Err(ScriptFault::BadLine);
    };
    Ok((key_of(alloc, word)?, handle))
}

/// A session and a key.
pub(crate) fn session_and_key(alloc: Global, rest: &[u8]) -> Result<(Name, Key), ScriptFault>
    ensures { Gives (λ p. (p.0, p.1)) result
        (leading name_of (only key_of) (more_words rest.now)) }
{
    let Some((session, rest)) = leading_word(rest) else {
        return Err(ScriptFault::BadLine);
    };
    let Some(key) = only_word(rest) else {
        return Err(ScriptFault::BadLine);
    };
    if !is_key(key) {
        return Err(ScriptFault::BadLine);
    }
    let session = name_of(alloc, session)?;
    Ok((session, key_of(alloc, key)?))
}
