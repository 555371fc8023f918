//! The handles of a write.
ghost use Rattle.std.specs.Prelude.{◌≡◌, is_some};
ghost use Rattle.hs_script.specs.Giving.{Gives, IsFaultIn, more_words};
ghost use Rattle.hs_script.specs.Parts.{handles_of};

use crate::ScriptFault;
use crate::number::handle_of;
use crate::words::leading_word;
use hs_limits::ListOf;
use std::alloc::Global;

/// Whether each of the words names a handle. It takes no memory.
#[tactic(auto, using(crate::proofs::HandleLemmas::handles_none, crate::proofs::HandleLemmas::handles_more, crate::proofs::HandleLemmas::handles_bad))]
pub(crate) fn are_handles(rest: &[u8]) -> bool
    ensures { result ≡ is_some (handles_of (more_words rest.now)) }
{
    let mut left = rest;
    'words: while let Some((word, more)) = leading_word(left) {
        match handle_of(word) {
            Some(_) => left = more,
            None => return false,
        }
    }
    true
}

/// The handles that the words name.
#[tactic(auto, using(crate::proofs::HandleLemmas::after_none, crate::proofs::HandleLemmas::after_more, crate::proofs::HandleLemmas::after_bad, crate::proofs::HandleLemmas::after_some))]
pub(crate) fn handles_of(alloc: Global, rest: &[u8]) -> Result<ListOf<u32>, ScriptFault>
    ensures { Gives (λ handles. handles) result (handles_of (more_words rest.now)) }
{
    let mut handles = ListOf::new(alloc);
    let mut left = rest;
    'words: while let Some((word, more)) = leading_word(left) {
        match handle_of(word) {
            None => return Err(ScriptFault::BadLine),
            Some(handle) => match handles.push(handle) {
                Ok(()) => left = more,
                Err(_) => return Err(fault_without_memory(left)),
            },
        }
    }
    Ok(handles)
}

/// Why the words were not taken where memory is wanting: one names no handle, or memory is.
pub(crate) fn fault_without_memory(rest: &[u8]) -> ScriptFault
    ensures { IsFaultIn result (handles_of (more_words rest.now)) }
{
    if are_handles(rest) {
        ScriptFault::NoMemory
    } else {
        ScriptFault::BadLine
    }
}
