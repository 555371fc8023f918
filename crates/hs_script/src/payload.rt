//! The data of a write.
ghost use Rattle.std.specs.Prelude.{◌≡◌, ◌<◌, ◌%◌, length};
ghost use Rattle.hs_script.specs.Giving.{Gives, IsFaultIn};
ghost use Rattle.hs_script.specs.Parts.{decoded, payload_of};

use crate::ScriptFault;
use crate::digits::{are_hex_digits, decode};
use hs_limits::ListOf;
use std::alloc::Global;

/// The data that the word gives. The digits are tested and decoded in one pass.
pub(crate) fn payload_of(alloc: Global, word: &[u8]) -> Result<ListOf<u8>, ScriptFault>
    ensures { Gives (λ payload. payload) result (payload_of word.now) }
{
    if word == b"-".as_slice() {
        return Ok(ListOf::new(alloc));
    }
    data_of(alloc, word)
}

/// The data that the word's digits give.
#[tactic(auto, using(crate::proofs::PayloadLemmas::odd_gives_none, crate::proofs::PayloadLemmas::pairs_give, crate::proofs::PayloadLemmas::pairs_give_none))]
fn data_of(alloc: Global, word: &[u8]) -> Result<ListOf<u8>, ScriptFault>
    ensures { Gives (λ payload. payload) result (decoded word.now) }
{
    if word.is_empty() || word.len() % 2 == 1 {
        return Err(ScriptFault::BadLine);
    }
    match vec![in alloc; 0; word.len() / 2] {
        Ok(mut bytes) => {
            if decode(word, bytes.as_mut_slice()) {
                Ok(ListOf::from_vec(bytes))
            } else {
                Err(ScriptFault::BadLine)
            }
        }
        Err(_) => Err(fault_without_memory(word)),
    }
}

/// Why digits were not decoded where memory is wanting: they are none, or memory is.
#[tactic(auto, using(crate::proofs::PayloadLemmas::digits_give, crate::proofs::PayloadLemmas::others_give_none))]
fn fault_without_memory(word: &[u8]) -> ScriptFault
    requires some { 0 < length word.now }
    requires even { length word.now % 2 ≡ 0 }
    ensures { IsFaultIn result (decoded word.now) }
{
    if are_hex_digits(word) {
        ScriptFault::NoMemory
    } else {
        ScriptFault::BadLine
    }
}
