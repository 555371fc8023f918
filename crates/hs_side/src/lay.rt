//! The bytes of a frame behind its gate, laid out in a buffer: what an append writes.
ghost use Rattle.std.specs.Prelude.{◌≡◌, ◌≤◌, ◌∷◌, ◌++◌, [], length, drop, IfOk, OnOk, IfErr};
ghost use Rattle.std.specs.Int.{w32, to_be_bytes};
ghost use Rattle.hs_entry.specs.Payload.{payload};
ghost use Rattle.hs_entry.specs.Reading.{IsReadable};
ghost use Rattle.hs_side.specs.declared.frame.TheConstants.{MOST_PAYLOAD};
ghost use Rattle.hs_side.specs.Spelling.{body};

use crate::SideFault;
use hs_entry::{Entry, write_entry};
use std::alloc::AllocError;

/// Lays out the length of a payload, the payload, and the closed gate behind it.
pub(crate) fn lay_payload(payload: &[u8], frame: &mut Vec<u8>) -> Result<(), AllocError>
    requires { length payload.now ≤ MOST_PAYLOAD }
    ensures { OnOk result (frame.new.items ≡ body payload.now ++ 0 ∷ []) }
{
    frame.clear();
    frame.reserve(payload.len() + 5)?;
    frame.extend_from_slice(&(payload.len() as u32).to_be_bytes())?;
    frame.extend_from_slice(payload)?;
    frame.push(0)?;
    Ok(())
}

/// Lays out the same with the payload of an entry, which is written in its place there, and tells the
/// length of that payload.
pub(crate) fn lay_entry(number: u64, entry: &Entry, frame: &mut Vec<u8>) -> Result<usize, SideFault>
    requires { IsReadable entry.now }
    ensures value { OnOk result (frame.new.items ≡ body (payload number entry.now) ++ 0 ∷ []) }
    ensures len { IfOk result (λ len. len ≡ length (payload number entry.now)) }
    ensures memory { IfErr result (λ fault. fault ≡ SideFault.NoMemory) }
{
    frame.clear();
    frame.extend_from_slice(&[0; 4])?;
    match write_entry(number, entry, frame) {
        Ok(()) => {}
        Err(_) => return Err(SideFault::NoMemory),
    }
    let len = frame.len() - 4;
    set_length(len as u32, frame);
    frame.push(0)?;
    Ok(len)
}

/// Puts a length in the place of the first four bytes, high byte first.
fn set_length(len: u32, frame: &mut Vec<u8>)
    requires { 4 ≤ length frame.old.items }
    ensures { frame.new.items ≡ to_be_bytes w32 len ++ drop 4 frame.old.items }
{
    let [a, b, c, d] = len.to_be_bytes();
    frame[0] = a;
    frame[1] = b;
    frame[2] = c;
    frame[3] = d;
}
