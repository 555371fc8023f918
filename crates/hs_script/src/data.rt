//! The line of a read: its data are printed where they lie.
ghost use Rattle.std.specs.Prelude.{◌≡◌, ◌+◌, ◌*◌, ◌∷◌, ◌++◌, [], codes, OnOk, OnErr, IfSome, IsOkUnless};
ghost use Rattle.hex.specs.Hex.{encode_lower};
ghost use Rattle.hs_script.specs.Replies.{dash_of};
ghost use Rattle.hs_script.specs.Text.{data_text, handles_text, who_text};

use crate::ScriptFault;
use crate::put::put_who;
use hs_journal::Who;
use std::alloc::AllocError;
use std::io;
use std::io::Write;

/// Puts the line of a read at the end of `out`. What stands before the data and behind them is made
/// apart.
#[tactic(auto, using(crate::proofs::TextLemmas::read_text))]
pub(crate) fn print_read(
    who: Who,
    bytes: &[u8],
    handles: &[u32],
    out: &mut Vec<u8>,
) -> Result<(), ScriptFault>
    ensures ok { OnOk result (out.new.items ≡ out.old.items ++
        (who_text who ++ (32 ∷ ((codes "bytes " ++
        (data_text bytes.now ++ handles_text handles.now)) ++ 10 ∷ [])))) }
    ensures err { IsOkUnless result ScriptFault.NoMemory }
    ensures same { OnErr result (out.new.items ≡ out.old.items) }
{
    let mut front = Vec::with_capacity(*out.allocator(), 64)?;
    let mut back = Vec::with_capacity(*out.allocator(), 16)?;
    match put_ends(who, bytes, handles, &mut front, &mut back) {
        Ok(()) => {
            put_around(front.as_slice(), bytes, back.as_slice(), out)?;
            Ok(())
        }
        Err(_) => Err(ScriptFault::NoMemory),
    }
}

/// Puts what stands before the data of a read, and what stands behind them.
fn put_ends(
    who: Who,
    bytes: &[u8],
    handles: &[u32],
    front: &mut Vec<u8>,
    back: &mut Vec<u8>,
) -> io::Result<()>
    ensures front { OnOk result (front.new.items ≡ front.old.items ++
        (who_text who ++ (codes " bytes " ++ dash_of bytes.now))) }
    ensures back { OnOk result (back.new.items ≡ back.old.items ++
        (handles_text handles.now ++ 10 ∷ [])) }
{
    put_who(who, front)?;
    write!(front, " bytes ")?;
    if bytes.is_empty() {
        write!(front, "-")?;
    }
    put_handles(handles, back)?;
    write!(back, "\n")
}

/// Puts handles at the end of `out`, each behind a space.
fn put_handles(handles: &[u32], out: &mut Vec<u8>) -> io::Result<()>
    ensures { OnOk result (out.new.items ≡ out.old.items ++ handles_text handles.now) }
{
    for handle in handles {
        write!(out, " h{handle}")?;
    }
    Ok(())
}

/// Puts bytes at the end of `out` in hexadecimal digits, between two texts.
fn put_around(front: &[u8], bytes: &[u8], back: &[u8], out: &mut Vec<u8>) -> Result<(), AllocError>
    ensures ok { OnOk result (out.new.items ≡
        out.old.items ++ (front.now ++ (encode_lower bytes.now ++ back.now))) }
    ensures same { OnErr result (out.new.items ≡ out.old.items) }
{
    let start = out.len();
    out.extend_from_slice(front)?;
    match put_before(bytes, back, out) {
        Ok(()) => Ok(()),
        Err(fault) => {
            out.truncate(start);
            Err(fault)
        }
    }
}

/// Puts bytes at the end of `out` in hexadecimal digits, before a text.
fn put_before(bytes: &[u8], back: &[u8], out: &mut Vec<u8>) -> Result<(), AllocError>
    ensures ok { OnOk result (out.new.items ≡
        out.old.items ++ (encode_lower bytes.now ++ back.now)) }
    ensures same { OnErr result (out.new.items ≡ out.old.items) }
{
    let start = out.len();
    put_hex(bytes, out)?;
    match out.extend_from_slice(back) {
        Ok(()) => Ok(()),
        Err(fault) => {
            out.truncate(start);
            Err(fault)
        }
    }
}

/// Puts bytes at the end of `out` in hexadecimal digits.
fn put_hex(bytes: &[u8], out: &mut Vec<u8>) -> Result<(), AllocError>
    ensures ok { OnOk result (out.new.items ≡ out.old.items ++ encode_lower bytes.now) }
    ensures same { OnErr result (out.new.items ≡ out.old.items) }
{
    let start = out.len();
    let Some(end) = end_of(start, bytes.len()) else {
        return Err(AllocError);
    };
    out.resize(end, 0)?;
    match hex::encode_to_slice(bytes, &mut out.as_mut_slice()[start..]) {
        Ok(()) => Ok(()),
        Err(_) => unreachable!(),
    }
}

/// Where two digits for each of so many bytes end.
fn end_of(start: usize, count: usize) -> Option<usize>
    ensures { IfSome result (λ end. end ≡ start + 2 * count) }
{
    start.checked_add(count.checked_mul(2)?)
}
