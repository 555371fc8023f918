//! The one spelling of an entry.
ghost use Rattle.std.specs.Prelude.{◌≡◌, ◌≤◌, ◌++◌, length, OnOk, OnErr, IsOkUnless};
ghost use Rattle.hs_entry.specs.declared.entry.Entry.TheVariants as kinds;
ghost use Rattle.hs_entry.specs.Payload.{payload};
ghost use Rattle.hs_entry.specs.Reading.{IsReadable};

use crate::field::{begin, put, put_deltas, put_eight, put_four, put_key};
use crate::{Entry, EntryFault};
use hs_limits::{Address, Delta, Key};
use std::alloc::AllocError;

/// Puts the payload of this entry at the end of `out`, where it is one that `read_entry` takes. An
/// error leaves `out` as it was.
pub fn write_entry(number: u64, entry: &Entry, out: &mut Vec<u8>) -> Result<(), EntryFault>
    requires { IsReadable entry.now }
    ensures ok { OnOk result (out.new.items ≡ out.old.items ++ payload number entry.now) }
    ensures err { IsOkUnless result EntryFault.NoMemory }
    ensures same { OnErr result (out.new.items ≡ out.old.items) }
{
    match entry {
        Entry::View { view } => write_view(number, *view, out)?,
        Entry::Block { op, least, bytes } => write_block(
            number,
            *op,
            *least,
            bytes.as_slice(),
            out,
        )?,
        Entry::Mark {
            op,
            least,
            block,
            address,
        } => write_mark(number, *op, *least, *block, address, out)?,
        Entry::Root {
            op,
            held,
            address,
            key,
        } => write_root(number, *op, *held, address, key, out)?,
        Entry::Drop { op, key } => write_drop(number, *op, key, out)?,
        Entry::Enter { op, epoch } => write_enter(number, *op, *epoch, out)?,
        Entry::Got {
            sender,
            epoch,
            round,
            total,
            deltas,
        } => write_got(
            number,
            *sender,
            *epoch,
            *round,
            *total,
            deltas.as_slice(),
            out,
        )?,
        _ => unreachable!(),
    }
    Ok(())
}

fn write_view(number: u64, view: u64, out: &mut Vec<u8>) -> Result<(), AllocError>
    ensures ok { OnOk result (out.new.items ≡
        out.old.items ++ payload number (kinds.View view)) }
    ensures same { OnErr result (out.new.items ≡ out.old.items) }
{
    begin(1, number, 8, out)?;
    put_eight(view, out);
    Ok(())
}

fn write_block(
    number: u64,
    op: u64,
    least: u64,
    bytes: &[u8],
    out: &mut Vec<u8>,
) -> Result<(), AllocError>
    ensures ok { OnOk result (out.new.items ≡
        out.old.items ++ payload number (kinds.Block op least bytes.now)) }
    ensures same { OnErr result (out.new.items ≡ out.old.items) }
{
    begin(2, number, 16 + bytes.len(), out)?;
    put_eight(op, out);
    put_eight(least, out);
    put(bytes, out);
    Ok(())
}

fn write_mark(
    number: u64,
    op: u64,
    least: u64,
    block: u64,
    address: &Address,
    out: &mut Vec<u8>,
) -> Result<(), AllocError>
    ensures ok { OnOk result (out.new.items ≡
        out.old.items ++ payload number (kinds.Mark op least block address.now)) }
    ensures same { OnErr result (out.new.items ≡ out.old.items) }
{
    begin(3, number, 56, out)?;
    put_eight(op, out);
    put_eight(least, out);
    put_eight(block, out);
    put(&address.0, out);
    Ok(())
}

fn write_root(
    number: u64,
    op: u64,
    held: u64,
    address: &Address,
    key: &Key,
    out: &mut Vec<u8>,
) -> Result<(), AllocError>
    ensures ok { OnOk result (out.new.items ≡
        out.old.items ++ payload number (kinds.Root op held address.now key.now)) }
    ensures same { OnErr result (out.new.items ≡ out.old.items) }
{
    begin(4, number, 113, out)?;
    put_eight(op, out);
    put_eight(held, out);
    put(&address.0, out);
    put_key(key, out);
    Ok(())
}

fn write_drop(number: u64, op: u64, key: &Key, out: &mut Vec<u8>) -> Result<(), AllocError>
    ensures ok { OnOk result (out.new.items ≡
        out.old.items ++ payload number (kinds.Drop op key.now)) }
    ensures same { OnErr result (out.new.items ≡ out.old.items) }
{
    begin(5, number, 73, out)?;
    put_eight(op, out);
    put_key(key, out);
    Ok(())
}

fn write_enter(number: u64, op: u64, epoch: u64, out: &mut Vec<u8>) -> Result<(), AllocError>
    ensures ok { OnOk result (out.new.items ≡
        out.old.items ++ payload number (kinds.Enter op epoch)) }
    ensures same { OnErr result (out.new.items ≡ out.old.items) }
{
    begin(6, number, 16, out)?;
    put_eight(op, out);
    put_eight(epoch, out);
    Ok(())
}

fn write_got(
    number: u64,
    sender: u8,
    epoch: u64,
    round: u32,
    total: u32,
    deltas: &[Delta],
    out: &mut Vec<u8>,
) -> Result<(), AllocError>
    requires { length deltas.now ≤ 16665 }
    ensures ok { OnOk result (out.new.items ≡
        out.old.items ++ payload number (kinds.Got sender epoch round total deltas.now)) }
    ensures same { OnErr result (out.new.items ≡ out.old.items) }
{
    begin(7, number, 21 + 36 * deltas.len(), out)?;
    put(&[sender], out);
    put_eight(epoch, out);
    put_four(round, out);
    put_four(total, out);
    put_deltas(deltas, out);
    Ok(())
}
