//! The lines of an audit.
ghost use Rattle.std.specs.Prelude.{◌≡◌, ◌++◌, OnOk, slice_index};
ghost use Rattle.std.specs.List.{flat_map};
ghost use Rattle.hs_model.specs.Store.{Store, blocks_in, roots_in};
ghost use Rattle.hs_audit.specs.Text.{garbage_in, last_line, missing_line, shard_line};

use hs_block::print_address;
use hs_limits::Address;
use std::io;
use std::io::Write;

/// What is told of a shard.
#[derive(Clone, Copy)]
pub(crate) struct ShardCounts {
    pub(crate) epoch: u64,
    pub(crate) swept: u64,
    pub(crate) blocks: usize,
    pub(crate) roots: usize,
    pub(crate) garbage: usize,
}

/// Puts the line of a shard at the end of `out`.
#[tactic(auto, unfolding(crate::specs::Text::shard_line))]
pub(crate) fn put_shard(shard: u8, counts: ShardCounts, out: &mut Vec<u8>) -> io::Result<()>
    ensures { OnOk result ((s : Store) → counts.epoch ≡ slice_index s.epochs shard
        → counts.swept ≡ slice_index s.swept shard → counts.blocks ≡ blocks_in s shard
        → counts.roots ≡ roots_in s shard → counts.garbage ≡ garbage_in s shard
        → out.new.items ≡ out.old.items ++ shard_line s shard) }
{
    let ShardCounts {
        epoch,
        swept,
        blocks,
        roots,
        garbage,
    } = counts;
    write!(
        out,
        "shard {shard} epoch {epoch} swept {swept} blocks {blocks} roots {roots} garbage {garbage}\n"
    )
}

/// Puts a line for each address that is missing at the end of `out`, and the last line.
pub(crate) fn put_missing(missing: &[Address], out: &mut Vec<u8>) -> io::Result<()>
    ensures { OnOk result (out.new.items
        ≡ out.old.items ++ (flat_map missing_line missing.now ++ last_line missing.now)) }
{
    put_addresses(missing, out)?;
    put_last(missing, out)
}

/// Puts a line for each address that is missing at the end of `out`.
fn put_addresses(missing: &[Address], out: &mut Vec<u8>) -> io::Result<()>
    ensures { OnOk result (out.new.items ≡ out.old.items ++ flat_map missing_line missing.now) }
{
    for address in missing {
        put_address(address, out)?;
    }
    Ok(())
}

/// Puts the line of an address that is missing at the end of `out`.
fn put_address(address: &Address, out: &mut Vec<u8>) -> io::Result<()>
    ensures { OnOk result (out.new.items ≡ out.old.items ++ missing_line address.now) }
{
    write!(out, "missing ")?;
    match print_address(address, out) {
        Ok(()) => write!(out, "\n"),
        Err(_) => Err(io::Error::from(io::ErrorKind::OutOfMemory)),
    }
}

/// Puts the last line at the end of `out`.
fn put_last(missing: &[Address], out: &mut Vec<u8>) -> io::Result<()>
    ensures { OnOk result (out.new.items ≡ out.old.items ++ last_line missing.now) }
{
    match missing.len() {
        0 => write!(out, "audit ok\n"),
        count => write!(out, "audit bad {count}\n"),
    }
}
