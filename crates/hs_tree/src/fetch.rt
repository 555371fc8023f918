//! Fetching a file that is stored under a key.
ghost use Rattle.std.specs.Prelude.{◌≡◌, ◌++◌, IfErr, IfOk, IfSome, None, OnErr, OnOk, true};
ghost use Rattle.hs_model.specs.Store.{held_at};
ghost use Rattle.hs_asking.specs.Shown.{IfTold, store_now};
ghost use Rattle.hs_tree.specs.Fetching.{HasFetched, IsAlone, IsFetchStopped};
ghost use Rattle.hs_tree.specs.Rows.{IsUnput, ReadsTop, TopStops};

use crate::TreeFault;
use crate::calls::{look, open, read};
use crate::parts::{fetch_pieces, fetch_runs};
use crate::session::session_name;
use crate::shape::number_in;
use crate::sizes::{MOST_FILE, RUN_BYTES};
use hs_asking::Asker;
use hs_limits::{Address, Key, MOST_BYTES, Name};
use std::alloc::Global;

/// Reads the tree at a handle, and puts its file at the end of `out`. False where it is none.
fn fetch_top<B: Asker>(
    alloc: Global,
    asker: &mut B,
    session: &Name,
    handle: u32,
    out: &mut Vec<u8>,
) -> Result<bool, TreeFault>
    requires going { (B.shows asker.old).ended ≡ None }
    ensures ok { IfOk result (λ good. ReadsTop session.now (B.shows asker.old)
        (B.shows asker.new) handle out.old.items out.new.items good) }
    ensures err { IfErr result (λ f. TopStops session.now (B.shows asker.old)
        (B.shows asker.new) handle f) }
{
    let (content, handles) = read(alloc, asker, session, handle)?;
    if handles.is_empty() {
        out.extend_from_slice(content.as_slice())?;
        return Ok(true);
    }
    let Some(bytes) = number_in(content.as_slice()) else {
        return Ok(false);
    };
    if bytes <= MOST_BYTES as u64 || bytes > MOST_FILE {
        return Ok(false);
    }
    if bytes <= RUN_BYTES {
        fetch_pieces(alloc, asker, session, handles.as_slice(), bytes, out)
    } else {
        fetch_runs(alloc, asker, session, handles.as_slice(), bytes, out)
    }
}

/// The address that a handle stands for: zeros where the asker doesn't tell it.
fn held_address<B: Asker>(asker: &B, session: &Name, handle: u32) -> Address
    requires { (B.shows asker.now).ended ≡ None }
    ensures { IfTold (B.shows asker.now) (λ b.
        IfSome (held_at (store_now b (B.shows asker.now)) session.now handle) (λ held.
        result ≡ held.address)) }
{
    match asker.held(session, handle) {
        Some(held) => held.address,
        None => Address([0; 32]),
    }
}

/// Puts what was read at an address, where that is the tree of a file.
fn put_file(good: bool, address: Address, file: &[u8], out: &mut Vec<u8>) -> Result<(), TreeFault>
    ensures put { OnOk result (out.new.items ≡ out.old.items ++ file.now) }
    ensures good { OnOk result (good ≡ true) }
    ensures unput { IfErr result (λ f. IsUnput good address f) }
    ensures same { OnErr result (out.new.items ≡ out.old.items) }
{
    if !good {
        return Err(TreeFault::NotATree { address });
    }
    out.extend_from_slice(file)?;
    Ok(())
}

/// Puts the file that is stored under a key at the end of `out`. What is no file's tree is told place by
/// place, by its shape and the lengths and numbers in its blocks, and nothing is put before that is decided.
pub fn fetch_file<B: Asker>(
    alloc: Global,
    asker: &mut B,
    key: &Key,
    out: &mut Vec<u8>,
) -> Result<(), TreeFault>
    requires going { (B.shows asker.old).ended ≡ None }
    requires alone { IfTold (B.shows asker.old) (λ b. IsAlone b (B.shows asker.old)) }
    ensures fetched { OnOk result (HasFetched key.now
        (B.shows asker.old) (B.shows asker.new) out.old.items out.new.items) }
    ensures stopped { IfErr result (λ f.
        IsFetchStopped key.now (B.shows asker.old) (B.shows asker.new) f) }
    ensures same { OnErr result (out.new.items ≡ out.old.items) }
{
    let session = session_name(alloc)?;
    asker.known();
    open(alloc, asker, &session)?;
    let handle = look(alloc, asker, &session, key)?;
    // Taken here: of a bad tree it is not said that the handle is still held behind it.
    let address = held_address(asker, &session, handle);
    let mut file = Vec::new(alloc);
    let good = fetch_top(alloc, asker, &session, handle, &mut file)?;
    put_file(good, address, &file, out)
}
