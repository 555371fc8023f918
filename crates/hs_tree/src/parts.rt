//! Reading the parts of a stored file: its pieces, and the runs of them.
ghost use Rattle.std.specs.Prelude.{◌≡◌, IfErr, IfOk, None};
ghost use Rattle.hs_tree.specs.Rows.{PartStops, ReadsPart, ReadsRow, RowStops};

use crate::TreeFault;
use crate::calls::{forget, read};
use crate::shape::{in_piece, in_run, is_piece, is_run};
use hs_asking::Asker;
use hs_limits::Name;
use std::alloc::Global;

/// Reads a piece of so many bytes, and forgets its handle. False where it is none.
fn fetch_piece<B: Asker>(
    alloc: Global,
    asker: &mut B,
    session: &Name,
    handle: u32,
    part: u64,
    out: &mut Vec<u8>,
) -> Result<bool, TreeFault>
    requires going { (B.shows asker.old).ended ≡ None }
    ensures ok { IfOk result (λ good. ReadsPart session.now (B.shows asker.old)
        (B.shows asker.new) 0 handle part out.old.items out.new.items good) }
    ensures err { IfErr result (λ f. PartStops session.now (B.shows asker.old)
        (B.shows asker.new) 0 handle f) }
{
    let (content, below) = read(alloc, asker, session, handle)?;
    if !is_piece(content.as_slice(), below.as_slice(), part) {
        return Ok(false);
    }
    out.extend_from_slice(content.as_slice())?;
    forget(alloc, asker, session, handle)?;
    Ok(true)
}

/// Reads the pieces of so many bytes, one after another, and forgets each. False where they are none.
pub(crate) fn fetch_pieces<B: Asker>(
    alloc: Global,
    asker: &mut B,
    session: &Name,
    handles: &[u32],
    bytes: u64,
    out: &mut Vec<u8>,
) -> Result<bool, TreeFault>
    requires going { (B.shows asker.old).ended ≡ None }
    ensures ok { IfOk result (λ good. ReadsRow session.now (B.shows asker.old)
        (B.shows asker.new) 0 handles.now bytes out.old.items out.new.items good) }
    ensures err { IfErr result (λ f. RowStops session.now (B.shows asker.old)
        (B.shows asker.new) 0 handles.now f) }
{
    let mut left = bytes;
    for handle in handles {
        let part = in_piece(left);
        if !fetch_piece(alloc, asker, session, *handle, part, out)? {
            return Ok(false);
        }
        left -= part;
    }
    Ok(left == 0)
}

/// Reads a run of so many bytes, and forgets its handle. False where it is none.
fn fetch_run<B: Asker>(
    alloc: Global,
    asker: &mut B,
    session: &Name,
    handle: u32,
    part: u64,
    out: &mut Vec<u8>,
) -> Result<bool, TreeFault>
    requires going { (B.shows asker.old).ended ≡ None }
    ensures ok { IfOk result (λ good. ReadsPart session.now (B.shows asker.old)
        (B.shows asker.new) 1 handle part out.old.items out.new.items good) }
    ensures err { IfErr result (λ f. PartStops session.now (B.shows asker.old)
        (B.shows asker.new) 1 handle f) }
{
    let (content, below) = read(alloc, asker, session, handle)?;
    if !is_run(content.as_slice(), part) {
        return Ok(false);
    }
    if !fetch_pieces(alloc, asker, session, below.as_slice(), part, out)? {
        return Ok(false);
    }
    forget(alloc, asker, session, handle)?;
    Ok(true)
}

/// Reads the runs of so many bytes, one after another, and forgets each. False where they are none.
pub(crate) fn fetch_runs<B: Asker>(
    alloc: Global,
    asker: &mut B,
    session: &Name,
    handles: &[u32],
    bytes: u64,
    out: &mut Vec<u8>,
) -> Result<bool, TreeFault>
    requires going { (B.shows asker.old).ended ≡ None }
    ensures ok { IfOk result (λ good. ReadsRow session.now (B.shows asker.old)
        (B.shows asker.new) 1 handles.now bytes out.old.items out.new.items good) }
    ensures err { IfErr result (λ f. RowStops session.now (B.shows asker.old)
        (B.shows asker.new) 1 handles.now f) }
{
    let mut left = bytes;
    for handle in handles {
        let part = in_run(left);
        if !fetch_run(alloc, asker, session, *handle, part, out)? {
            return Ok(false);
        }
        left -= part;
    }
    Ok(left == 0)
}
