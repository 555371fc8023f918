//! What a difference tells of its two sides.
ghost use Rattle.std.specs.Prelude.{◌≡◌, IfOk, slice_get};
ghost use Rattle.hs_load.specs.Compared.{answer_in};
ghost use Rattle.hs_load.specs.Judged.{told_at};
ghost use Rattle.hs_promise.specs.declared.told.Told.TheVariants as told;

use hs_journal::JournalEntry;
use hs_model::{Deed, Reply};
use hs_promise::Told;
use std::alloc::{AllocError, Global};

/// The same deed again.
fn copy_deed(alloc: Global, deed: &Deed) -> Result<Deed, AllocError>
    ensures { IfOk result (λ copy. copy ≡ deed.now) }
{
    match deed {
        Deed::Opened { session } => Ok(Deed::Opened {
            session: session.copy(alloc)?,
        }),
        Deed::Closed { session } => Ok(Deed::Closed {
            session: session.copy(alloc)?,
        }),
        Deed::Wrote {
            session,
            address,
            pointers,
            handle,
        } => Ok(Deed::Wrote {
            session: session.copy(alloc)?,
            address: *address,
            pointers: pointers.copy(alloc)?,
            handle: *handle,
        }),
        Deed::Marked {
            session,
            address,
            handle,
        } => Ok(Deed::Marked {
            session: session.copy(alloc)?,
            address: *address,
            handle: *handle,
        }),
        Deed::ReadBlock {
            session,
            address,
            epoch,
            handles,
        } => Ok(Deed::ReadBlock {
            session: session.copy(alloc)?,
            address: *address,
            epoch: *epoch,
            handles: handles.copy(alloc)?,
        }),
        Deed::Looked {
            session,
            key,
            handle,
        } => Ok(Deed::Looked {
            session: session.copy(alloc)?,
            key: key.copy(alloc)?,
            handle: *handle,
        }),
        Deed::Rooted { key, address } => Ok(Deed::Rooted {
            key: key.copy(alloc)?,
            address: *address,
        }),
        Deed::Dropped { key } => Ok(Deed::Dropped {
            key: key.copy(alloc)?,
        }),
        Deed::Forgot { session, handle } => Ok(Deed::Forgot {
            session: session.copy(alloc)?,
            handle: *handle,
        }),
        Deed::Entered { shard } => Ok(Deed::Entered { shard: *shard }),
        Deed::Swept { shard } => Ok(Deed::Swept { shard: *shard }),
        Deed::Refused { asked } => match asked.copy(alloc) {
            Ok(asked) => Ok(Deed::Refused { asked }),
            Err(_) => Err(AllocError),
        },
        Deed::Nothing => Ok(Deed::Nothing),
    }
}

/// An answer at a place of the journal.
fn told_item(alloc: Global, place: u64, deed: &Deed, reply: &Reply) -> Result<Told, AllocError>
    ensures { IfOk result (λ item. item ≡ told.Item place deed.now reply.now) }
{
    let deed = copy_deed(alloc, deed)?;
    match reply.copy(alloc) {
        Ok(reply) => Ok(Told::Item(place, deed, reply)),
        Err(_) => Err(AllocError),
    }
}

/// What a list of answers has at a place.
pub(crate) fn told_in(
    alloc: Global,
    kept: &[(u64, Deed, Reply)],
    place: usize,
) -> Result<Told, AllocError>
    ensures { IfOk result (λ item. item ≡ told_at (slice_get kept.now place)) }
{
    match kept.get(place) {
        Some((at, deed, reply)) => told_item(alloc, *at, deed, reply),
        None => Ok(Told::Absent),
    }
}

/// What the journal has at a place, if there is one.
pub(crate) fn told_by(
    alloc: Global,
    journal: &[JournalEntry],
    place: Option<usize>,
) -> Result<Told, AllocError>
    ensures { IfOk result (λ item. item ≡ told_at (answer_in journal.now place)) }
{
    let Some(place) = place else {
        return Ok(Told::Absent);
    };
    match journal.get(place) {
        Some(entry) => told_item(alloc, place as u64, &entry.deed, &entry.reply),
        None => Ok(Told::Absent),
    }
}
