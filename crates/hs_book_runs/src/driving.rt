//! A book that its workers drive in turn.
ghost use Rattle.std.specs.Prelude.{◌≡◌, None, IfOk};
ghost use Rattle.hs_book.specs.Book as books;
ghost use Rattle.hs_book.specs.History.{IsBook, NobodyJoins};

use crate::asking::ask_all;
use crate::fault::RunFault;
use crate::stand::Stand;
use crate::working::{seats_of, work_until_idle};
use hs_book::{Book, Opening, nobody_joins};
use hs_core::Core;
use hs_ports::Disk;
use std::alloc::Global;
use std::marker::Brand;

/// The core that a book comes to, which its workers drive in turn while one asks for the script, and
/// whether each operation was answered.
fn driven<D: Disk>(
    alloc: Global,
    core: Core,
    stand: &mut Stand<D>,
) -> Result<(Core, bool), RunFault>
    requires going { core.ended ≡ None }
    requires calm { NobodyJoins core }
    ensures { IfOk result (λ r. (book : books.Book) × (book.core ≡ r.0) × IsBook core book) }
{
    drive::<Brand, D>(alloc, core, stand)
}

/// The same with a book of an opening that the caller picks.
fn drive<O: Opening, D: Disk>(
    alloc: Global,
    core: Core,
    stand: &mut Stand<D>,
) -> Result<(Core, bool), RunFault>
    requires start { core ≡ O.start }
    requires going { core.ended ≡ None }
    requires calm { NobodyJoins core }
    ensures { IfOk result (λ r. (book : books.Book) × (book.core ≡ r.0) × IsBook O.start book) }
{
    let shape = core.shape();
    let mut seats = seats_of(alloc, shape.shards * shape.copies)?;
    let mut book: Book<O> = Book::open(alloc, core)?;
    work_until_idle(&mut book, &mut seats, stand)?;
    let answered = ask_all(alloc, &mut book, &mut seats, stand)?;
    Ok((book.into_core(), answered))
}

/// The same of a core that may have ended, or of which a peer may be joining: then it is not driven.
pub(crate) fn driven_if_calm<D: Disk>(
    alloc: Global,
    core: Core,
    stand: &mut Stand<D>,
) -> Result<(Core, bool), RunFault> {
    if let Some(fault) = core.ended() {
        return Err(RunFault::Core { fault });
    }
    if !nobody_joins(&core) {
        return Err(RunFault::Unfit);
    }
    driven(alloc, core, stand)
}
