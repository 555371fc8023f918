//! Copying a root with all that it reaches into another store.
ghost use Rattle.std.specs.Prelude.{◌≡◌, ◌≤◌, IfErr, IfOk, None, [], length};
ghost use Rattle.hs_asking.specs.Shown.{IfTold, store_now};
ghost use Rattle.hs_copy.specs.Copying.{HasCopied, IsStopped};
ghost use Rattle.hs_copy.specs.Due.{DeletesWhenDue};
ghost use Rattle.hs_copy.specs.Finding.{IsRootCause, ListingStops};
ghost use Rattle.hs_copy.specs.Listing.{AreAllOf, HasListed};
ghost use Rattle.hs_copy.specs.Placing.{AreBelow};
ghost use Rattle.hs_copy.specs.Rounds.{blocks_of};
ghost use Rattle.hs_tree.specs.Fetching.{IsAlone};
ghost use Rattle.hs_tree.specs.Storing.{IsIdle, our_session};

use crate::CopyFault;
use crate::calls::{look, open};
use crate::fault::{PartFault, in_first, in_second};
use crate::list::list_blocks;
use crate::order::{Placed, order_blocks};
use crate::session::session_name;
use crate::write::write_root;
use hs_asking::Asker;
use hs_block::Addresser;
use hs_limits::{Key, Name};
use std::alloc::Global;

/// Lists all that the root of a key reaches, each block behind those that it points to.
fn list_root<B: Asker>(
    alloc: Global,
    asker: &mut B,
    session: &Name,
    key: &Key,
) -> Result<Vec<Placed>, PartFault>
    requires going { (B.shows asker.old).ended ≡ None }
    requires ours { session.now ≡ our_session }
    requires alone { IfTold (B.shows asker.old) (λ b. IsAlone b (B.shows asker.old)) }
    ensures listed { IfOk result (λ placed. HasListed key.now (B.shows asker.old)
        (B.shows asker.new) (length placed.items)) }
    ensures few { IfOk result (λ placed. length placed.items ≤ 4000) }
    ensures below { IfOk result (λ placed. AreBelow 0 placed.items) }
    ensures all { IfOk result (λ placed. IfTold (B.shows asker.old) (λ b. AreAllOf b.name
        (store_now b (B.shows asker.old)) key.now (blocks_of b.name [] placed.items))) }
    ensures stops { IfErr result (λ f. ListingStops key.now (B.shows asker.old)
        (B.shows asker.new) f) }
    ensures cause { IfErr result (λ f. IfTold (B.shows asker.old) (λ b.
        IsRootCause (store_now b (B.shows asker.old)) key.now f)) }
{
    asker.known();
    open(alloc, asker, session)?;
    let handle = look(alloc, asker, session, key)?;
    let listed = list_blocks(alloc, asker, session, handle)?;
    order_blocks(alloc, &listed)
}

/// How many blocks there are.
fn count_of(placed: &[Placed]) -> u32
    requires { length placed.now ≤ 4000 }
    ensures { result ≡ length placed.now }
{
    placed.len() as u32
}

/// Copies the root of a key with all that it reaches from one store into another, and answers the number
/// of different addresses that it reaches: at most 4,000. The blocks are listed by reads, each address
/// once, and written children first; the root is put last. With `every` a deletion is asked for in the
/// second store behind every so many writes that were done, counted on over a new beginning, at most four
/// times, and any answer is taken. Meanwhile the first store keeps what it keeps.
pub fn copy_root<B: Asker, C: Asker, A: Addresser>(
    alloc: Global,
    first: &mut B,
    second: &mut C,
    naming: &A,
    key: &Key,
    every: Option<u32>,
) -> Result<u32, CopyFault>
    requires going { (B.shows first.old).ended ≡ None }
    requires ready { (C.shows second.old).ended ≡ None }
    // Where a store is told it has no session, the limits are the greatest, and the naming is this one.
    requires idle { IfTold (B.shows first.old) (λ b.
        IsIdle (A.name naming.now) b (B.shows first.old)) }
    requires open { IfTold (C.shows second.old) (λ b.
        IsIdle (A.name naming.now) b (C.shows second.old)) }
    ensures copied { IfOk result (λ n. HasCopied (A.name naming.now) key.now
        (B.shows first.old) (B.shows first.new) (C.shows second.old) (C.shows second.new) n) }
    ensures due { IfOk result (λ n. DeletesWhenDue every (C.shows second.old) (C.shows second.new)) }
    ensures stopped { IfErr result (λ f. IsStopped (A.name naming.now) key.now
        (B.shows first.old) (B.shows first.new) (C.shows second.old) (C.shows second.new) f) }
{
    let session = session_name(alloc)?;
    let placed = match list_root(alloc, first, &session, key) {
        Ok(placed) => placed,
        Err(fault) => return Err(in_first(fault)),
    };
    match write_root(alloc, second, naming, &session, key, &placed, every) {
        Ok(()) => Ok(count_of(&placed)),
        Err(fault) => Err(in_second(fault)),
    }
}
