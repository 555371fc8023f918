//! Writing listed blocks into another store, and the root above them.
ghost use Rattle.std.specs.Prelude.{◌≡◌, ◌≤◌, ℕ, List, [], false, length, map, slice_get, true, IfOk, IfErr, IfSome, OnOk, None, Some};
ghost use Rattle.hs_asking.specs.Shown.{IfTold};
ghost use Rattle.hs_copy.specs.Calls.{CallFails};
ghost use Rattle.hs_copy.specs.Due.{DeletesOn, DeletesSo, DeletesWhenDue, WhereRefused, count_of, is_due};
ghost use Rattle.hs_copy.specs.Rounds.{AreForgettable, Forgets, ForgetStops, HoldsSo, IsLast, IsNamedBy, IsNotStale, IsTriedAs, IsWriteCause, PlacedFails, RootDone, RootStops, RoundDone, RoundIs, RoundStops, RoundsDone, RoundsStop, WritesAll, WritesNode, WritesPlaced, write_above};
ghost use Rattle.hs_copy.specs.declared.fault.PartFault.TheVariants.{NoMemory};
ghost use Rattle.hs_limits.specs.Block.{spell};
ghost use Rattle.hs_limits.specs.declared.spelling.TheConstants.{MOST_BYTES, MOST_POINTERS};
ghost use Rattle.hs_tree.specs.Storing.{IsIdle, our_session};

use crate::calls::{forget, open, root, write};
use crate::deleting::{Deleting, delete_when_due};
use crate::fault::PartFault;
use crate::order::Placed;
use crate::pushing::push_to;
use crate::sizes::MOST_DELETIONS;
use hs_asking::Asker;
use hs_block::{Addresser, write_head};
use hs_limits::{Address, Key, ListOf, MOST_BYTES, MOST_POINTERS, Name};
use hs_model::Reply;
use std::alloc::{AllocError, Global};

/// A block that was written: the handle that its session holds, and its address.
#[derive(Clone, Copy, Debug, PartialEq, Eq)]
pub(crate) struct Node {
    pub handle: u32,
    pub address: Address,
}

/// The node at a place. A place that has none counts as want of memory.
fn node_at(nodes: &[Node], place: u32) -> Result<Node, PartFault>
    ensures ok { IfOk result (λ node. slice_get nodes.now place ≡ Some node) }
    ensures err { IfErr result (λ f. f ≡ NoMemory) }
{
    match nodes.get(place as usize) {
        Some(node) => Ok(*node),
        None => Err(PartFault::NoMemory),
    }
}

/// The nodes at some places.
fn nodes_at(alloc: Global, nodes: &[Node], places: &[u32]) -> Result<Vec<Node>, PartFault>
    ensures ok { IfOk result (λ v. map (λ p. slice_get nodes.now p) places.now
        ≡ map (λ n. Some n) v.items) }
    ensures err { IfErr result (λ f. f ≡ NoMemory) }
{
    let mut below = Vec::new(alloc);
    for place in places {
        let node = node_at(nodes, *place)?;
        push_to(&mut below, node)?;
    }
    Ok(below)
}

/// The last of some nodes. None where there is none.
fn last_node(nodes: &[Node]) -> Option<Node>
    ensures { IfSome result (λ top. IsLast nodes.now top) }
{
    match nodes.split_last() {
        Some((top, _)) => Some(*top),
        None => None,
    }
}

/// Whether these make a block within the bounds of blocks.
fn fits(nodes: &[Node], bytes: &[u8]) -> bool
    ensures { result ≡ true → (length nodes.now ≤ MOST_POINTERS) × (length bytes.now ≤ MOST_BYTES) }
{
    nodes.len() <= MOST_POINTERS && bytes.len() <= MOST_BYTES
}

/// A copy of some bytes.
fn payload_of(alloc: Global, bytes: &[u8]) -> Result<ListOf<u8>, AllocError>
    ensures { IfOk result (λ payload. payload ≡ bytes.now) }
{
    Ok(ListOf::from_vec(Vec::from_slice(alloc, bytes)?))
}

/// The addresses of some nodes.
fn addresses_of(alloc: Global, nodes: &[Node]) -> Result<Vec<Address>, AllocError>
    ensures { IfOk result (λ v. v.items ≡ map (λ n. n.address) nodes.now) }
{
    nodes.iter().map(|node| node.address).collect(alloc)
}

/// Their handles.
fn handles_of(alloc: Global, nodes: &[Node]) -> Result<Vec<u32>, AllocError>
    ensures { IfOk result (λ v. v.items ≡ map (λ n. n.handle) nodes.now) }
{
    nodes.iter().map(|node| node.handle).collect(alloc)
}

/// The name of the block of these pointers and bytes.
fn name_block<A: Addresser>(
    alloc: Global,
    naming: &A,
    pointers: &[Address],
    data: &[u8],
) -> Result<Address, PartFault>
    requires few { length pointers.now ≤ MOST_POINTERS }
    requires short { length «data».now ≤ MOST_BYTES }
    ensures ok { IfOk result (λ address. address ≡ A.name naming.now
        (spell (record { pointers = pointers.now; bytes = «data».now }))) }
    ensures err { IfErr result (λ fault. fault ≡ NoMemory) }
{
    let mut head = Vec::new(alloc);
    match write_head(pointers, data.len(), &mut head) {
        Ok(()) => Ok(naming.address_of_parts(&head, data)),
        Err(_) => Err(PartFault::NoMemory),
    }
}

/// Writes the block of these bytes above some nodes, and answers its node.
fn write_node<B: Asker, A: Addresser>(
    alloc: Global,
    asker: &mut B,
    naming: &A,
    session: &Name,
    nodes: &[Node],
    bytes: &[u8],
) -> Result<Node, PartFault>
    requires going { (B.shows asker.old).ended ≡ None }
    requires ours { session.now ≡ our_session }
    requires few { length nodes.now ≤ MOST_POINTERS }
    requires short { length bytes.now ≤ MOST_BYTES }
    requires named { IsNamedBy (A.name naming.now) session.now (B.shows asker.old) nodes.now }
    ensures ok { IfOk result (λ made. WritesNode (A.name naming.now) session.now
        (B.shows asker.old) (B.shows asker.new) nodes.now bytes.now made) }
    ensures err { IfErr result (λ fault. CallFails (B.shows asker.old) (B.shows asker.new)
        (write_above (A.name naming.now) session.now nodes.now bytes.now) fault) }
{
    let addresses = addresses_of(alloc, nodes)?;
    let handles = handles_of(alloc, nodes)?;
    let address = name_block(alloc, naming, &addresses, bytes)?;
    let payload = payload_of(alloc, bytes)?;
    let handle = write(
        alloc,
        asker,
        session,
        payload,
        ListOf::from_vec(handles),
        address,
    )?;
    Ok(Node { handle, address })
}

/// Writes the block of a place behind the nodes of those before it, and answers its node. One that is out
/// of the bounds of blocks counts as want of memory.
fn write_placed<B: Asker, A: Addresser>(
    alloc: Global,
    asker: &mut B,
    naming: &A,
    session: &Name,
    nodes: &[Node],
    place: &Placed,
) -> Result<Node, PartFault>
    requires going { (B.shows asker.old).ended ≡ None }
    requires ours { session.now ≡ our_session }
    requires holds { HoldsSo (A.name naming.now) (B.shows asker.old) nodes.now }
    ensures ok { IfOk result (λ made. WritesPlaced (A.name naming.now)
        (B.shows asker.old) (B.shows asker.new) nodes.now place.now made) }
    ensures err { IfErr result (λ f. PlacedFails (A.name naming.now)
        (B.shows asker.old) (B.shows asker.new) nodes.now place.now f) }
{
    let below = nodes_at(alloc, nodes, place.below.as_slice())?;
    let bytes = place.bytes.as_slice();
    if !fits(&below, bytes) {
        return Err(PartFault::NoMemory);
    }
    write_node(alloc, asker, naming, session, &below, bytes)
}

/// Forgets some nodes.
fn forget_all<B: Asker, A: Addresser>(
    alloc: Global,
    asker: &mut B,
    _naming: &A,
    session: &Name,
    nodes: &[Node],
) -> Result<(), PartFault>
    requires going { (B.shows asker.old).ended ≡ None }
    requires ours { session.now ≡ our_session }
    ensures ok { OnOk result (Forgets (A.name _naming.now)
        (B.shows asker.old) (B.shows asker.new) nodes.now) }
    ensures err { IfErr result (λ f. ForgetStops (B.shows asker.old) (B.shows asker.new) f) }
    ensures granted { IfErr result (λ f. AreForgettable (A.name _naming.now)
        (B.shows asker.old) nodes.now f) }
{
    for node in nodes {
        forget(alloc, asker, session, node.handle)?;
    }
    Ok(())
}

/// Writes all blocks in their order, with deletions where they are due, behind an empty list of nodes.
fn write_blocks<B: Asker, A: Addresser>(
    alloc: Global,
    asker: &mut B,
    naming: &A,
    session: &Name,
    placed: &[Placed],
    deleting: &mut Deleting,
    nodes: &mut Vec<Node>,
) -> Result<(), PartFault>
    requires going { (B.shows asker.old).ended ≡ None }
    requires ours { session.now ≡ our_session }
    requires empty { nodes.old.items ≡ [] }
    requires few { deleting.old.asked ≤ 4 }
    requires rest { is_due (count_of deleting.old) ≡ false }
    requires most { length placed.now ≤ 4000 }
    requires holds { HoldsSo (A.name naming.now) (B.shows asker.old) [] }
    ensures ok { OnOk result (WritesAll (A.name naming.now) (B.shows asker.old)
        (B.shows asker.new) placed.now nodes.new.items deleting.old.asked deleting.new.asked) }
    ensures few { deleting.new.asked ≤ 4 }
    ensures err { IfErr result (λ f. (key : List ℕ) → RoundStops (A.name naming.now) key
        (B.shows asker.old) (B.shows asker.new) placed.now nodes.new.items
        deleting.old.asked deleting.new.asked f) }
    ensures due { OnOk result (DeletesSo (count_of deleting.old)
        (count_of deleting.new) (B.shows asker.old) (B.shows asker.new)) }
    ensures refused { IfErr result (λ f. WhereRefused f (DeletesSo (count_of deleting.old)
        (count_of deleting.new) (B.shows asker.old) (B.shows asker.new))) }
{
    for place in placed {
        let node = write_placed(alloc, asker, naming, session, nodes, place)?;
        push_to(nodes, node)?;
        delete_when_due(asker, deleting)?;
    }
    Ok(())
}

/// One beginning: writes all blocks, and puts the root.
fn write_round<B: Asker, A: Addresser>(
    alloc: Global,
    asker: &mut B,
    naming: &A,
    session: &Name,
    key: &Key,
    placed: &[Placed],
    deleting: &mut Deleting,
    nodes: &mut Vec<Node>,
) -> Result<(), PartFault>
    requires going { (B.shows asker.old).ended ≡ None }
    requires ours { session.now ≡ our_session }
    requires empty { nodes.old.items ≡ [] }
    requires few { deleting.old.asked ≤ 4 }
    requires rest { is_due (count_of deleting.old) ≡ false }
    requires most { length placed.now ≤ 4000 }
    requires holds { HoldsSo (A.name naming.now) (B.shows asker.old) [] }
    ensures ok { OnOk result (RoundDone (A.name naming.now) key.now (B.shows asker.old)
        (B.shows asker.new) placed.now deleting.old.asked deleting.new.asked) }
    ensures few { deleting.new.asked ≤ 4 }
    ensures err { IfErr result (λ f. RoundStops (A.name naming.now) key.now
        (B.shows asker.old) (B.shows asker.new) placed.now nodes.new.items
        deleting.old.asked deleting.new.asked f) }
    ensures due { OnOk result (DeletesSo (count_of deleting.old)
        (count_of deleting.new) (B.shows asker.old) (B.shows asker.new)) }
    ensures refused { IfErr result (λ f. WhereRefused f (DeletesSo (count_of deleting.old)
        (count_of deleting.new) (B.shows asker.old) (B.shows asker.new))) }
{
    write_blocks(alloc, asker, naming, session, placed, deleting, nodes)?;
    match last_node(nodes) {
        Some(top) => root(alloc, asker, session, key, top.handle),
        None => Err(PartFault::NoMemory),
    }
}

/// Whether a beginning was done. False where a handle was stale.
fn whole_or_stale(round: Result<(), PartFault>) -> Result<bool, PartFault>
    ensures { IsTriedAs round result }
{
    match round {
        Ok(()) => Ok(true),
        Err(PartFault::Refused(Reply::Stale { .. })) => Ok(false),
        Err(fault) => Err(fault),
    }
}

/// One beginning. False where a handle was stale.
fn try_round<B: Asker, A: Addresser>(
    alloc: Global,
    asker: &mut B,
    naming: &A,
    session: &Name,
    key: &Key,
    placed: &[Placed],
    deleting: &mut Deleting,
    nodes: &mut Vec<Node>,
) -> Result<bool, PartFault>
    requires going { (B.shows asker.old).ended ≡ None }
    requires ours { session.now ≡ our_session }
    requires empty { nodes.old.items ≡ [] }
    requires few { deleting.old.asked ≤ 4 }
    requires rest { is_due (count_of deleting.old) ≡ false }
    requires most { length placed.now ≤ 4000 }
    requires holds { HoldsSo (A.name naming.now) (B.shows asker.old) [] }
    ensures ok { IfOk result (λ whole. RoundIs (A.name naming.now) key.now (B.shows asker.old)
        (B.shows asker.new) placed.now nodes.new.items deleting.old.asked
        deleting.new.asked whole) }
    ensures few { deleting.new.asked ≤ 4 }
    ensures err { IfErr result (λ f. RoundStops (A.name naming.now) key.now
        (B.shows asker.old) (B.shows asker.new) placed.now nodes.new.items
        deleting.old.asked deleting.new.asked f) }
    ensures caught { IfErr result IsNotStale }
    ensures due { IfOk result (λ whole. DeletesSo (count_of deleting.old)
        (count_of deleting.new) (B.shows asker.old) (B.shows asker.new)) }
{
    whole_or_stale(write_round(alloc, asker, naming, session, key, placed, deleting, nodes))
}

/// Writes all blocks and puts the root, and begins again where a handle was stale, at most four times.
fn write_rounds<B: Asker, A: Addresser>(
    alloc: Global,
    asker: &mut B,
    naming: &A,
    session: &Name,
    key: &Key,
    placed: &[Placed],
    deleting: &mut Deleting,
) -> Result<(), PartFault>
    requires going { (B.shows asker.old).ended ≡ None }
    requires ours { session.now ≡ our_session }
    requires few { deleting.old.asked ≤ 4 }
    requires rest { is_due (count_of deleting.old) ≡ false }
    requires most { length placed.now ≤ 4000 }
    requires holds { HoldsSo (A.name naming.now) (B.shows asker.old) [] }
    ensures ok { OnOk result (RoundsDone (A.name naming.now) key.now (B.shows asker.old)
        (B.shows asker.new) placed.now deleting.old.asked) }
    ensures err { IfErr result (λ f. RoundsStop (A.name naming.now) key.now
        (B.shows asker.old) (B.shows asker.new) placed.now deleting.old.asked f) }
    ensures due { OnOk result (DeletesOn (count_of deleting.old)
        (B.shows asker.old) (B.shows asker.new)) }
{
    let mut broken = 0;
    'rounds: while broken < MOST_DELETIONS {
        let mut nodes = Vec::new(alloc);
        if try_round(
            alloc, asker, naming, session, key, placed, deleting, &mut nodes,
        )? {
            return Ok(());
        }
        forget_all(alloc, asker, naming, session, &nodes)?;
        broken += 1;
    }
    let mut nodes = Vec::new(alloc);
    write_round(
        alloc, asker, naming, session, key, placed, deleting, &mut nodes,
    )
}

/// Opens a session in a store that holds nothing, writes all blocks, and puts the root.
pub(crate) fn write_root<B: Asker, A: Addresser>(
    alloc: Global,
    asker: &mut B,
    naming: &A,
    session: &Name,
    key: &Key,
    placed: &[Placed],
    every: Option<u32>,
) -> Result<(), PartFault>
    requires going { (B.shows asker.old).ended ≡ None }
    requires ours { session.now ≡ our_session }
    requires most { length placed.now ≤ 4000 }
    requires idle { IfTold (B.shows asker.old) (λ b.
        IsIdle (A.name naming.now) b (B.shows asker.old)) }
    ensures ok { OnOk result (RootDone (A.name naming.now) key.now (B.shows asker.old)
        (B.shows asker.new) placed.now) }
    ensures err { IfErr result (λ f. RootStops (A.name naming.now) key.now
        (B.shows asker.old) (B.shows asker.new) placed.now f) }
    ensures cause { IfErr result (λ f. IsWriteCause key.now (B.shows asker.old) f) }
    ensures due { OnOk result (DeletesWhenDue every (B.shows asker.old) (B.shows asker.new)) }
{
    let mut deleting = Deleting {
        every,
        writes: 0,
        asked: 0,
    };
    asker.known();
    open(alloc, asker, session)?;
    write_rounds(alloc, asker, naming, session, key, placed, &mut deleting)
}
