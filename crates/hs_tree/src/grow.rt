//! A tree that is being stored: its blocks are written children first, and runs are closed above.
ghost use Rattle.std.specs.Prelude.{◌≡◌, ◌+◌, ◌≤◌, ◌∷◌, ◌++◌, ℕ, [], length, map, IfOk, IfErr, OnOk, None, Some};
ghost use Rattle.hs_tree.specs.declared.fault.TreeFault.TheVariants.{NoMemory};
ghost use Rattle.std.specs.Int.{to_be_bytes, w64};
ghost use Rattle.hs_limits.specs.Block.{IsBlock, spell};
ghost use Rattle.hs_limits.specs.declared.spelling.TheConstants.{MOST_BYTES, MOST_POINTERS};
ghost use Rattle.hs_tree.specs.Calls.{CallFails, IsAskFault};
ghost use Rattle.hs_tree.specs.Growing.{IsNamedBy, write_above};
ghost use Rattle.hs_tree.specs.Steps.{AddsPiece, CloseStops, ClosesRun, ForgetStops, Forgets, Stops, WritesNode};

use crate::TreeFault;
use crate::calls::{forget, write};
use hs_asking::Asker;
use hs_block::{Addresser, write_head};
use hs_limits::{Address, ListOf, Name};
use std::alloc::{AllocError, Global};

/// A block that was written: the handle that its session holds, and its address.
#[derive(Clone, Copy, Debug, PartialEq, Eq)]
pub(crate) struct Node {
    pub handle: u32,
    pub address: Address,
}

/// The addresses of some nodes.
fn addresses_of(alloc: Global, nodes: &[Node]) -> Result<Vec<Address>, AllocError>
    ensures { IfOk result (λ v. v.items ≡ map (λ n. n.address) nodes.now) }
{
    nodes.iter().map(|node| node.address).collect(alloc)
}

/// Their handles.
fn handles_of(alloc: Global, nodes: &[Node]) -> Result<Vec<u32>, AllocError>
    ensures { IfOk result (λ v. v.items ≡ map (λ n. n.handle) nodes.now) }
{
    nodes.iter().map(|node| node.handle).collect(alloc)
}

/// Puts a node at the end of some. Without memory they stay as they were.
pub(crate) fn push_node(nodes: &mut Vec<Node>, node: Node) -> Result<(), AllocError>
    ensures ok { OnOk result (nodes.new.items ≡ nodes.old.items ++ node ∷ []) }
{
    nodes.push(node)?;
    Ok(())
}

/// A number in 8 bytes.
fn in_bytes(alloc: Global, number: u64) -> Result<ListOf<u8>, AllocError>
    ensures { IfOk result (λ list. list ≡ to_be_bytes w64 number) }
{
    Ok(ListOf::from_vec(Vec::from_slice(alloc, &number.to_be_bytes())?))
}

/// The name of the block of these pointers and bytes.
fn name_block<A: Addresser>(
    alloc: Global,
    naming: &A,
    pointers: &[Address],
    data: &[u8],
) -> Result<Address, TreeFault>
    requires few { length pointers.now ≤ MOST_POINTERS }
    requires short { length «data».now ≤ MOST_BYTES }
    ensures ok { IfOk result (λ address. address ≡ A.name naming.now
        (spell (record { pointers = pointers.now; bytes = «data».now }))) }
    ensures err { IfErr result (λ fault. fault ≡ NoMemory) }
{
    let mut head = Vec::new(alloc);
    match write_head(pointers, data.len(), &mut head) {
        Ok(()) => Ok(naming.address_of_parts(&head, data)),
        Err(_) => Err(TreeFault::NoMemory),
    }
}

/// Writes the block of these bytes above some nodes, and answers its node.
fn write_node<B: Asker, A: Addresser>(
    alloc: Global,
    asker: &mut B,
    naming: &A,
    session: &Name,
    nodes: &[Node],
    payload: ListOf<u8>,
) -> Result<Node, TreeFault>
    requires going { (B.shows asker.old).ended ≡ None }
    requires few { length nodes.now ≤ MOST_POINTERS }
    requires short { length payload ≤ MOST_BYTES }
    requires named { IsNamedBy (A.name naming.now) session.now (B.shows asker.old) nodes.now }
    ensures ok { IfOk result (λ made. WritesNode (A.name naming.now) session.now
        (B.shows asker.old) (B.shows asker.new) nodes.now payload made) }
    ensures err { IfErr result (λ fault. CallFails (B.shows asker.old) (B.shows asker.new)
        (write_above (A.name naming.now) session.now nodes.now payload) fault) }
{
    let addresses = addresses_of(alloc, nodes)?;
    let handles = handles_of(alloc, nodes)?;
    let address = name_block(alloc, naming, &addresses, payload.as_slice())?;
    let handle = write(
        alloc,
        asker,
        session,
        payload,
        ListOf::from_vec(handles),
        address,
    )?;
    Ok(Node { handle, address })
}

/// Forgets some nodes.
fn forget_all<B: Asker>(
    alloc: Global,
    asker: &mut B,
    session: &Name,
    nodes: &[Node],
) -> Result<(), TreeFault>
    requires going { (B.shows asker.old).ended ≡ None }
    ensures ok { OnOk result (
        Forgets session.now (B.shows asker.old) (B.shows asker.new) nodes.now) }
    ensures going { OnOk result ((B.shows asker.new).ended ≡ None) }
    ensures kind { IfErr result IsAskFault }
    ensures err { IfErr result (λ fault.
        ForgetStops session.now (B.shows asker.old) (B.shows asker.new) nodes.now fault) }
{
    for node in nodes {
        forget(alloc, asker, session, node.handle)?;
    }
    Ok(())
}

/// Writes a piece, whose node comes to stand at the end of the run.
pub(crate) fn add_piece<B: Asker, A: Addresser>(
    alloc: Global,
    asker: &mut B,
    naming: &A,
    session: &Name,
    piece: Vec<u8>,
    run: &mut Vec<Node>,
) -> Result<(), TreeFault>
    requires going { (B.shows asker.old).ended ≡ None }
    requires short { length piece.items ≤ MOST_BYTES }
    requires named { IsNamedBy (A.name naming.now) session.now (B.shows asker.old) [] }
    ensures ok { OnOk result (AddsPiece (A.name naming.now) session.now
        (B.shows asker.old) (B.shows asker.new) piece.items run.old.items run.new.items) }
    ensures one { OnOk result (length run.new.items ≡ length run.old.items + 1) }
    ensures going { OnOk result ((B.shows asker.new).ended ≡ None) }
    ensures kind { IfErr result IsAskFault }
    ensures err { IfErr result (λ fault. Stops (A.name naming.now) session.now
        (B.shows asker.old) (B.shows asker.new) piece.items run.old.items fault) }
{
    let node = write_node(alloc, asker, naming, session, &[], ListOf::from_vec(piece))?;
    push_node(run, node)?;
    Ok(())
}

/// Writes the block above a run, which has so many bytes below it, forgets the run's nodes, and puts
/// the block's node behind those above.
pub(crate) fn close_run<B: Asker, A: Addresser>(
    alloc: Global,
    asker: &mut B,
    naming: &A,
    session: &Name,
    bytes: u64,
    run: &mut Vec<Node>,
    above: &mut Vec<Node>,
) -> Result<(), TreeFault>
    requires going { (B.shows asker.old).ended ≡ None }
    requires few { length run.old.items ≤ MOST_POINTERS }
    requires named { IsNamedBy (A.name naming.now) session.now
        (B.shows asker.old) run.old.items }
    ensures ok { OnOk result (ClosesRun (A.name naming.now) session.now (B.shows asker.old)
        (B.shows asker.new) bytes run.old.items above.old.items above.new.items) }
    ensures empty { OnOk result (run.new.items ≡ []) }
    ensures one { OnOk result (length above.new.items ≡ length above.old.items + 1) }
    ensures going { OnOk result ((B.shows asker.new).ended ≡ None) }
    ensures kind { IfErr result IsAskFault }
    ensures err { IfErr result (λ fault. CloseStops (A.name naming.now) session.now
        (B.shows asker.old) (B.shows asker.new) bytes run.old.items above.old.items fault) }
{
    let payload = in_bytes(alloc, bytes)?;
    let node = write_node(alloc, asker, naming, session, run, payload)?;
    forget_all(alloc, asker, session, run)?;
    run.clear();
    push_node(above, node)?;
    Ok(())
}
