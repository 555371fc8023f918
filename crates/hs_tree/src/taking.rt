//! Pieces of a file, as a source gives them.
ghost use Rattle.std.specs.Prelude.{◌≡◌, ◌<◌, ◌≤◌, [], false, length, IfOk, IfErr, IfSome, IsTrue, OnErr, OnOk};
ghost use Rattle.hs_limits.specs.declared.spelling.TheConstants.{MOST_BYTES};
ghost use Rattle.hs_ports.specs.Fault.{HasRisen};
ghost use Rattle.hs_ports.specs.Source.{IsEnded, Took, Untaken, before};
ghost use Rattle.hs_tree.specs.Calls.{HasGone, IsTakeFault};

use crate::TreeFault;
use hs_limits::MOST_BYTES;
use hs_ports::{PortFault, Source};
use std::alloc::Global;

/// The next `most` bytes of a source, or fewer where it ends.
pub(crate) fn take_piece<S: Source>(
    alloc: Global,
    source: &mut S,
    most: usize,
) -> Result<Vec<u8>, TreeFault>
    ensures bound { IfOk result (λ piece. length piece.items ≤ most) }
    ensures stream { IfOk result (λ piece.
        before piece.items (S.left source.new) ≡ S.left source.old) }
    ensures short { IfOk result (λ piece.
        length piece.items < most → IsEnded (S.left source.new)) }
    ensures fault { IfErr result (λ fault.
        IsTakeFault (S.faults source.old) (S.faults source.new) fault) }
    ensures gone { OnErr result (HasGone (S.left source.old) (S.left source.new)) }
    ensures later { S.faults source.old ≤ S.faults source.new }
{
    let mut piece = Vec::new(alloc);
    while piece.len() < most {
        let taken = take_some(source, most - piece.len(), &mut piece)?;
        if taken == 0 {
            break;
        }
    }
    Ok(piece)
}

/// One take, with its fault as a file's.
fn take_some<S: Source>(source: &mut S, max: usize, into: &mut Vec<u8>) -> Result<usize, TreeFault>
    requires { 0 < max }
    ensures taken { IfOk result (λ n.
        Took (S.left source.old) into.old.items (S.left source.new) into.new.items max n) }
    ensures untaken { OnErr result (Untaken (S.left source.old) into.old.items
        (S.left source.new) into.new.items) }
    ensures calm { OnOk result (S.faults source.new ≡ S.faults source.old) }
    ensures fault { IfErr result (λ fault.
        IsTakeFault (S.faults source.old) (S.faults source.new) fault) }
    ensures later { S.faults source.old ≤ S.faults source.new }
{
    match source.take(max, into) {
        Ok(n) => Ok(n),
        Err(PortFault::Failed) => Err(TreeFault::Read),
        Err(PortFault::NoMemory) => Err(TreeFault::NoMemory),
    }
}

/// Whether a source has no byte left. One that has is left without its first.
pub(crate) fn is_at_end<S: Source>(alloc: Global, source: &mut S) -> Result<bool, TreeFault>
    ensures ended { IfOk result (λ ended. IsTrue ended → IsEnded (S.left source.new)
        × (S.left source.new ≡ S.left source.old)) }
    ensures more { IfOk result (λ ended. ended ≡ false →
        IfSome (S.left source.old) (λ rest. 0 < length rest)) }
    ensures gone { HasGone (S.left source.old) (S.left source.new) }
    ensures fault { IfErr result (λ fault.
        IsTakeFault (S.faults source.old) (S.faults source.new) fault) }
    ensures later { S.faults source.old ≤ S.faults source.new }
{
    let more = take_piece(alloc, source, 1)?;
    Ok(more.is_empty())
}
