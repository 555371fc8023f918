//! The audit of a store.
ghost use Rattle.std.specs.Prelude.{◌≡◌, ◌*◌, ◌<◌, ◌≤◌, ℕ, IfErr, IsOkUnless, OnErr, OnOk, length, map};
ghost use Rattle.hs_audit.specs.Audited.{Audits, CanBeAudited, IsAuditRefused, of_viewing};
ghost use Rattle.hs_audit.specs.declared.fault.AuditFault.TheVariants.{NoMemory};
ghost use Rattle.hs_limits.specs.Limits.{greatest_limits};
ghost use Rattle.hs_limits.specs.Shape.{IsShape};
ghost use Rattle.hs_taking.specs.Disks.{seen_as, seen_at};
ghost use Rattle.hs_taking.specs.Viewed.{IsOnlyRead};

use crate::AuditFault;
use crate::gathering::gather;
use crate::reporting::report;
use hs_block::Addresser;
use hs_limits::Shape;
use hs_ports::{Disk, Watch};
use hs_taking::{TakeFault, view_all};
use std::alloc::Global;

impl From<TakeFault> for AuditFault {
    ghost from_gives = { λ taken fault. fault ≡ of_viewing taken };

    fn from(taken: TakeFault) -> AuditFault {
        match taken {
            TakeFault::WrongShape { peer, found } => AuditFault::WrongShape { peer, found },
            TakeFault::NoMemory => AuditFault::NoMemory,
        }
    }
}

/// Reads the disks of a store, writes none, and puts at the end of `out` what their logs amount to: a
/// line for each shard, one for each address that a retained root reaches and at which no block is,
/// and a last one. A disk that failed in the call, or is no log, counts as blank. An error leaves
/// `out` as it was. A disk of another store, or of another peer, ends it: the first one whose count
/// stands; else the first shard none of whose disks counts. A list that no store has written, with an
/// entry that its catalogue can't take, counts as want of memory, and so does the last epoch of a
/// u64.
pub fn audit<A: Addresser, D: Disk>(
    alloc: Global,
    naming: &A,
    disks: &mut [D],
    watch: &mut Watch,
    shape: Shape,
    out: &mut Vec<u8>,
) -> Result<(), AuditFault>
    requires shape { IsShape shape }
    requires count { length disks.old ≡ shape.shards * shape.copies }
    ensures text { OnOk result (Audits D.tells
        (record { name = A.name naming.now; limits = greatest_limits; shape = shape })
        (map (λ disk. seen_as (D.size disk) (D.stands disk) (D.faults disk)) disks.old)
        (map (λ disk. seen_as (D.size disk) (D.stands disk) (D.faults disk)) disks.new)
        out.old.items out.new.items) }

    ensures refused { IfErr result (IsAuditRefused D.tells shape
        (map (λ disk. seen_as (D.size disk) (D.stands disk) (D.faults disk)) disks.old)
        (map (λ disk. seen_as (D.size disk) (D.stands disk) (D.faults disk)) disks.new)) }
    ensures complete { D.tells → CanBeAudited shape
        (map (λ disk. seen_as (D.size disk) (D.stands disk) (D.faults disk)) disks.old)
        (map (λ disk. seen_as (D.size disk) (D.stands disk) (D.faults disk)) disks.new)
        → IsOkUnless result NoMemory }
    ensures same { OnErr result (out.new.items ≡ out.old.items) }

    // Every disk is as it was, at each moment.
    ensures read { (peer : ℕ) → peer < length disks.old
        → IsOnlyRead D.tells watch.old watch.new
        (seen_at (map (λ disk. seen_as (D.size disk) (D.stands disk) (D.faults disk)) disks.old)
        peer)
        (seen_at (map (λ disk. seen_as (D.size disk) (D.stands disk) (D.faults disk)) disks.new)
        peer) }
    ensures count { length disks.new ≡ length disks.old }
    ensures ticks { watch.old ≤ watch.new }
{
    let mut views = match view_all(alloc, disks, watch, shape) {
        Ok(views) => views,
        Err(fault) => return Err(AuditFault::from(fault)),
    };
    let store = match gather(alloc, naming, views.as_mut_slice(), disks, shape) {
        Ok(store) => store,
        Err(fault) => return Err(fault),
    };
    let text = match report(alloc, &store) {
        Ok(text) => text,
        Err(_) => return Err(AuditFault::NoMemory),
    };
    match out.extend_from_slice(text.as_slice()) {
        Ok(()) => Ok(()),
        Err(_) => Err(AuditFault::NoMemory),
    }
}
