//! The command `audit`.
ghost use Rattle.std.specs.Prelude.{◌≡◌, ◌*◌, ℕ, List, Option, length, map};
ghost use Rattle.hs_checks.specs.Audited.{IsAudited, audit_status};
ghost use Rattle.hs_limits.specs.Shape.{IsShape};
ghost use Rattle.hs_ports.specs.Objects.{handed};
ghost use Rattle.hs_promise.specs.Run.{ran_of};

use crate::ending::put_text;
use hs_audit::{AuditFault, audit};
use hs_block::Addresser;
use hs_limits::Shape;
use hs_ports::{Disk, Sink, Watch};
use hs_promise::{Outcome, Status};
use hs_run::closed;
use std::alloc::Global;

/// Puts into the sink what the logs of a store amount to. It reads no source, and writes no disk.
pub fn run_audit<A: Addresser, K: Sink, D: Disk>(
    alloc: Global,
    naming: &A,
    shape: Shape,
    sink: &mut K,
    disks: &mut [D],
    watch: &mut Watch,
) -> Outcome
    requires shape { IsShape shape }
    requires count { length disks.old ≡ shape.shards * shape.copies }
    ensures { (source : Option (List ℕ) × ℕ) → IsAudited D.tells (A.name naming.now) shape
        (ran_of result
        (handed watch.old (map (λ disk. (D.stands disk, D.faults disk)) disks.old)
        (K.got sink.old, K.faults sink.old) source)
        (handed watch.new (map (λ disk. (D.stands disk, D.faults disk)) disks.new)
        (K.got sink.new, K.faults sink.new) source)) }
{
    let mut text = Vec::new(alloc);
    let status = match audit(alloc, naming, disks, watch, shape, &mut text) {
        Ok(()) => put_text(sink, watch, text.as_slice()),
        Err(fault) => status_of(fault),
    };
    closed(alloc, status, 0)
}

/// How a run ends where an audit can't be given.
fn status_of(fault: AuditFault) -> Status
    ensures { result ≡ audit_status fault }
{
    match fault {
        AuditFault::WrongShape { peer, found } => Status::WrongShape { peer, found },
        AuditFault::ShardLost { shard } => Status::ShardLost { shard },
        AuditFault::NoMemory => Status::NoMemory,
    }
}
