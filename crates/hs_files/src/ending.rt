//! How a command ends that asks a store as a client.
ghost use Rattle.std.specs.Prelude.{◌≡◌, [], Err};
ghost use Rattle.hs_files.specs.Client.{tree_status};
ghost use Rattle.hs_run.specs.Stopping.{of_cluster, status_of};

use hs_asker::{AskerTold, Closed, status_by, status_of_closed};
use hs_limits::ListOf;
use hs_ports::Watch;
use hs_promise::{Outcome, Status};
use hs_run::closed;
use hs_tree::TreeFault;
use std::alloc::Global;

/// The status of a file that was not stored, or not given back.
pub(crate) fn tree_status(fault: TreeFault) -> Status
    ensures { result ≡ tree_status fault }
{
    match fault {
        TreeFault::Core(core) => status_by(Some(core)),
        TreeFault::Read => Status::ReadFault,
        TreeFault::InputFull => Status::InputFull,
        TreeFault::Refused(reply) => Status::Refused { reply },
        TreeFault::NotATree { address } => Status::NotATree { address },
        TreeFault::NoMemory => Status::NoMemory,
    }
}

/// The outcome where no core was opened. The disks and the watch are back.
pub(crate) fn unopened<D: Drop>(
    alloc: Global,
    left: Closed<D>,
    disks: &mut Vec<D>,
    watch: &mut Watch,
) -> Outcome
    ensures status { result.status ≡ status_of (Err (of_cluster left.fault)) 0 }
    ensures line { result.line ≡ 0 }
    ensures journal { result.journal.entries ≡ [] }
    ensures kept { result.kept ≡ [] }
    ensures stored { result.stored ≡ [] }
    ensures refused { result.refused ≡ [] }
    ensures course { result.course ≡ [] }
    ensures disks { disks.new.items ≡ left.disks.items }
    ensures watch { watch.new ≡ left.watch }
{
    let Closed {
        fault,
        disks: own,
        watch: now,
    } = left;
    *disks = own;
    *watch = now;
    closed(alloc, status_of_closed(fault), 0)
}

/// The outcome of what an asker was told. The disks and the watch are back.
pub(crate) fn outcome_of<D: Drop>(
    alloc: Global,
    status: Status,
    told: AskerTold<D>,
    disks: &mut Vec<D>,
    watch: &mut Watch,
) -> Outcome
    ensures status { result.status ≡ status }
    ensures line { result.line ≡ told.line }
    ensures journal { result.journal.entries ≡ told.journal.entries }
    ensures kept { result.kept ≡ [] }
    ensures stored { result.stored ≡ [] }
    ensures refused { result.refused ≡ told.refused }
    ensures course { result.course ≡ told.course }
    ensures disks { disks.new.items ≡ told.disks.items }
    ensures watch { watch.new ≡ told.watch }
{
    let AskerTold {
        ended: _,
        journal,
        refused,
        course,
        line,
        disks: own,
        watch: now,
    } = told;
    *disks = own;
    *watch = now;
    Outcome {
        status,
        journal,
        kept: ListOf::new(alloc),
        stored: ListOf::new(alloc),
        refused,
        course,
        line,
    }
}
