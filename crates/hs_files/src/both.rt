//! What a command comes to that asks two stores.
ghost use Rattle.std.specs.Prelude.{◌≡◌, ◌+◌, ◌*◌, ◌≤◌, ◌++◌, [], Err, IfErr, IfOk, OnOk, max, vec_capacity, vec_len};
ghost use Rattle.hs_files.specs.Copied.{IsTextPut, counted_on, copied_text, fault_status, second_status};
ghost use Rattle.hs_limits.specs.Shape.{IsShape};
ghost use Rattle.hs_run.specs.Puts.{IsStamped};
ghost use Rattle.hs_run.specs.Stopping.{of_cluster, status_of};

use crate::ending::outcome_of;
use crate::fetching::put_file;
use crate::two::{Two, hand_back};
use hs_asker::{AskerTold, Closed, status_by, status_of_closed};
use hs_copy::CopyFault;
use hs_limits::Shape;
use hs_ports::{Sink, Watch};
use hs_promise::{Outcome, Status};
use hs_run::closed;
use std::alloc::Global;
use std::io;
use std::io::Write;

/// How many peers a store has.
pub(crate) fn peers_of(shape: Shape) -> u8
    requires { IsShape shape }
    ensures value { result ≡ shape.shards * shape.copies }
{
    shape.shards * shape.copies
}

/// The status of a run of the second store, whose peers and shards count on behind those of the first.
fn second_status(shape: Shape, status: Status) -> Status
    requires { IsShape shape }
    ensures { result ≡ second_status shape status }
{
    match status {
        Status::WrongShape { peer, found } => Status::WrongShape {
            peer: counted_on(peers_of(shape), peer),
            found,
        },
        Status::ShardLost { shard } => Status::ShardLost {
            shard: counted_on(shape.shards, shard),
        },
        other => other,
    }
}

/// A number that is counted on behind so many.
fn counted_on(before: u8, number: u8) -> u8
    ensures { result ≡ counted_on before number }
{
    before.saturating_add(number)
}

/// The status of a root that was not copied.
fn fault_status(shape: Shape, fault: CopyFault) -> Status
    requires { IsShape shape }
    ensures { result ≡ fault_status shape fault }
{
    match fault {
        CopyFault::First(ended) => status_by(Some(ended)),
        CopyFault::Second(ended) => second_status(shape, status_by(Some(ended))),
        CopyFault::Refused(reply) => Status::Refused { reply },
        CopyFault::CopyFull { blocks } => Status::CopyFull {
            blocks: u64::from(blocks),
        },
        CopyFault::NoMemory => Status::NoMemory,
    }
}

/// The outcome where no core of the first store was opened. All disks are back, and the watch goes on.
pub(crate) fn first_unopened<D: Drop>(
    alloc: Global,
    left: Closed<D>,
    second: Vec<D>,
    disks: &mut Vec<D>,
    watch: &mut Watch,
) -> Outcome
    requires none { disks.old.items ≡ [] }
    requires room { vec_len left.disks + vec_len second ≤ vec_capacity disks.old }
    ensures status { result.status ≡ status_of (Err (of_cluster left.fault)) 0 }
    ensures line { result.line ≡ 0 }
    ensures journal { result.journal.entries ≡ [] }
    ensures kept { result.kept ≡ [] }
    ensures stored { result.stored ≡ [] }
    ensures refused { result.refused ≡ [] }
    ensures course { result.course ≡ [] }
    ensures disks { disks.new.items ≡ left.disks.items ++ second.items }
    ensures watch { watch.new ≡ max watch.old left.watch }
{
    let Closed {
        fault,
        disks: first,
        watch: now,
    } = left;
    hand_back(disks, Two { first, second });
    watch.reach(&now);
    closed(alloc, status_of_closed(fault), 0)
}

/// The outcome where no core of the second store was opened. All disks are back, and the watch goes on.
pub(crate) fn second_unopened<D: Drop>(
    alloc: Global,
    shape: Shape,
    told: AskerTold<D>,
    left: Closed<D>,
    disks: &mut Vec<D>,
    watch: &mut Watch,
) -> Outcome
    requires shape { IsShape shape }
    requires none { disks.old.items ≡ [] }
    requires room { vec_len told.disks + vec_len left.disks ≤ vec_capacity disks.old }
    ensures status { result.status
        ≡ second_status shape (status_of (Err (of_cluster left.fault)) 0) }
    ensures line { result.line ≡ 0 }
    ensures journal { result.journal.entries ≡ [] }
    ensures kept { result.kept ≡ [] }
    ensures stored { result.stored ≡ [] }
    ensures refused { result.refused ≡ [] }
    ensures course { result.course ≡ [] }
    ensures disks { disks.new.items ≡ told.disks.items ++ left.disks.items }
    ensures watch { watch.new ≡ max (max watch.old told.watch) left.watch }
{
    let AskerTold {
        ended: _,
        journal: _journal,
        refused: _refused,
        course: _course,
        line: _,
        disks: first,
        watch: first_now,
    } = told;
    let Closed {
        fault,
        disks: second,
        watch: now,
    } = left;
    hand_back(disks, Two { first, second });
    watch.reach(&first_now);
    watch.reach(&now);
    closed(alloc, second_status(shape, status_of_closed(fault)), 0)
}

/// The outcome of what both askers were told: what the second was answered is handed back. All disks are
/// back, and the watch goes on.
pub(crate) fn both_told<D: Drop>(
    alloc: Global,
    one: AskerTold<D>,
    two: AskerTold<D>,
    disks: &mut Vec<D>,
    watch: &mut Watch,
) -> Outcome
    requires none { disks.old.items ≡ [] }
    requires room { vec_len one.disks + vec_len two.disks ≤ vec_capacity disks.old }
    ensures line { result.line ≡ two.line }
    ensures journal { result.journal.entries ≡ two.journal.entries }
    ensures kept { result.kept ≡ [] }
    ensures stored { result.stored ≡ [] }
    ensures refused { result.refused ≡ two.refused }
    ensures course { result.course ≡ two.course }
    ensures disks { disks.new.items ≡ one.disks.items ++ two.disks.items }
    ensures watch { watch.new ≡ max (max watch.old one.watch) two.watch }
{
    let AskerTold {
        ended: _,
        journal: _journal,
        refused: _refused,
        course: _course,
        line: _,
        disks: first,
        watch: first_now,
    } = one;
    watch.reach(&first_now);
    let mut second = Vec::new(alloc);
    let mut now = watch.twin();
    let outcome = outcome_of(alloc, Status::Done, two, &mut second, &mut now);
    watch.reach(&now);
    hand_back(disks, Two { first, second });
    outcome
}

/// Puts how many blocks were copied, and tells how a run ends that copied them or stopped before.
pub(crate) fn put_copied<K: Sink>(
    alloc: Global,
    sink: &mut K,
    watch: &mut Watch,
    shape: Shape,
    copied: Result<u32, CopyFault>,
) -> Status
    requires { IsShape shape }
    ensures put { IfOk copied (λ blocks. IsTextPut blocks (K.got sink.old) (K.got sink.new)
        (K.faults sink.old) (K.faults sink.new) result) }
    ensures unput { IfErr copied (λ f. (result ≡ fault_status shape f)
        × (K.got sink.new ≡ K.got sink.old) × (K.faults sink.new ≡ K.faults sink.old)) }
    ensures counted { K.faults sink.old ≤ K.faults sink.new }
    ensures stamped { IsStamped watch.old watch.new (K.got sink.old) (K.got sink.new) }
    ensures ticks { watch.old ≤ watch.new }
{
    match copied {
        Ok(blocks) => put_count(alloc, sink, watch, blocks),
        Err(fault) => fault_status(shape, fault),
    }
}

/// Puts how many blocks were copied.
#[tactic(auto, using(crate::proofs::HaltLemmas::text_put))]
fn put_count<K: Sink>(alloc: Global, sink: &mut K, watch: &mut Watch, blocks: u32) -> Status
    ensures put { IsTextPut blocks (K.got sink.old) (K.got sink.new)
        (K.faults sink.old) (K.faults sink.new) result }
    ensures counted { K.faults sink.old ≤ K.faults sink.new }
    ensures stamped { IsStamped watch.old watch.new (K.got sink.old) (K.got sink.new) }
    ensures ticks { watch.old ≤ watch.new }
{
    let mut text = Vec::new(alloc);
    match write_count(blocks, &mut text) {
        Ok(()) => put_file(sink, watch, text.as_slice()),
        Err(_) => Status::NoMemory,
    }
}

/// Writes how many blocks were copied at the end of `out`.
#[tactic(auto, unfolding(crate::specs::Copied::copied_text))]
fn write_count(blocks: u32, out: &mut Vec<u8>) -> io::Result<()>
    ensures { OnOk result (out.new.items ≡ out.old.items ++ copied_text blocks) }
{
    write!(out, "copied {blocks}\n")
}
