//! The command `load`.
ghost use Rattle.std.specs.Prelude.{◌≡◌, ◌≢◌, ◌*◌, ◌≤◌, ℕ, [], IfErr, IfOk, List, None, OnOk, Option, map, vec_len};
ghost use Rattle.hs_book.specs.History.{NobodyJoins};
ghost use Rattle.hs_cluster.specs.Begins.{HasOpened, IsClosed};
ghost use Rattle.hs_cluster.specs.Counts.{NoneFalls};
ghost use Rattle.hs_limits.specs.Limits.{greatest_limits};
ghost use Rattle.hs_limits.specs.Shape.{IsShape};
ghost use Rattle.hs_limits.specs.declared.shape.Shape.{Shape};
ghost use Rattle.hs_load.specs.Loaded.{EndsLoad, EndsTeam, IsLoaded, handed_out, load_of};
ghost use Rattle.hs_ports.specs.Objects.{handed};
ghost use Rattle.hs_promise.specs.Run.{ran_of};
ghost use Rattle.hs_promise.specs.declared.status.Status.TheVariants as status;
ghost use Rattle.hs_taking.specs.Disks.{AreReady, seen_as};

use crate::concluding::conclude;
use crate::counting::{blocks_in, roots_in};
use crate::judgement::{Judgement, judge};
use crate::names::sessions_of;
use crate::outcome::{cluster_status, outcome_of};
use crate::working::work_and_join;
use hs_block::Addresser;
use hs_cluster::{Cluster, ClusterFault, Opened};
use hs_core::Core;
use hs_desk::Gate;
use hs_limits::{Limits, Shape};
use hs_peerlog::PeerLog;
use hs_ports::{Disk, Sink, Watch};
use hs_promise::{Outcome, Status};
use hs_run::closed;
use std::alloc::Global;
use std::marker::Brand;
use std::sync::Wait;
use std::thread::Threads;

/// How many entries the journal of a store takes that could not be opened.
const NO_ENTRIES: u32 = 0;

/// Opens the cluster over the disks of a vector.
fn open_all<A: Addresser, D: Disk>(
    alloc: Global,
    shape: Shape,
    naming: &A,
    disks: &mut Vec<D>,
    watch: &mut Watch,
) -> Result<Opened, ClusterFault>
    requires shape { IsShape shape }
    requires count { vec_len disks.old ≡ shape.shards * shape.copies }
    ensures opened { IfOk result (λ opened. HasOpened D.tells
        (record { name = A.name naming.now; limits = greatest_limits; shape = shape })
        (record {
          before = watch.old;
          now = watch.new;
          old = map (λ disk. seen_as (D.size disk) (D.stands disk) (D.faults disk)) disks.old.items;
          new = map (λ disk. seen_as (D.size disk) (D.stands disk) (D.faults disk)) disks.new.items;
        }) opened.cluster opened.done) }
    ensures closed { IfErr result (IsClosed D.tells shape
        (map (λ disk. seen_as (D.size disk) (D.stands disk) (D.faults disk)) disks.old.items)
        (map (λ disk. seen_as (D.size disk) (D.stands disk) (D.faults disk)) disks.new.items)) }
    ensures ready { IfOk result (λ opened. OnOk opened.done (AreReady D.tells opened.cluster.logs
        (map (λ disk. seen_as (D.size disk) (D.stands disk) (D.faults disk)) disks.new.items))) }
    ensures joins { IfOk result (λ opened. OnOk opened.done (NobodyJoins opened.cluster.core)) }
    ensures shape { IfOk result (λ opened. opened.cluster.core.members.shape ≡ shape) }
    ensures moment { IfOk result (λ opened. OnOk opened.done
        (opened.cluster.core.moment ≤ watch.new)) }
    ensures falls { NoneFalls
        (map (λ disk. seen_as (D.size disk) (D.stands disk) (D.faults disk)) disks.old.items)
        (map (λ disk. seen_as (D.size disk) (D.stands disk) (D.faults disk)) disks.new.items) }
    ensures count { vec_len disks.new ≡ vec_len disks.old }
    ensures ticks { watch.old ≤ watch.new }
{
    Cluster::open(
        alloc,
        shape,
        Limits::greatest(),
        naming,
        disks.as_mut_slice(),
        watch,
    )
}

/// Lets all work over an empty store, and ends the load.
fn work_and_conclude<
    H: Threads + Wait + Sync,
    A: Addresser + Sync,
    K: Sink,
    D: Disk + Drop + Send,
    T: Gate + Sync,
>(
    alloc: Global,
    rt: &H,
    naming: &A,
    core: Core,
    logs: Vec<Option<PeerLog>>,
    seed: u64,
    writers: u8,
    files: u32,
    sink: &mut K,
    disks: &mut Vec<D>,
    watch: &mut Watch,
    gate: &T,
) -> Outcome
    requires going { core.ended ≡ None }
    requires calm { NobodyJoins core }
    requires count { vec_len logs ≡ vec_len disks.old }
    requires shape { vec_len disks.old
        ≡ core.members.shape.shards * core.members.shape.copies }
    requires moment { core.moment ≤ watch.old }
    requires few { vec_len disks.old ≤ 256 }
    requires ready { AreReady D.tells logs.items
        (map (λ disk. seen_as (D.size disk) (D.stands disk) (D.faults disk)) disks.old.items) }
    ensures team { (shape : Shape) → EndsTeam D.tells
        (load_of (A.name naming.now) shape seed writers files) core logs.items
        (map (λ disk. seen_as (D.size disk) (D.stands disk) (D.faults disk)) disks.old.items)
        (map (λ disk. seen_as (D.size disk) (D.stands disk) (D.faults disk)) disks.new.items)
        (handed_out result) (record {
          ending = result.status;
          old = K.got sink.old;
          new = K.got sink.new;
          old_faults = K.faults sink.old;
          new_faults = K.faults sink.new;
        }) }
    ensures line { result.line ≡ 0 }
    ensures course { result.course ≡ [] }
    ensures count { result.status ≢ status.NoMemory → vec_len disks.new ≡ vec_len disks.old }
    ensures ticks { watch.old ≤ watch.new }
{
    let sessions = match sessions_of(alloc, writers) {
        Ok(sessions) => sessions,
        Err(_) => return closed(alloc, Status::NoMemory, NO_ENTRIES),
    };
    let joined = match work_and_join::<Brand, H, A, D, T>(
        alloc, rt, naming, core, logs, seed, writers, files, disks, watch, gate,
    ) {
        Ok(joined) => joined,
        Err(_) => return closed(alloc, Status::NoMemory, NO_ENTRIES),
    };
    let judgement = match judge(alloc, sessions.as_slice(), &joined) {
        Ok(judgement) => judgement,
        Err(_) => Judgement::Wanting,
    };
    conclude(
        alloc, naming, judgement, joined, writers, sink, disks, watch,
    )
}

/// Opens the store, and lets all work over it where it is empty.
fn load_on<
    H: Threads + Wait + Sync,
    A: Addresser + Sync,
    K: Sink,
    D: Disk + Drop + Send,
    T: Gate + Sync,
>(
    alloc: Global,
    rt: &H,
    naming: &A,
    shape: Shape,
    seed: u64,
    writers: u8,
    files: u32,
    sink: &mut K,
    disks: &mut Vec<D>,
    watch: &mut Watch,
    gate: &T,
) -> Outcome
    requires shape { IsShape shape }
    requires count { vec_len disks.old ≡ shape.shards * shape.copies }
    ensures ends { EndsLoad D.tells (load_of (A.name naming.now) shape seed writers files) watch.old
        (map (λ disk. seen_as (D.size disk) (D.stands disk) (D.faults disk)) disks.old.items)
        (map (λ disk. seen_as (D.size disk) (D.stands disk) (D.faults disk)) disks.new.items)
        (handed_out result) (record {
          ending = result.status;
          old = K.got sink.old;
          new = K.got sink.new;
          old_faults = K.faults sink.old;
          new_faults = K.faults sink.new;
        }) }
    ensures line { result.line ≡ 0 }
    ensures course { result.course ≡ [] }
    ensures count { result.status ≢ status.NoMemory → vec_len disks.new ≡ vec_len disks.old }
    ensures ticks { watch.old ≤ watch.new }
{
    let opened = match open_all(alloc, shape, naming, disks, watch) {
        Ok(opened) => opened,
        Err(fault) => return closed(alloc, cluster_status(fault), NO_ENTRIES),
    };
    let Opened { cluster, done } = opened;
    let (core, logs) = cluster.into_parts();
    if let Err(fault) = done {
        let status = cluster_status(fault);
        return outcome_of(alloc, status, core, Vec::new(alloc), Vec::new(alloc));
    }
    let blocks = blocks_in(&core);
    let roots = roots_in(&core);
    if blocks > 0 || roots > 0 {
        let status = Status::NotEmpty { blocks, roots };
        return outcome_of(alloc, status, core, Vec::new(alloc), Vec::new(alloc));
    }
    if core.ended().is_some() || logs.len() != disks.len() || disks.len() > 256 {
        return outcome_of(
            alloc,
            Status::NoMemory,
            core,
            Vec::new(alloc),
            Vec::new(alloc),
        );
    }
    work_and_conclude(
        alloc, rt, naming, core, logs, seed, writers, files, sink, disks, watch, gate,
    )
}

/// Lets so many writers store so many files each over the disks of a store, one disk for each peer, with
/// workers of the peers and four deletions beside them; then deletes twice more, and puts the summary
/// into the sink. The disks are moved to the workers and back; where memory was wanting some may be
/// missing. It may wait for ever.
pub fn run_load<
    H: Threads + Wait + Sync,
    A: Addresser + Sync,
    K: Sink,
    D: Disk + Drop + Send,
    T: Gate + Sync,
>(
    alloc: Global,
    rt: &H,
    naming: &A,
    shape: Shape,
    seed: u64,
    writers: u8,
    files: u32,
    sink: &mut K,
    disks: &mut Vec<D>,
    watch: &mut Watch,
    gate: &T,
) -> Outcome
    requires shape { IsShape shape }
    requires count { vec_len disks.old ≡ shape.shards * shape.copies }
    ensures loaded { (source : Option (List ℕ) × ℕ) → IsLoaded D.tells (A.name naming.now) shape
        seed writers files
        (ran_of result
        (handed watch.old (map (λ disk. (D.stands disk, D.faults disk)) disks.old.items)
        (K.got sink.old, K.faults sink.old) source)
        (handed watch.new (map (λ disk. (D.stands disk, D.faults disk)) disks.new.items)
        (K.got sink.new, K.faults sink.new) source)) }
    ensures ticks { watch.old ≤ watch.new }
{
    load_on(
        alloc, rt, naming, shape, seed, writers, files, sink, disks, watch, gate,
    )
}
