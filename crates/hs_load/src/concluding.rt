//! What a load does behind the joins.
ghost use Rattle.std.specs.Prelude.{◌≡◌, ◌*◌, ◌<◌, ◌≤◌, ◌^◌, [], None, length, map, true, vec_len, IfOk};
ghost use Rattle.hs_book.specs.Book.{Book};
ghost use Rattle.hs_book.specs.History.{NobodyJoins};
ghost use Rattle.hs_cluster.specs.Resuming.{EndAsSealed};
ghost use Rattle.hs_core_words.specs.Plain.{plain_store};
ghost use Rattle.hs_core_words.specs.State.{Core};
ghost use Rattle.hs_load.specs.Joined.{MayGoOn, team_of};
ghost use Rattle.hs_load.specs.Judged.{Load};
ghost use Rattle.hs_load.specs.Judgement.{IsJudgedSo};
ghost use Rattle.hs_load.specs.Loaded.{EndsWork, PutsSummary, refused_when};
ghost use Rattle.hs_load.specs.Reached.{EachIsReached};
ghost use Rattle.hs_taking.specs.Disks.{AreReady, seen_as};

use crate::finishing::finish;
use crate::handing::{Askers, Peers};
use crate::judgement::{Judgement, status_of};
use crate::outcome::{cluster_status, outcome_of};
use crate::reaching::last_core;
use crate::resuming::are_fit;
use crate::summing::{summary_of, sums_of};
use crate::tallying::has_tallied;
use crate::working::Joined;
use hs_block::Addresser;
use hs_book::nobody_joins;
use hs_cluster::Cluster;
use hs_core::Core;
use hs_desk::CoreFault;
use hs_peerlog::PeerLog;
use hs_ports::{Disk, Sink, Watch};
use hs_promise::{Outcome, Status};
use hs_run::put_all;
use hs_script::WriterSum;
use hs_workers::WorkFault;
use std::alloc::Global;

/// The most lines that may have been begun before the last ones.
const MOST_LINES: u64 = 4_611_686_018_427_387_904;

/// Whether a cluster can go on from a core and these logs, over so many disks, at a moment.
fn can_resume(core: &Core, logs: &[Option<PeerLog>], disks: usize, now: u64) -> bool
    ensures going { result ≡ true → core.now.ended ≡ None }
    ensures lasts { result ≡ true → EndAsSealed core.now logs.now }
    ensures calm { result ≡ true → NobodyJoins core.now }
    ensures logs { result ≡ true → length logs.now
        ≡ core.now.members.shape.shards * core.now.members.shape.copies }
    ensures disks { result ≡ true → disks
        ≡ core.now.members.shape.shards * core.now.members.shape.copies }
    ensures moment { result ≡ true → core.now.moment ≤ now }
    ensures room { result ≡ true → core.now.progress.last_line < 2 ^ 62 }
    ensures only { MayGoOn core.now (length logs.now) disks now → EndAsSealed core.now logs.now
        → core.now.progress.last_line < 2 ^ 62 → result ≡ true }
{
    let shape = core.shape();
    let peers = usize::from(shape.shards * shape.copies);
    if core.ended().is_some() || logs.len() != peers || disks != peers {
        return false;
    }
    if now < core.last_moment() || core.last_line() >= MOST_LINES {
        return false;
    }
    if !nobody_joins(core) {
        return false;
    }
    are_fit(core, logs)
}

/// Puts the summary into the sink.
fn put_summary<K: Sink>(
    alloc: Global,
    ends: &[Result<WriterSum, WorkFault>],
    writers: u8,
    core: &Core,
    reached: Result<bool, CoreFault>,
    line: u64,
    sink: &mut K,
    watch: &mut Watch,
) -> Status
    requires room { line < 2 ^ 62 }
    requires reached { IfOk reached (λ are. are ≡ true → EachIsReached (plain_store core.now)) }
    requires only { IfOk reached (λ are. EachIsReached (plain_store core.now) → are ≡ true) }
    ensures puts { PutsSummary writers ends.now core.now line (record {
      ending = result;
      old = K.got sink.old;
      new = K.got sink.new;
      old_faults = K.faults sink.old;
      new_faults = K.faults sink.new;
    }) }
    ensures ticks { watch.old ≤ watch.new }
{
    let Ok(sums) = sums_of(alloc, ends, writers) else {
        return Status::NoMemory;
    };
    let Ok(reached) = reached else {
        return Status::NoMemory;
    };
    if !has_tallied(sums.as_slice(), core, reached, line) {
        return Status::NoMemory;
    }
    let Ok(text) = summary_of(alloc, sums.as_slice(), core) else {
        return Status::NoMemory;
    };
    match put_all(sink, watch, text.as_slice()) {
        Ok(()) => Status::Done,
        Err(_) => Status::WriteFault,
    }
}

/// Ends a load behind the joins: as it was judged, or behind the last deletions, with the summary.
pub(crate) fn conclude<A: Addresser, K: Sink, D: Disk>(
    alloc: Global,
    naming: &A,
    judgement: Judgement,
    joined: Joined,
    writers: u8,
    sink: &mut K,
    disks: &mut Vec<D>,
    watch: &mut Watch,
) -> Outcome
    requires ready { AreReady D.tells joined.peers.logs.items
        (map (λ disk. seen_as (D.size disk) (D.stands disk) (D.faults disk)) disks.old.items) }
    ensures kept { result.kept ≡ joined.askers.kept.items }
    ensures stored { result.stored ≡ joined.peers.stored.items }
    ensures line { result.line ≡ 0 }
    ensures course { result.course ≡ [] }
    ensures ends { (load : Load) (book : Book) → load.set.name ≡ A.name naming.now
        → load.writers ≡ writers → joined.core ≡ book.core
        → (book.ended ≡ None → MayGoOn book.core (length joined.peers.logs.items)
        (vec_len disks.old) watch.old)
        → IsJudgedSo load book (team_of joined.peers joined.askers) judgement
        → (last : Core) × (result.journal.entries ≡ last.journal)
        × (result.refused ≡ refused_when result.status last)
        × EndsWork D.tells load book (team_of joined.peers joined.askers)
        (map (λ disk. seen_as (D.size disk) (D.stands disk) (D.faults disk)) disks.old.items)
        (map (λ disk. seen_as (D.size disk) (D.stands disk) (D.faults disk)) disks.new.items)
        last (record {
          ending = result.status;
          old = K.got sink.old;
          new = K.got sink.new;
          old_faults = K.faults sink.old;
          new_faults = K.faults sink.new;
        }) }
    ensures count { vec_len disks.new ≡ vec_len disks.old }
    ensures ticks { watch.old ≤ watch.new }
{
    let Joined {
        core,
        ended: _,
        apart: _,
        peers,
        askers,
    } = joined;
    let Peers {
        stored,
        stops: _,
        logs,
    } = peers;
    let Askers { kept, ends } = askers;
    if let Some(status) = status_of(judgement) {
        return outcome_of(alloc, status, core, kept, stored);
    }
    if !can_resume(&core, logs.as_slice(), disks.len(), watch.now()) {
        return outcome_of(alloc, Status::NoMemory, core, kept, stored);
    }
    let line = core.last_line();
    let mut cluster = Cluster::resume(alloc, core, logs);
    let did = finish(&mut cluster, naming, disks.as_mut_slice(), watch, line);
    let (core, reached) = last_core(alloc, cluster);
    let status = match did {
        Ok(()) => put_summary(
            alloc,
            ends.as_slice(),
            writers,
            &core,
            reached,
            line,
            sink,
            watch,
        ),
        Err(fault) => cluster_status(fault),
    };
    outcome_of(alloc, status, core, kept, stored)
}
