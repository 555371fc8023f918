//! The command `fetch`.
ghost use Rattle.std.specs.Prelude.{◌≡◌, ◌≤◌, ◌*◌, IfErr, IsTrue, List, OnOk, Option, map, vec_len, ℕ};
ghost use Rattle.hs_asking.specs.Shown.{IfTold};
ghost use Rattle.hs_cluster.specs.Disks.{seen_as};
ghost use Rattle.hs_files.specs.Client.{tree_status};
ghost use Rattle.hs_files.specs.Fetched.{FetchesFile};
ghost use Rattle.hs_files.specs.Halting.{HaltsFetch};
ghost use Rattle.hs_files.specs.Put.{IsPutAs};
ghost use Rattle.hs_limits.specs.Key.{is_key};
ghost use Rattle.hs_limits.specs.Limits.{greatest_limits};
ghost use Rattle.hs_limits.specs.Shape.{IsShape};
ghost use Rattle.hs_ports.specs.Objects.{handed};
ghost use Rattle.hs_promise.specs.Run.{ran_of};
ghost use Rattle.hs_run.specs.Puts.{IsStamped};
ghost use Rattle.hs_tree.specs.Fetching.{HasFetched, IsAlone};

use crate::ending::{outcome_of, tree_status, unopened};
use crate::key::key_of;
use hs_asker::{ClusterAsker, Handed};
use hs_asking::Asker;
use hs_block::Addresser;
use hs_desk::CoreFault;
use hs_limits::{Key, Limits, Shape};
use hs_ports::{Disk, Sink, Watch};
use hs_promise::{Outcome, Status};
use hs_run::{closed, put_all};
use hs_tree::{TreeFault, fetch_file};
use std::alloc::Global;
use std::marker::Brand;
use std::mem;

/// Puts the file that is stored under a key into the sink, from the disks of a store, one for each peer,
/// and nothing before all of the file is found. It reads no source.
pub fn run_fetch<A: Addresser, K: Sink, D: Disk + Drop>(
    alloc: Global,
    naming: &A,
    shape: Shape,
    key: &[u8],
    sink: &mut K,
    disks: &mut Vec<D>,
    watch: &mut Watch,
) -> Outcome
    requires shape { IsShape shape }
    requires count { vec_len disks.old ≡ shape.shards * shape.copies }
    requires key { IsTrue (is_key key.now) }
    ensures begun { result.status ≡ Status.Usage → ⊥ }
    ensures fetches { (source : Option (List ℕ) × ℕ) → FetchesFile D.tells (A.name naming.now) shape key.now
        (ran_of result
        (handed watch.old (map (λ disk. (D.stands disk, D.faults disk)) disks.old.items)
        (K.got sink.old, K.faults sink.old) source)
        (handed watch.new (map (λ disk. (D.stands disk, D.faults disk)) disks.new.items)
        (K.got sink.new, K.faults sink.new) source)) }
{
    let Ok(key) = key_of(alloc, key) else {
        return closed(alloc, Status::NoMemory, 0);
    };
    fetch_under::<Brand, A, K, D>(alloc, naming, shape, &key, sink, disks, watch)
}

/// The same under a key that was made.
fn fetch_under<H: Handed, A: Addresser, K: Sink, D: Disk + Drop>(
    alloc: Global,
    naming: &A,
    shape: Shape,
    key: &Key,
    sink: &mut K,
    disks: &mut Vec<D>,
    watch: &mut Watch,
) -> Outcome
    requires shape { IsShape shape }
    requires count { vec_len disks.old ≡ shape.shards * shape.copies }
    requires entry { H.entry ≡ record {
      set = record { name = A.name naming.now; limits = greatest_limits; shape = shape };
      moment = watch.old;
      disks = map (λ disk. seen_as (D.size disk) (D.stands disk) (D.faults disk)) disks.old.items;
    } }
    ensures begun { result.status ≡ Status.Usage → ⊥ }
    ensures fetches { (source : Option (List ℕ) × ℕ) → FetchesFile D.tells (A.name naming.now) shape key.now
        (ran_of result
        (handed watch.old (map (λ disk. (D.stands disk, D.faults disk)) disks.old.items)
        (K.got sink.old, K.faults sink.old) source)
        (handed watch.new (map (λ disk. (D.stands disk, D.faults disk)) disks.new.items)
        (K.got sink.new, K.faults sink.new) source)) }
{
    let own = mem::replace(disks, Vec::new(alloc));
    let opened = ClusterAsker::<H, A, D>::open(
        alloc,
        naming,
        shape,
        Limits::greatest(),
        own,
        watch.twin(),
    );
    let mut asker = match opened {
        Ok(asker) => asker,
        Err(left) => return unopened(alloc, left, disks, watch),
    };
    let mut file = Vec::new(alloc);
    let ended = asker.ended();
    let fetched = fetch_by(alloc, ended, &mut asker, key, &mut file);
    let outcome = outcome_of(alloc, Status::Done, asker.into_told(), disks, watch);
    let status = put_fetched(sink, watch, fetched, file.as_slice());
    Outcome { status, ..outcome }
}

/// Has an asker fetch a file, where it has not ended. Else its fault is the answer.
#[tactic(auto, using(crate::proofs::EndLemmas::fetch_had, crate::proofs::EndLemmas::fetch_stops))]
fn fetch_by<B: Asker>(
    alloc: Global,
    ended: Option<CoreFault>,
    asker: &mut B,
    key: &Key,
    file: &mut Vec<u8>,
) -> Result<(), TreeFault>
    requires ended { ended ≡ (B.shows asker.old).ended }
    requires alone { IfTold (B.shows asker.old) (λ b. IsAlone b (B.shows asker.old)) }
    ensures fetched { OnOk result (HasFetched key.now
        (B.shows asker.old) (B.shows asker.new) file.old.items file.new.items) }
    ensures halts { IfErr result (HaltsFetch key.now (B.shows asker.old) (B.shows asker.new)) }
{
    match ended {
        Some(fault) => Err(TreeFault::Core(fault)),
        None => fetch_file(alloc, asker, key, file),
    }
}

/// Puts a file that was fetched into the sink, and tells how a run ends that fetched it or stopped
/// before. A sink that fails has a front of it.
fn put_fetched<K: Sink>(
    sink: &mut K,
    watch: &mut Watch,
    fetched: Result<(), TreeFault>,
    file: &[u8],
) -> Status
    ensures put { OnOk fetched (IsPutAs file.now (K.got sink.old) (K.got sink.new)
        (K.faults sink.old) (K.faults sink.new) result) }
    ensures unput { IfErr fetched (λ f. (result ≡ tree_status f)
        × (K.got sink.new ≡ K.got sink.old) × (K.faults sink.new ≡ K.faults sink.old)) }
    ensures counted { K.faults sink.old ≤ K.faults sink.new }
    ensures stamped { IsStamped watch.old watch.new (K.got sink.old) (K.got sink.new) }
    ensures ticks { watch.old ≤ watch.new }
{
    match fetched {
        Ok(()) => put_file(sink, watch, file),
        Err(fault) => tree_status(fault),
    }
}

/// Puts a file into the sink.
pub(crate) fn put_file<K: Sink>(sink: &mut K, watch: &mut Watch, file: &[u8]) -> Status
    ensures put { IsPutAs file.now (K.got sink.old) (K.got sink.new)
        (K.faults sink.old) (K.faults sink.new) result }
    ensures counted { K.faults sink.old ≤ K.faults sink.new }
    ensures stamped { IsStamped watch.old watch.new (K.got sink.old) (K.got sink.new) }
    ensures ticks { watch.old ≤ watch.new }
{
    match put_all(sink, watch, file) {
        Ok(()) => Status::Done,
        Err(_) => Status::WriteFault,
    }
}
