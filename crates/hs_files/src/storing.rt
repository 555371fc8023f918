//! The command `store`.
ghost use Rattle.std.specs.Prelude.{◌≡◌, ◌≤◌, ◌*◌, IfErr, IfOk, IsTrue, List, Option, map, vec_len, ℕ};
ghost use Rattle.hs_asking.specs.Shown.{IfTold};
ghost use Rattle.hs_files.specs.Client.{end_status};
ghost use Rattle.hs_files.specs.Halting.{HaltsStore};
ghost use Rattle.hs_files.specs.Stored.{StoresFile};
ghost use Rattle.hs_limits.specs.Key.{is_key};
ghost use Rattle.hs_limits.specs.Limits.{greatest_limits};
ghost use Rattle.hs_limits.specs.Shape.{IsShape};
ghost use Rattle.hs_cluster.specs.Disks.{seen_as};
ghost use Rattle.hs_ports.specs.Objects.{handed};
ghost use Rattle.hs_promise.specs.Run.{ran_of};
ghost use Rattle.hs_tree.specs.Storing.{HasStored, IsIdle};

use crate::ending::{outcome_of, tree_status, unopened};
use crate::key::key_of;
use hs_asker::{ClusterAsker, Handed};
use hs_asking::Asker;
use hs_block::Addresser;
use hs_desk::CoreFault;
use hs_limits::{Key, Limits, Shape};
use hs_ports::{Disk, Source, Watch};
use hs_promise::{Outcome, Status};
use hs_run::closed;
use hs_tree::{TreeFault, store_file};
use std::alloc::Global;
use std::marker::Brand;
use std::mem;

/// Stores what the source has as a file under a key, on the disks of a store, one for each peer. It puts
/// nothing.
pub fn run_store<A: Addresser, S: Source, D: Disk + Drop>(
    alloc: Global,
    naming: &A,
    shape: Shape,
    key: &[u8],
    source: &mut S,
    disks: &mut Vec<D>,
    watch: &mut Watch,
) -> Outcome
    requires shape { IsShape shape }
    requires count { vec_len disks.old ≡ shape.shards * shape.copies }
    requires key { IsTrue (is_key key.now) }
    ensures begun { result.status ≡ Status.Usage → ⊥ }
    ensures stores { (sink : Option (List (ℕ × ℕ)) × ℕ) → StoresFile D.tells (A.name naming.now) shape key.now
        (ran_of result
        (handed watch.old (map (λ disk. (D.stands disk, D.faults disk)) disks.old.items)
        sink (S.left source.old, S.faults source.old))
        (handed watch.new (map (λ disk. (D.stands disk, D.faults disk)) disks.new.items)
        sink (S.left source.new, S.faults source.new))) }
{
    let Ok(key) = key_of(alloc, key) else {
        return closed(alloc, Status::NoMemory, 0);
    };
    store_under::<Brand, A, S, D>(alloc, naming, shape, &key, source, disks, watch)
}

/// The same under a key that was made.
fn store_under<H: Handed, A: Addresser, S: Source, D: Disk + Drop>(
    alloc: Global,
    naming: &A,
    shape: Shape,
    key: &Key,
    source: &mut S,
    disks: &mut Vec<D>,
    watch: &mut Watch,
) -> Outcome
    requires shape { IsShape shape }
    requires count { vec_len disks.old ≡ shape.shards * shape.copies }
    requires entry { H.entry ≡ record {
      set = record { name = A.name naming.now; limits = greatest_limits; shape = shape };
      moment = watch.old;
      disks = map (λ disk. seen_as (D.size disk) (D.stands disk) (D.faults disk)) disks.old.items;
    } }
    ensures begun { result.status ≡ Status.Usage → ⊥ }
    ensures stores { (sink : Option (List (ℕ × ℕ)) × ℕ) → StoresFile D.tells (A.name naming.now) shape key.now
        (ran_of result
        (handed watch.old (map (λ disk. (D.stands disk, D.faults disk)) disks.old.items)
        sink (S.left source.old, S.faults source.old))
        (handed watch.new (map (λ disk. (D.stands disk, D.faults disk)) disks.new.items)
        sink (S.left source.new, S.faults source.new))) }
{
    let own = mem::replace(disks, Vec::new(alloc));
    let opened = ClusterAsker::<H, A, D>::open(
        alloc,
        naming,
        shape,
        Limits::greatest(),
        own,
        watch.twin(),
    );
    let mut asker = match opened {
        Ok(asker) => asker,
        Err(left) => return unopened(alloc, left, disks, watch),
    };
    let ended = asker.ended();
    let stored = store_by(alloc, ended, &mut asker, naming, source, key);
    let status = store_status(stored);
    outcome_of(alloc, status, asker.into_told(), disks, watch)
}

/// Has an asker store what a source gives, where it has not ended. Else its fault is the answer.
#[tactic(auto, using(crate::proofs::EndLemmas::store_had, crate::proofs::EndLemmas::store_stops))]
fn store_by<B: Asker, S: Source, A: Addresser>(
    alloc: Global,
    ended: Option<CoreFault>,
    asker: &mut B,
    naming: &A,
    source: &mut S,
    key: &Key,
) -> Result<u64, TreeFault>
    requires ended { ended ≡ (B.shows asker.old).ended }
    requires idle { IfTold (B.shows asker.old) (λ b.
        IsIdle (A.name naming.now) b (B.shows asker.old)) }
    ensures stored { IfOk result (λ bytes. HasStored (A.name naming.now) key.now
        (B.shows asker.old) (B.shows asker.new) (S.left source.old) (S.left source.new) bytes) }
    ensures halts { IfErr result (HaltsStore (A.name naming.now) key.now
        (B.shows asker.old) (B.shows asker.new) (record {
          left = S.left source.old;
          left' = S.left source.new;
          faults = S.faults source.old;
          faults' = S.faults source.new;
        })) }
    ensures later { S.faults source.old ≤ S.faults source.new }
{
    match ended {
        Some(fault) => Err(TreeFault::Core(fault)),
        None => store_file(alloc, asker, naming, source, key),
    }
}

/// How a run ends that stored a file, or stopped before.
fn store_status(stored: Result<u64, TreeFault>) -> Status
    ensures { result ≡ end_status stored }
{
    match stored {
        Ok(_) => Status::Done,
        Err(fault) => tree_status(fault),
    }
}
