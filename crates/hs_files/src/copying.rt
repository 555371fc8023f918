//! The command `copy`.
ghost use Rattle.std.specs.Prelude.{◌≡◌, ◌+◌, ◌*◌, ◌≤◌, ◌++◌, [], IfErr, IfOk, IsTrue, List, OnOk, Option, drop, length, map, take, vec_capacity, vec_len, ℕ};
ghost use Rattle.hs_asking.specs.Shown.{IfTold};
ghost use Rattle.hs_asking.specs.Shown.{Shown};
ghost use Rattle.hs_cluster.specs.Disks.{seen_as};
ghost use Rattle.hs_files.specs.Copied.{CopiesDuly, CopiesRoot, HaltsCopy, copied_text, fault_status, second_status};
ghost use Rattle.hs_files.specs.Put.{IsPutAs};
ghost use Rattle.hs_limits.specs.Key.{is_key};
ghost use Rattle.hs_limits.specs.Limits.{greatest_limits};
ghost use Rattle.hs_limits.specs.Shape.{IsShape};
ghost use Rattle.hs_ports.specs.Objects.{handed};
ghost use Rattle.hs_promise.specs.Run.{ran_of};
ghost use Rattle.hs_run.specs.Puts.{IsStamped};
ghost use Rattle.hs_run.specs.Stopping.{of_cluster, status_of};
ghost use Rattle.hs_tree.specs.Storing.{IsIdle};

use crate::both::{both_told, first_unopened, peers_of, put_copied, second_unopened};
use crate::key::key_of;
use crate::two::{Two, take_two};
use hs_asker::{ClusterAsker, Handed};
use hs_asking::Asker;
use hs_block::Addresser;
use hs_copy::{CopyFault, copy_root};
use hs_desk::CoreFault;
use hs_limits::{Key, Limits, Shape};
use hs_ports::{Disk, Sink, Watch};
use hs_promise::{Outcome, Status};
use hs_run::closed;
use std::alloc::Global;
use std::marker::Brand;

/// Copies the root of a key, with all that it reaches, from one store into a second one, and puts how
/// many blocks that are. The disks are those of the first store and behind them those of the second, one
/// for each peer. With `every` a deletion is begun in the second behind so many writes. What is handed
/// back is the second store's. It reads no source.
pub fn run_copy<A: Addresser, K: Sink, D: Disk + Drop>(
    alloc: Global,
    naming: &A,
    shape: Shape,
    second: Shape,
    key: &[u8],
    every: Option<u32>,
    sink: &mut K,
    disks: &mut Vec<D>,
    watch: &mut Watch,
) -> Outcome
    requires shape { IsShape shape }
    requires second { IsShape second }
    requires count { vec_len disks.old ≡ shape.shards * shape.copies + second.shards * second.copies }
    requires key { IsTrue (is_key key.now) }
    ensures begun { result.status ≡ Status.Usage → ⊥ }
    ensures copies { (source : Option (List ℕ) × ℕ) → CopiesRoot D.tells (A.name naming.now)
        (record { first = shape; second = second }) key.now every
        (ran_of result
        (handed watch.old (map (λ disk. (D.stands disk, D.faults disk)) disks.old.items)
        (K.got sink.old, K.faults sink.old) source)
        (handed watch.new (map (λ disk. (D.stands disk, D.faults disk)) disks.new.items)
        (K.got sink.new, K.faults sink.new) source)) }
{
    let Ok(key) = key_of(alloc, key) else {
        return closed(alloc, Status::NoMemory, 0);
    };
    copy_under::<Brand, Brand, A, K, D>(
        alloc, naming, shape, second, &key, every, sink, disks, watch,
    )
}

/// The same under a key that was made.
fn copy_under<H: Handed, G: Handed, A: Addresser, K: Sink, D: Disk + Drop>(
    alloc: Global,
    naming: &A,
    shape: Shape,
    second: Shape,
    key: &Key,
    every: Option<u32>,
    sink: &mut K,
    disks: &mut Vec<D>,
    watch: &mut Watch,
) -> Outcome
    requires shape { IsShape shape }
    requires second { IsShape second }
    requires count { vec_len disks.old ≡ shape.shards * shape.copies + second.shards * second.copies }
    requires entry { H.entry ≡ record {
      set = record { name = A.name naming.now; limits = greatest_limits; shape = shape };
      moment = watch.old;
      disks = map (λ disk. seen_as (D.size disk) (D.stands disk) (D.faults disk))
          (take (shape.shards * shape.copies) disks.old.items);
    } }
    requires behind { G.entry ≡ record {
      set = record { name = A.name naming.now; limits = greatest_limits; shape = second };
      moment = watch.old;
      disks = map (λ disk. seen_as (D.size disk) (D.stands disk) (D.faults disk))
          (drop (shape.shards * shape.copies) disks.old.items);
    } }
    ensures begun { result.status ≡ Status.Usage → ⊥ }
    ensures copies { (source : Option (List ℕ) × ℕ) → CopiesRoot D.tells (A.name naming.now)
        (record { first = shape; second = second }) key.now every
        (ran_of result
        (handed watch.old (map (λ disk. (D.stands disk, D.faults disk)) disks.old.items)
        (K.got sink.old, K.faults sink.old) source)
        (handed watch.new (map (λ disk. (D.stands disk, D.faults disk)) disks.new.items)
        (K.got sink.new, K.faults sink.new) source)) }
{
    let Ok(
        Two {
            first: one,
            second: two,
        },
    ) = take_two(disks, usize::from(peers_of(shape)))
    else {
        return closed(alloc, Status::NoMemory, 0);
    };
    let opened = ClusterAsker::<H, A, D>::open(
        alloc,
        naming,
        shape,
        Limits::greatest(),
        one,
        watch.twin(),
    );
    let mut from = match opened {
        Ok(asker) => asker,
        Err(left) => return first_unopened(alloc, left, two, disks, watch),
    };
    let opened = ClusterAsker::<G, A, D>::open(
        alloc,
        naming,
        second,
        Limits::greatest(),
        two,
        watch.twin(),
    );
    let mut into = match opened {
        Ok(asker) => asker,
        Err(left) => return second_unopened(alloc, shape, from.into_told(), left, disks, watch),
    };
    let ended = (from.ended(), into.ended());
    let copied = copy_by(alloc, ended, &mut from, &mut into, naming, key, every);
    let outcome = both_told(alloc, from.into_told(), into.into_told(), disks, watch);
    let status = put_copied(alloc, sink, watch, shape, copied);
    Outcome { status, ..outcome }
}

/// Has one asker's root copied into another's store, where neither has ended. Else the first that has is
/// the answer.
#[tactic(auto, using(crate::proofs::HaltLemmas::copy_had_first, crate::proofs::HaltLemmas::copy_had_second, crate::proofs::HaltLemmas::copy_stops))]
fn copy_by<B: Asker, C: Asker, A: Addresser>(
    alloc: Global,
    ended: (Option<CoreFault>, Option<CoreFault>),
    from: &mut B,
    into: &mut C,
    naming: &A,
    key: &Key,
    every: Option<u32>,
) -> Result<u32, CopyFault>
    requires first { ended.0 ≡ (B.shows from.old).ended }
    requires second { ended.1 ≡ (C.shows into.old).ended }
    requires idle { IfTold (B.shows from.old) (λ b.
        IsIdle (A.name naming.now) b (B.shows from.old)) }
    requires open { IfTold (C.shows into.old) (λ b.
        IsIdle (A.name naming.now) b (C.shows into.old)) }
    ensures copied { IfOk result (CopiesDuly (A.name naming.now) key.now every
        (B.shows from.old) (B.shows from.new) (C.shows into.old) (C.shows into.new)) }
    ensures halts { IfErr result (HaltsCopy (A.name naming.now) key.now
        (B.shows from.old) (B.shows from.new) (C.shows into.old) (C.shows into.new)) }
{
    match ended {
        (Some(fault), _) => Err(CopyFault::First(fault)),
        (None, Some(fault)) => Err(CopyFault::Second(fault)),
        (None, None) => copy_root(alloc, from, into, naming, key, every),
    }
}
