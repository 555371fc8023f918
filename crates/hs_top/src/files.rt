//! The commands that keep a file, and copy a root, and what they come to in the words of the plain store.
ghost use Rattle.std.specs.Prelude.{◌≡◌, ◌+◌, ◌*◌, IsTrue, List, Option, map, vec_len, ℕ};
ghost use Rattle.hs_kept.specs.Copied.{CopiesAndKeeps};
ghost use Rattle.hs_kept.specs.Kept.{FetchesAndGives};
ghost use Rattle.hs_kept.specs.Stopped.{StoresAndKeeps};
ghost use Rattle.hs_limits.specs.Key.{is_key};
ghost use Rattle.hs_limits.specs.Shape.{IsShape};
ghost use Rattle.hs_ports.specs.Objects.{handed};
ghost use Rattle.hs_promise.specs.Run.{ran_of};

use hs_block::Addresser;
use hs_files::{run_copy, run_fetch, run_store};
use hs_kept::{a_copied_store_stays, a_file_is_kept, a_key_is_kept_whole, a_root_is_copied};
use hs_limits::Shape;
use hs_ports::{Disk, Sink, Source, Watch};
use hs_promise::{Outcome, Status};
use std::alloc::Global;

/// Stores what the source has as a file under a key. The calls before it are laws.
pub(crate) fn keep_file<A: Addresser, S: Source, D: Disk + Drop>(
    alloc: Global,
    naming: &A,
    shape: Shape,
    key: &[u8],
    source: &mut S,
    disks: &mut Vec<D>,
    watch: &mut Watch,
) -> Outcome
    requires shape { IsShape shape }
    requires count { vec_len disks.old ≡ shape.shards * shape.copies }
    requires key { IsTrue (is_key key.now) }
    ensures begun { result.status ≡ Status.Usage → ⊥ }
    ensures stores { (sink : Option (List (ℕ × ℕ)) × ℕ) → StoresAndKeeps D.tells (A.name naming.now) shape key.now
        (ran_of result
        (handed watch.old (map (λ disk. (D.stands disk, D.faults disk)) disks.old.items)
        sink (S.left source.old, S.faults source.old))
        (handed watch.new (map (λ disk. (D.stands disk, D.faults disk)) disks.new.items)
        sink (S.left source.new, S.faults source.new))) }
{
    a_file_is_kept::<D>();
    a_key_is_kept_whole::<D>();
    run_store(alloc, naming, shape, key, source, disks, watch)
}

/// Puts the file of a key into the sink. The call before it is a law.
pub(crate) fn give_file<A: Addresser, K: Sink, D: Disk + Drop>(
    alloc: Global,
    naming: &A,
    shape: Shape,
    key: &[u8],
    sink: &mut K,
    disks: &mut Vec<D>,
    watch: &mut Watch,
) -> Outcome
    requires shape { IsShape shape }
    requires count { vec_len disks.old ≡ shape.shards * shape.copies }
    requires key { IsTrue (is_key key.now) }
    ensures begun { result.status ≡ Status.Usage → ⊥ }
    ensures fetches { (source : Option (List ℕ) × ℕ) → FetchesAndGives D.tells (A.name naming.now) shape key.now
        (ran_of result
        (handed watch.old (map (λ disk. (D.stands disk, D.faults disk)) disks.old.items)
        (K.got sink.old, K.faults sink.old) source)
        (handed watch.new (map (λ disk. (D.stands disk, D.faults disk)) disks.new.items)
        (K.got sink.new, K.faults sink.new) source)) }
{
    a_file_is_kept::<D>();
    run_fetch(alloc, naming, shape, key, sink, disks, watch)
}

/// Copies the root of a key from one store into a second one. The calls before it are laws.
pub(crate) fn copy_key<A: Addresser, K: Sink, D: Disk + Drop>(
    alloc: Global,
    naming: &A,
    shape: Shape,
    second: Shape,
    key: &[u8],
    every: Option<u32>,
    sink: &mut K,
    disks: &mut Vec<D>,
    watch: &mut Watch,
) -> Outcome
    requires shape { IsShape shape }
    requires second { IsShape second }
    requires count { vec_len disks.old ≡ shape.shards * shape.copies + second.shards * second.copies }
    requires key { IsTrue (is_key key.now) }
    ensures begun { result.status ≡ Status.Usage → ⊥ }
    ensures copies { (source : Option (List ℕ) × ℕ) → CopiesAndKeeps D.tells (A.name naming.now)
        (record { first = shape; second = second }) key.now every
        (ran_of result
        (handed watch.old (map (λ disk. (D.stands disk, D.faults disk)) disks.old.items)
        (K.got sink.old, K.faults sink.old) source)
        (handed watch.new (map (λ disk. (D.stands disk, D.faults disk)) disks.new.items)
        (K.got sink.new, K.faults sink.new) source)) }
{
    a_root_is_copied::<D>();
    a_copied_store_stays::<D>();
    run_copy(alloc, naming, shape, second, key, every, sink, disks, watch)
}
