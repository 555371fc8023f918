//! The command `load`.
ghost use Rattle.std.specs.Prelude.{◌≡◌, false, map, string_bytes, true, ℕ, List, Option};
ghost use Rattle.hs_ports.specs.Objects.{handed};
ghost use Rattle.hs_promise.specs.Promise.{IsUsage};
ghost use Rattle.hs_promise.specs.Run.{ran_of};
ghost use Rattle.hs_top.specs.Calls.{IsCalled};
ghost use Rattle.hs_top.specs.Words.{is_load};

use crate::words::served_on;
use hs_block::Addresser;
use hs_desk::Gate;
use hs_load::run_load;
use hs_ports::{Disk, Sink, Watch};
use hs_promise::{Outcome, Status};
use hs_run::closed;
use hs_script::Task;
use hs_summed::a_done_load_leaves_its_store;
use std::alloc::Global;
use std::sync::Wait;
use std::thread::Threads;

/// Does `load DIR G R --seed S --writers W` with its option `--files F`: that many writers, by threads of
/// their own, each store so many files over an empty store, and drop every fourth, while one worker for
/// each peer does what its disk owes, and four deletions run beside them. Two more deletions follow, and a
/// summary is put into the sink. The gate is called before and behind each call of a disk, while nothing
/// is locked. It may wait for ever. Words of another command are a faulty command line.
pub fn load_with<
    H: Threads + Wait + Sync,
    A: Addresser + Sync,
    K: Sink,
    D: Disk + Drop + Send,
    T: Gate + Sync,
>(
    alloc: Global,
    rt: &H,
    words: &[String],
    naming: &A,
    sink: &mut K,
    disks: &mut Vec<D>,
    watch: &mut Watch,
    gate: &T,
) -> Outcome
    ensures called { is_load (map (λ word. string_bytes word) words.now) ≡ true →
        (source : Option (List ℕ) × ℕ) →
        IsCalled D.tells (A.name naming.now) (map (λ word. string_bytes word) words.now)
        (ran_of result
        (handed watch.old (map (λ disk. (D.stands disk, D.faults disk)) disks.old.items)
        (K.got sink.old, K.faults sink.old) source)
        (handed watch.new (map (λ disk. (D.stands disk, D.faults disk)) disks.new.items)
        (K.got sink.new, K.faults sink.new) source)) }
    ensures usage { is_load (map (λ word. string_bytes word) words.now) ≡ false →
        (source : Option (List ℕ) × ℕ) → IsUsage
        (ran_of result
        (handed watch.old (map (λ disk. (D.stands disk, D.faults disk)) disks.old.items)
        (K.got sink.old, K.faults sink.old) source)
        (handed watch.new (map (λ disk. (D.stands disk, D.faults disk)) disks.new.items)
        (K.got sink.new, K.faults sink.new) source)) }
{
    a_done_load_leaves_its_store::<D>();
    let Some(asked) = served_on(words, disks.len()) else {
        return closed(alloc, Status::Usage, 0);
    };
    match asked.task {
        Task::Load {
            seed,
            writers,
            files,
        } => run_load(
            alloc,
            rt,
            naming,
            asked.shape,
            seed,
            writers,
            u32::from(files),
            sink,
            disks,
            watch,
            gate,
        ),
        _ => closed(alloc, Status::Usage, 0),
    }
}
