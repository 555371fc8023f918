//! The top call.
ghost use Rattle.std.specs.Prelude.{◌≡◌, ◌*◌, ◌+◌, false, length, map, string_bytes, true, vec_len, ℕ, Option};
ghost use Rattle.hs_limits.specs.Shape.{IsShape};
ghost use Rattle.hs_model.specs.declared.command.Command.{Command};
ghost use Rattle.hs_ports.specs.Objects.{handed};
ghost use Rattle.hs_promise.specs.Run.{ran_of, script_of};
ghost use Rattle.hs_script.specs.CommandLine.{peers_of, second_disks};
ghost use Rattle.hs_top.specs.Calls.{Does, IsCalled, RunsSo};
ghost use Rattle.hs_top.specs.Words.{is_load, is_load_task, is_served};
ghost use Rattle.hs_wanted.specs.Asked.{IsTask};

use crate::files::{copy_key, give_file, keep_file};
use crate::load::load_with;
use crate::words::{is_load, served_on};
use hs_block::Addresser;
use hs_checks::{run_audit, run_scrub};
use hs_clauses::{
    a_run_is_answered, a_run_keeps, a_run_may_stop, a_run_of_copies_may_stop, a_run_stands,
    what_is_read_is_sealed,
};
use hs_desk::OpenGate;
use hs_limits::{Limits, Shape};
use hs_ports::{Disk, Sink, Source, Watch};
use hs_promise::{Outcome, Status};
use hs_room::a_run_with_room_is_not_full;
use hs_run::{closed, run_script_on};
use hs_script::Task;
use hs_settled::{
    a_calm_run_ends_well, a_journal_is_in_order, a_note_ends_the_run,
    a_peer_is_good_until_it_is_told, a_prompt_line_has_its_entry, a_run_deletes_as_promised,
    a_run_without_a_course_began_nothing, a_run_without_a_course_has_its_cause,
    each_entry_stands_for_its_cause, each_note_has_its_cause, each_rise_is_told,
    each_settle_settles, each_status_has_its_cause, notes_have_their_line,
};
use std::alloc::Global;
use std::sync::Wait;
use std::thread::Threads;

/// Runs a script on a store, with a cache of at most so many blocks, or none. The calls before it are
/// laws.
fn run_script<A: Addresser, S: Source, K: Sink, D: Disk>(
    alloc: Global,
    shape: Shape,
    limits: Limits,
    cached: u32,
    naming: &A,
    source: &mut S,
    sink: &mut K,
    disks: &mut [D],
    watch: &mut Watch,
) -> Outcome
    requires shape { IsShape shape }
    requires count { length disks.old ≡ shape.shards * shape.copies }
    ensures runs { (commands : ℕ → Option Command) × RunsSo D.tells
        (script_of (A.name naming.now) (record { shape = shape; limits = limits }) commands)
        (ran_of result
        (handed watch.old (map (λ disk. (D.stands disk, D.faults disk)) disks.old)
        (K.got sink.old, K.faults sink.old) (S.left source.old, S.faults source.old))
        (handed watch.new (map (λ disk. (D.stands disk, D.faults disk)) disks.new)
        (K.got sink.new, K.faults sink.new) (S.left source.new, S.faults source.new))) }
    ensures begun { result.status ≡ Status.Usage → ⊥ }
{
    each_entry_stands_for_its_cause();
    a_journal_is_in_order();
    a_note_ends_the_run();
    a_peer_is_good_until_it_is_told();
    notes_have_their_line();
    a_run_without_a_course_began_nothing();
    a_run_without_a_course_has_its_cause();
    a_prompt_line_has_its_entry();
    each_status_has_its_cause();
    each_note_has_its_cause();
    what_is_read_is_sealed();
    a_run_stands();
    a_run_is_answered();
    a_run_keeps();
    a_run_may_stop();
    a_run_of_copies_may_stop();
    a_run_deletes_as_promised();
    each_settle_settles();
    a_run_with_room_is_not_full();
    a_calm_run_ends_well();
    each_rise_is_told();
    run_script_on(
        alloc, shape, limits, cached, naming, source, sink, disks, watch,
    )
}

/// Does what is asked for, which is served.
fn do_task<A: Addresser, S: Source, K: Sink, D: Disk + Drop>(
    alloc: Global,
    shape: Shape,
    task: &Task<'_>,
    naming: &A,
    source: &mut S,
    sink: &mut K,
    disks: &mut Vec<D>,
    watch: &mut Watch,
) -> Outcome
    requires shape { IsShape shape }
    requires served { is_served task.now ≡ true }
    requires task { IsTask shape task.now }
    requires alone { is_load_task task.now ≡ false }
    requires count { vec_len disks.old ≡ peers_of shape + second_disks task.now }
    ensures does { Does D.tells (A.name naming.now) shape task.now
        (ran_of result
        (handed watch.old (map (λ disk. (D.stands disk, D.faults disk)) disks.old.items)
        (K.got sink.old, K.faults sink.old) (S.left source.old, S.faults source.old))
        (handed watch.new (map (λ disk. (D.stands disk, D.faults disk)) disks.new.items)
        (K.got sink.new, K.faults sink.new) (S.left source.new, S.faults source.new))) }
    ensures begun { result.status ≡ Status.Usage → ⊥ }
{
    match task {
        Task::Script { limits, cache, .. } => {
            let cached = cache.unwrap_or(0);
            let handed = disks.as_mut_slice();
            run_script(
                alloc, shape, *limits, cached, naming, source, sink, handed, watch,
            )
        }
        Task::Audit => {
            let handed = disks.as_mut_slice();
            run_audit(alloc, naming, shape, sink, handed, watch)
        }
        Task::Scrub { from } => {
            let handed = disks.as_mut_slice();
            run_scrub(alloc, shape, *from, sink, handed, watch)
        }
        Task::Store { key } => {
            keep_file(alloc, naming, shape, key.as_slice(), source, disks, watch)
        }
        Task::Fetch { key } => {
            give_file(alloc, naming, shape, key.as_slice(), sink, disks, watch)
        }
        Task::Copy {
            key,
            shape: second,
            delete,
            ..
        } => {
            let key = key.as_slice();
            copy_key(
                alloc, naming, shape, *second, key, *delete, sink, disks, watch,
            )
        }
        Task::Load { .. } => closed(alloc, Status::Usage, 0),
    }
}

/// Does what the words ask for, which is no load.
fn run_words<A: Addresser, S: Source, K: Sink, D: Disk + Drop>(
    alloc: Global,
    words: &[String],
    naming: &A,
    source: &mut S,
    sink: &mut K,
    disks: &mut Vec<D>,
    watch: &mut Watch,
) -> Outcome
    requires alone { is_load (map (λ word. string_bytes word) words.now) ≡ false }
    ensures called { IsCalled D.tells (A.name naming.now) (map (λ word. string_bytes word) words.now)
        (ran_of result
        (handed watch.old (map (λ disk. (D.stands disk, D.faults disk)) disks.old.items)
        (K.got sink.old, K.faults sink.old) (S.left source.old, S.faults source.old))
        (handed watch.new (map (λ disk. (D.stands disk, D.faults disk)) disks.new.items)
        (K.got sink.new, K.faults sink.new) (S.left source.new, S.faults source.new))) }
{
    match served_on(words, disks.len()) {
        Some(asked) => do_task(
            alloc,
            asked.shape,
            &asked.task,
            naming,
            source,
            sink,
            disks,
            watch,
        ),
        None => closed(alloc, Status::Usage, 0),
    }
}

/// Does every command but `load`, and waits for nobody. So far these are `script DIR G R` with its
/// options, which runs the script that the source has on the disks of a store, one for each peer, and
/// puts what is answered into the sink; `audit DIR G R`, which puts there what the logs of a store
/// amount to; `scrub DIR G R`, which puts there whether the copies of each shard agree, and with
/// `--from P` copies the list of a peer over the others of its shard; `store DIR G R KEY`, which stores
/// what the source has as a file under a key; `fetch DIR G R KEY`, which puts the file of a key into the
/// sink; and `copy DIR G R KEY DIR2 G2 R2`, which copies what a key keeps into a second store, whose disks
/// come behind those of the first. Other words are a faulty command line.
pub fn hydra_alone<A: Addresser, S: Source, K: Sink, D: Disk + Drop>(
    alloc: Global,
    words: &[String],
    naming: &A,
    source: &mut S,
    sink: &mut K,
    disks: &mut Vec<D>,
    watch: &mut Watch,
) -> Outcome
    requires { is_load (map (λ word. string_bytes word) words.now) ≡ false }
    ensures called { IsCalled D.tells (A.name naming.now) (map (λ word. string_bytes word) words.now)
        (ran_of result
        (handed watch.old (map (λ disk. (D.stands disk, D.faults disk)) disks.old.items)
        (K.got sink.old, K.faults sink.old) (S.left source.old, S.faults source.old))
        (handed watch.new (map (λ disk. (D.stands disk, D.faults disk)) disks.new.items)
        (K.got sink.new, K.faults sink.new) (S.left source.new, S.faults source.new))) }
{
    run_words(alloc, words, naming, source, sink, disks, watch)
}

/// Does a command. `load DIR G R` with its options is `load_with`'s, over a gate that does nothing, and
/// may wait for ever; every other command is `hydra_alone`'s.
pub fn hydra<
    H: Threads + Wait + Sync,
    A: Addresser + Sync,
    S: Source,
    K: Sink,
    D: Disk + Drop + Send,
>(
    alloc: Global,
    rt: &H,
    words: &[String],
    naming: &A,
    source: &mut S,
    sink: &mut K,
    disks: &mut Vec<D>,
    watch: &mut Watch,
) -> Outcome
    ensures called { IsCalled D.tells (A.name naming.now) (map (λ word. string_bytes word) words.now)
        (ran_of result
        (handed watch.old (map (λ disk. (D.stands disk, D.faults disk)) disks.old.items)
        (K.got sink.old, K.faults sink.old) (S.left source.old, S.faults source.old))
        (handed watch.new (map (λ disk. (D.stands disk, D.faults disk)) disks.new.items)
        (K.got sink.new, K.faults sink.new) (S.left source.new, S.faults source.new))) }
{
    if is_load(words) {
        load_with(alloc, rt, words, naming, sink, disks, watch, &OpenGate)
    } else {
        run_words(alloc, words, naming, source, sink, disks, watch)
    }
}
