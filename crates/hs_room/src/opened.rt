//! A cluster that opens.
ghost use Rattle.std.specs.Prelude.{◌≡◌, ◌≤◌, ℕ, ⊤, None, Option, Result};
ghost use Rattle.hs_cluster.specs.declared.fault.ClusterFault.{ClusterFault};
ghost use Rattle.hs_cluster.specs.Opens.{Opens};
ghost use Rattle.hs_cluster.specs.Running.{Running};
ghost use Rattle.hs_events.specs.Found.{first_core};
ghost use Rattle.hs_fold.specs.Shards.Setting.{Setting};
ghost use Rattle.hs_journal.specs.Events.{client_op};
ghost use Rattle.hs_limits.specs.Shape.{IsShape};
ghost use Rattle.hs_measure.specs.Between.{start_of};
ghost use Rattle.hs_model.specs.declared.command.Command.{Command};
ghost use Rattle.hs_promise.specs.Completes.{entries_most};
ghost use Rattle.hs_room.specs.Room.{EndsWell, KeepsRoom};
ghost use Rattle.hs_sound.specs.Stay.{AreSoundAlong};
ghost use Rattle.hs_standing.specs.Held.{GivesAddresses};
ghost use Rattle.hs_standing.specs.Lists.{whole_from};
ghost use Rattle.hs_standing.specs.Opening.{opened_lists};
ghost use Rattle.hs_taking.specs.Disks.{seen_at};
ghost use Rattle.hs_taking.specs.Shares.{Span};

use crate::journal::a_journal_has_room;
use hs_clauses::{
    a_run_reads_on, each_block_is_of_an_entry, each_report_tells_its_block, what_is_read_is_sealed,
};
use hs_memory::catalogues_in_memory_are_folds;
use hs_ports::Disk;
use hs_standing::{a_scripts_events_may_come, a_scripts_lines_are_new};
use hs_steady::{a_store_goes_on_steadily, what_opens_has_its_lists};

/// What `Cluster::open` promises of a store whose disks tell (`Opens`), where the lists that it took are sound and
/// its core goes on from its opening: behind each front of the events of opening the journal has at most so many
/// entries as are room for before any line, and the core that it leaves is that of a run so far, of any commands
/// (`keeps`). Where the journal's limit has that room the cluster goes on, or memory ran out, or a shard is lost with
/// its cause (`ends`). Where a shard has several copies no call of a disk is to be ahead at entry.
pub fn a_cluster_opens_with_room<D: Disk>()
    ensures keeps { (set : Setting) (commands : ℕ → Option Command) (span : Span)
        (cluster : Running) (done : Result ⊤ ClusterFault)
        → D.tells → IsShape set.shape
        → ((set.shape.copies ≡ 1 → ⊥) → (peer : ℕ) → (seen_at span.old peer).stands.last ≤ span.before)
        → GivesAddresses set.name
        → client_op (commands 0) ≡ None
        → (opens : Opens D.tells set span cluster done)
        → (first_core set opens.found).ended ≡ None
        → AreSoundAlong set
        (whole_from (opened_lists set opens.found) 0 set.shape.shards) →
        KeepsRoom (start_of set commands opens.found) 0 (first_core set opens.found)
        opens.events done cluster }
    ensures ends { (set : Setting) (commands : ℕ → Option Command) (span : Span)
        (cluster : Running) (done : Result ⊤ ClusterFault)
        → D.tells → IsShape set.shape
        → ((set.shape.copies ≡ 1 → ⊥) → (peer : ℕ) → (seen_at span.old peer).stands.last ≤ span.before)
        → GivesAddresses set.name
        → client_op (commands 0) ≡ None
        → (opens : Opens D.tells set span cluster done)
        → (first_core set opens.found).ended ≡ None
        → AreSoundAlong set
        (whole_from (opened_lists set opens.found) 0 set.shape.shards)
        → entries_most commands set.shape 0 ≤ set.limits.ops →
        EndsWell set.shape (record {
          asked = None;
          old = span.old;
          new = span.new;
        }) done }
{
    a_journal_has_room();
    each_report_tells_its_block();
    each_block_is_of_an_entry();
    what_is_read_is_sealed();
    a_run_reads_on();
    catalogues_in_memory_are_folds();
    a_scripts_events_may_come();
    a_scripts_lines_are_new();
    a_store_goes_on_steadily();
    what_opens_has_its_lists();
}
