//! A cluster that opens.
ghost use Rattle.std.specs.Prelude.{◌≡◌, ◌≤◌, ℕ, ⊤, None, Option, Result};
ghost use Rattle.hs_cluster.specs.declared.fault.ClusterFault.{ClusterFault};
ghost use Rattle.hs_cluster.specs.Opens.{Opens};
ghost use Rattle.hs_cluster.specs.Running.{Running};
ghost use Rattle.hs_events.specs.Found.{first_core};
ghost use Rattle.hs_fold.specs.Shards.Setting.{Setting};
ghost use Rattle.hs_standing.specs.Held.{GivesAddresses};
ghost use Rattle.hs_journal.specs.Events.{client_op};
ghost use Rattle.hs_limits.specs.Shape.{IsShape};
ghost use Rattle.hs_model.specs.declared.command.Command.{Command};
ghost use Rattle.hs_measure.specs.Between.{KeepsOn, start_of};
ghost use Rattle.hs_sound.specs.Stay.{AreSoundAlong};
ghost use Rattle.hs_standing.specs.Opening.{opened_lists};
ghost use Rattle.hs_standing.specs.Lists.{whole_from};
ghost use Rattle.hs_taking.specs.Disks.{seen_at};
ghost use Rattle.hs_taking.specs.Shares.{Span};

use crate::event::each_event_keeps_the_promise;
use hs_clauses::{a_run_reads_on, each_report_tells_its_block};
use hs_memory::catalogues_in_memory_are_folds;
use hs_ports::Disk;
use hs_settled::{
    each_entry_has_its_cause, each_event_keeps_the_rule_of_done, each_operation_goes_on,
};
use hs_standing::{a_line_asks_as_its_command, a_scripts_events_may_come, a_scripts_lines_are_new};
use hs_steady::{a_store_goes_on_steadily, what_opens_has_its_lists};
use hs_told::answers_stay_in_order;

/// What `Cluster::open` promises of a store whose disks tell (`Opens`), where the lists that it took are sound
/// and its core goes on from its opening: behind each front of the events of opening what is promised of
/// answers, deletion and completeness is kept, and behind them the cluster is in the run of any commands,
/// whose first line comes next. Where a shard has several copies no call of a disk is to be ahead at entry.
pub fn a_cluster_opens_in_a_run<D: Disk>()
    ensures { (set : Setting) (commands : ℕ → Option Command) (span : Span)
        (cluster : Running) (done : Result ⊤ ClusterFault)
        → D.tells → IsShape set.shape
        → ((set.shape.copies ≡ 1 → ⊥) → (peer : ℕ) → (seen_at span.old peer).stands.last ≤ span.before)
        → GivesAddresses set.name
        → client_op (commands 0) ≡ None
        → (opens : Opens D.tells set span cluster done)
        → (first_core set opens.found).ended ≡ None
        → AreSoundAlong set
        (whole_from (opened_lists set opens.found) 0 set.shape.shards) →
        KeepsOn (start_of set commands opens.found) 0 (first_core set opens.found)
        opens.events done cluster span.new span.now }
{
    each_event_keeps_the_promise();
    each_event_keeps_the_rule_of_done();
    each_operation_goes_on();
    a_line_asks_as_its_command();
    a_scripts_events_may_come();
    a_scripts_lines_are_new();
    catalogues_in_memory_are_folds();
    each_entry_has_its_cause();
    a_run_reads_on();
    each_report_tells_its_block();
    answers_stay_in_order();
    a_store_goes_on_steadily();
    what_opens_has_its_lists();
}
