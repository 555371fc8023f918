//! A client over sound disks is told its store.
ghost use Rattle.std.specs.Prelude.{◌*◌, ◌<◌};
ghost use Rattle.hs_asker.specs.Going.{AtEntry, Inside, IsAsker};
ghost use Rattle.hs_asker.specs.Shows.{IsTold};
ghost use Rattle.hs_cluster.specs.Disks.{stands_of};
ghost use Rattle.hs_kept.specs.Answered.{SettlesAsks};
ghost use Rattle.hs_kept.specs.Entry.{IsSoundEntry, OpensAlike};
ghost use Rattle.hs_standing.specs.Held.{GivesAddresses};

use hs_clauses::{a_run_is_answered, a_run_stands};
use hs_founded::a_store_of_sound_lists_is_right;
use hs_memory::catalogues_in_memory_are_folds;
use hs_ports::Disk;
use hs_settled::{each_settle_settles, shard_0_is_led_by_lines};
use hs_standing::{a_script_is_answered, each_event_is_told};

/// What asks a cluster is told its store where the disks tell their contents, open alike, and hold
/// bytes and sound lists at entry: what it shows is lawful from the store at which the lists open,
/// however far it has come, and while it goes on its handles are those of the plain store.
pub fn a_client_is_told<D: Disk>()
    ensures { (e : AtEntry) → D.tells → OpensAlike e.set.shape e.moment (stands_of e.disks)
        → GivesAddresses e.set.name → IsSoundEntry e → IsTold D.tells e }
{
    a_run_is_answered();
    a_run_stands();
    shard_0_is_led_by_lines();
    each_event_is_told();
    a_script_is_answered();
    catalogues_in_memory_are_folds();
    a_store_of_sound_lists_is_right();
}

/// Behind a settle each operation that was asked for before has its answer, on the same terms, where the
/// pool has more room than the last two rounds of one lead take: so an asker that goes on never settles
/// twice for one operation.
pub fn a_settle_answers_what_was_asked<D: Disk>()
    ensures { (e : AtEntry) → D.tells → OpensAlike e.set.shape e.moment (stands_of e.disks)
        → GivesAddresses e.set.name → IsSoundEntry e
        → 2 * e.set.shape.shards < e.set.limits.pool
        → (s : Inside) → IsAsker D.tells e.set.name e s → SettlesAsks s }
{
    a_run_is_answered();
    a_run_stands();
    shard_0_is_led_by_lines();
    each_settle_settles();
    each_event_is_told();
    a_script_is_answered();
    catalogues_in_memory_are_folds();
    a_store_of_sound_lists_is_right();
}
