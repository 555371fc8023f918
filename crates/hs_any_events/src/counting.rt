//! What the counts of a core are worth, whatever reports tell.
ghost use Rattle.std.specs.Prelude.{◌≡◌, ◌++◌, ℕ, List, [], ◌∷◌, None, Some, take};
ghost use Rattle.hs_any_events.specs.Events.{AreCountedRight, ComesNext, IsCountedRight};
ghost use Rattle.hs_any_events.specs.Events.{Sweeps, SweepsBy, SweepsRight};
ghost use Rattle.hs_anatomy.specs.Acts.{Acts, begun};
ghost use Rattle.hs_core_words.specs.declared.event.Event.{Event};
ghost use Rattle.hs_core_words.specs.Looking.{group_of};
ghost use Rattle.hs_core_words.specs.State.{Core};
ghost use Rattle.hs_core_words.specs.Step.{step};
ghost use Rattle.hs_effects.specs.Taking.{taken};
ghost use Rattle.hs_entry.specs.declared.entry.Entry.{Entry};
ghost use Rattle.hs_events.specs.Course.{steps};
ghost use Rattle.hs_events.specs.Due.{Events};
ghost use Rattle.hs_events.specs.Found.{Found, first_core};
ghost use Rattle.hs_fold.specs.Shards.Setting.{Setting};
ghost use Rattle.hs_known_copies.specs.Known.{AllComeWithRoom};
ghost use Rattle.hs_limits.specs.Shape.{IsShape};
ghost use Rattle.hs_replica.specs.Group.{committed};
ghost use Rattle.hs_sound.specs.Stay.{AreSoundAlong};
ghost use Rattle.hs_standing.specs.Lists.{whole_from};
ghost use Rattle.hs_standing.specs.Opening.{OpensSoundly, opened_lists};

use hs_answered::{
    a_read_is_the_judges, a_step_that_answers_is_the_judges, a_write_is_the_judges,
    an_answer_is_the_judges, views_show_the_store,
};
use hs_deletion::{
    counts_of_catalogues_are_right, each_unreached_block_is_found, no_reached_block_is_a_wrong_zero,
};
use hs_effects::{
    a_delete_is_answered_at_its_effect, a_drop_is_answered_at_its_effect,
    a_got_is_silent_or_a_sweep, a_new_block_is_answered_at_its_effect,
    a_present_block_is_answered_at_its_effect, a_root_is_answered_at_its_effect,
    an_enter_by_itself_is_told,
};
use hs_known_copies::a_store_that_opens_comes_on;
use hs_measure::zero_blocks_are_right;
use hs_memory::catalogues_in_memory_are_folds;
use hs_sound::histories_are_counted;

/// The counts of a core are right, and so are its zero blocks: as it opens over sound lists, also where it
/// has ended with that (`opens`); and behind each front of any events, also where it has ended with one of
/// them: whatever reports tell, whatever addresses writes bring, and whichever lines there are beside clients'
/// (`events`). The lists go from 1 on without a Base; a client's line is above those before, and its write brings
/// an address where it has a block; and as long as the core goes on it has room for root records. Zero blocks
/// are right by some naming of blocks then. How far a shard has swept changes by an event only by an entry that
/// takes effect in it (`only`); and where by such an entry it does so, the shard sweeps up to its epoch, and each
/// older block of it that is out of reach there was a zero block (`exact`). All for any number of copies.
pub fn counts_are_right_behind_any_events()
    ensures opens { (set : Setting) (found : Found)
        → IsShape set.shape
        → AreSoundAlong set (whole_from (opened_lists set found) 0 set.shape.shards) →
        IsCountedRight set.name (first_core set found) }
    ensures events { (set : Setting) (found : Found) (events : Events)
        → OpensSoundly set found
        → AllComeWithRoom ComesNext (first_core set found) events →
        (n : ℕ) → AreCountedRight (steps (first_core set found) (take n events)) }
    ensures only { (shard : ℕ) (event : Event) (moment : ℕ) (core : Core)
        → Sweeps shard core (step event moment core) → SweepsBy shard event moment core }
    ensures exact { (set : Setting) (found : Found) (events : Events) (event : Event)
        (moment : ℕ) → OpensSoundly set found
        → AllComeWithRoom ComesNext (first_core set found) (events ++ (event, moment) ∷ [])
        → let core : Core = steps (first_core set found) events in
        core.ended ≡ None
        → (reached : Core) → Acts (begun event moment core) (Some event) reached
        → (shard number : ℕ) (entry : Entry)
        → committed (group_of shard reached) ≡ Some (number, entry)
        → Sweeps shard reached (taken shard entry reached) → SweepsRight shard entry reached }
{
    views_show_the_store();
    a_step_that_answers_is_the_judges();
    an_answer_is_the_judges();
    a_read_is_the_judges();
    a_write_is_the_judges();
    a_new_block_is_answered_at_its_effect();
    a_present_block_is_answered_at_its_effect();
    a_root_is_answered_at_its_effect();
    a_drop_is_answered_at_its_effect();
    a_delete_is_answered_at_its_effect();
    an_enter_by_itself_is_told();
    a_got_is_silent_or_a_sweep();
    counts_of_catalogues_are_right();
    no_reached_block_is_a_wrong_zero();
    each_unreached_block_is_found();
    histories_are_counted();
    zero_blocks_are_right();
    catalogues_in_memory_are_folds();
    a_store_that_opens_comes_on();
}
