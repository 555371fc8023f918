//! From the opening on.
ghost use Rattle.std.specs.Prelude.{◌≡◌, ◌*◌, ◌≤◌, ◌<◌, ℕ, List, None, Some, length, true};
ghost use Rattle.hs_copies.specs.CoreCopies.{opens_good};
ghost use Rattle.hs_copies.specs.Lists.{IsFront, Item};
ghost use Rattle.hs_core_words.specs.declared.event.Event.{Event};
ghost use Rattle.hs_core_words.specs.Looking.{front_of, group_of, lead_of, status_of};
ghost use Rattle.hs_core_words.specs.Opening.{Taken, good_copies, open_core};
ghost use Rattle.hs_core_words.specs.State.{Core};
ghost use Rattle.hs_entry.specs.declared.entry.Entry.{Entry};
ghost use Rattle.hs_limits.specs.declared.limits.Limits.{Limits};
ghost use Rattle.hs_limits.specs.declared.limits.PeerStatus.TheVariants.{Good};
ghost use Rattle.hs_limits.specs.declared.shape.Shape.{Shape};
ghost use Rattle.hs_limits.specs.Shape.{IsShape};
ghost use Rattle.hs_replica.specs.Group.{copy_of, length_of};
ghost use Rattle.hs_core_copies.specs.InStep.{GoesOn, IsOf};
ghost use Rattle.hs_core_copies.specs.Opening.{IsTakenLog, MayOpen, OpensAs};
ghost use Rattle.hs_core_copies.specs.Runs.{core_after};

/// Where the core opens with the logs that were taken, and has not ended, each shard is in step with the machine
/// of its copies, opened with its log; and so it is after any events since.
pub fn what_opens_is_in_step()
    ensures opened { (shape : Shape) (limits : Limits) (taken : Taken) (moment shard : ℕ) (log : List (Item Entry))
        → MayOpen shape taken shard log → (open_core shape limits taken moment).ended ≡ None
        → OpensAs shape taken shard log (open_core shape limits taken moment) }
    ensures run { (shape : Shape) (limits : Limits) (taken : Taken) (moment shard : ℕ) (log : List (Item Entry))
        (events : List (Event × ℕ)) → MayOpen shape taken shard log
        → (core_after events (open_core shape limits taken moment)).ended ≡ None
        → OpensAs shape taken shard log (core_after events (open_core shape limits taken moment)) }
{}

/// So in every core of a run that has not ended the stamps of each good peer's list are a front of those of the
/// lead's, and no fewer than what took effect.
pub fn good_stamps_are_fronts_along_a_run()
    ensures stamps { (shape : Shape) (limits : Limits) (taken : Taken) (moment shard : ℕ) (log : List (Item Entry))
        (events : List (Event × ℕ)) (core : Core) → MayOpen shape taken shard log
        → core ≡ core_after events (open_core shape limits taken moment) → core.ended ≡ None
        → (peer lead : ℕ) → IsOf core.members.shape shard peer → status_of peer core ≡ Good
        → lead_of shard core ≡ Some lead
        → IsFront (copy_of (group_of shard core) peer).stamps (copy_of (group_of shard core) lead).stamps }
    ensures effects { (shape : Shape) (limits : Limits) (taken : Taken) (moment shard : ℕ) (log : List (Item Entry))
        (events : List (Event × ℕ)) (core : Core) → MayOpen shape taken shard log
        → core ≡ core_after events (open_core shape limits taken moment) → core.ended ≡ None
        → (peer : ℕ) → IsOf core.members.shape shard peer → status_of peer core ≡ Good
        → front_of shard core ≤ length_of (group_of shard core) peer }
{}
