//! Why a peer goes down, starts to join, and becomes good.
ghost use Rattle.std.specs.Prelude.{◌≡◌, ◌<◌, ℕ, true};
ghost use Rattle.hs_core_words.specs.declared.event.Event.{Event};
ghost use Rattle.hs_core_words.specs.Looking.{shape_of, status_of};
ghost use Rattle.hs_core_words.specs.State.{Core};
ghost use Rattle.hs_core_words.specs.Step.{step};
ghost use Rattle.hs_desk.specs.declared.done.Done.TheVariants.{Failed};
ghost use Rattle.hs_events.specs.Due.{is_answer};
ghost use Rattle.hs_limits.specs.declared.limits.PeerStatus.TheVariants.{Down};
ghost use Rattle.hs_quiet.specs.Keeping.{AreInStep};
ghost use Rattle.hs_quiet.specs.Turning.{TurnsBy};
ghost use Rattle.hs_whole_copies.specs.Whole.{FollowsLead};

/// An event changes the status of one peer at most, and by its cause: a peer goes down by its `fail` line, which is not
/// refused, or by a report that its disk has failed, which answers a first job, and of which the journal has a note; a peer
/// that is down starts to join by its `start` line, which is not refused; and a joining peer becomes good with a report of
/// its own (`turns`). So a peer that is not good has been down since such a line or report, or joins since its `start`. A disk
/// of which a failure is reported, in answer to a first job, is of a peer that is not down, where joining peers follow their
/// lead (`failed`): so between two such reports of a disk its peer was started. Premise: each shard's copies are in step with
/// the machine of hs_copies.
pub fn who_is_good_turns_by_cause()
    ensures turns { (event : Event) (moment : ℕ) (core : Core) → AreInStep core → TurnsBy core event (step event moment core) }
    ensures failed { (peer disk : ℕ) (core : Core) → AreInStep core → ((shard : ℕ) → shard < (shape_of core).shards → FollowsLead shard core)
        → is_answer core peer (Failed disk) ≡ true → status_of disk core ≡ Down → ⊥ }
{}
