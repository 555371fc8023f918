//! What a Got tells where it is accepted.
ghost use Rattle.std.specs.Prelude.{◌≡◌, ◌<◌, ℕ, List, true};
ghost use Rattle.hs_limits.specs.Shape.{IsShape};
ghost use Rattle.hs_rounds.specs.declared.body.RoundBody.{RoundBody};
ghost use Rattle.hs_rounds.specs.declared.place.Place.{Place};
ghost use Rattle.hs_fold.specs.Lawful.{Deed};
ghost use Rattle.hs_fold.specs.Runs.Fits.{HasSent, catalogue_at};
ghost use Rattle.hs_fold.specs.Runs.History.{FitAll, follow_all, no_entries};
ghost use Rattle.hs_fold.specs.Runs.Rounds.{is_accepted};
ghost use Rattle.hs_fold.specs.Shards.Setting.{Setting};
ghost use Rattle.hs_joint.specs.Along.{KeepFewRecords};

/// A round that its sender kept as sent at one time, and that a shard would accept at a later one, is
/// kept by its sender still, and tells the same: behind a lawful history, and whatever lawful entries
/// come behind that.
pub fn an_accepted_got_is_what_its_sender_keeps()
    ensures kept { (set : Setting) (history deeds : List Deed)
        (shard : ℕ) (place : Place) (told : RoundBody)
        → IsShape set.shape → FitAll set (no_entries set) history
        → KeepFewRecords set (no_entries set) history
        → FitAll set (follow_all set (no_entries set) history) deeds
        → KeepFewRecords set (follow_all set (no_entries set) history) deeds
        → shard < set.shape.shards → place.from < set.shape.shards
        → HasSent (catalogue_at (follow_all set (no_entries set) history) place.from).sent
        shard place.epoch place.round told
        → let later = follow_all set (follow_all set (no_entries set) history) deeds in
        is_accepted set.shape.shards (catalogue_at later shard) place ≡ true →
        HasSent (catalogue_at later place.from).sent shard place.epoch place.round told }
{}
