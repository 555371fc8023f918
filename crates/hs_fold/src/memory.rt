//! The rounds of a list are those of a run in memory.
ghost use Rattle.std.specs.Prelude.{◌≡◌, ◌+◌, ℕ, true};
ghost use Rattle.hs_limits.specs.declared.shape.Shape.{Shape};
ghost use Rattle.hs_rounds.specs.declared.body.RoundBody.{RoundBody};
ghost use Rattle.hs_rounds.specs.declared.place.Place.{Place};
ghost use Rattle.hs_rounds.specs.Rounds.{complete, finish, go_on, got, received};
ghost use Rattle.hs_rounds.specs.Rounds.{enter as enter_run, is_last as is_last_run};
ghost use Rattle.hs_fold.specs.Runs.Facts.{Catalogue};
ghost use Rattle.hs_fold.specs.Runs.Rounds.{enter_epoch, first_deltas, is_accepted, is_complete, is_last, is_running, log_got, next_deltas, next_total, open_deltas, run_of, search, sweep};

/// The run of a catalogue, as hs_rounds keeps it, goes as the catalogue does: it enters, takes a Got,
/// goes on and finishes with it, and the open round is complete, the last, and tells what it tells.
pub fn runs_go_as_in_memory()
    ensures enter { (shape : Shape) (shard : ℕ) (c : Catalogue) → c.swept ≡ c.epoch →
        run_of shape shard (enter_epoch shape.shards c)
        ≡ enter_run (c.epoch + 1) (first_deltas (c.epoch + 1) c) (run_of shape shard c) }
    ensures got { (shape : Shape) (shard : ℕ) (c : Catalogue) (place : Place) (told : RoundBody)
        → is_accepted shape.shards c place ≡ true →
        run_of shape shard (log_got place told c) ≡ got place told (run_of shape shard c) }
    ensures search { (shape : Shape) (shard : ℕ) (c : Catalogue) → is_running c ≡ true →
        run_of shape shard (search shape.shards c)
        ≡ go_on (next_total c) (next_deltas c) (run_of shape shard c) }
    ensures sweep { (shape : Shape) (shard : ℕ) (c : Catalogue) → is_running c ≡ true →
        run_of shape shard (sweep c) ≡ finish (run_of shape shard c) }

    ensures complete { (shape : Shape) (shard : ℕ) (c : Catalogue) → is_running c ≡ true →
        complete (run_of shape shard c) ≡ is_complete shape.shards c }
    ensures last { (shape : Shape) (shard : ℕ) (c : Catalogue) → is_running c ≡ true →
        is_last_run (run_of shape shard c) ≡ is_last shape.shards c }
    ensures received { (shape : Shape) (shard : ℕ) (c : Catalogue) → is_running c ≡ true →
        received (run_of shape shard c) ≡ open_deltas shape.shards c }
{}
