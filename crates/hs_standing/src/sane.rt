//! What a sane store has of this.
ghost use Rattle.std.specs.List.{enumerate_from};
ghost use Rattle.std.specs.Prelude.{◌≡◌, ◌+◌, ◌<◌, ◌≤◌, true, ℕ, length};
ghost use Rattle.hs_core_words.specs.declared.event.Event.{Event};
ghost use Rattle.hs_core_words.specs.Looking.{front_of, group_of, status_of};
ghost use Rattle.hs_events.specs.Sane.{IsSane};
ghost use Rattle.hs_events.specs.Whole.{Whole, floor, reach, step_whole};
ghost use Rattle.hs_fold.specs.Prefix.{IsNumbered};
ghost use Rattle.hs_members.specs.Members.{is_good_status};
ghost use Rattle.hs_moments.specs.WholeMachine.{whole_machine};
ghost use Rattle.hs_standing.specs.Copies.{IsSeated, KnowsItsCopies};
ghost use Rattle.hs_standing.specs.Lists.{waiting};
ghost use Rattle.hs_standing.specs.Stands.{GoodPeersCount, lists_of};

/// A sane store of one copy a shard has its seats, and what is known of its copies is within their
/// lists.
pub fn a_sane_store_knows_its_copies()
    ensures seated { (c : Whole) → IsSane c → IsSeated c.core }
    ensures known { (c : Whole) → IsSane c → KnowsItsCopies c.core }
{}

/// Of a sane store each good peer's disk counts, and has all that took effect of its shard. Its lists
/// are numbered from 1 on, without a Base, and what waits of a shard is what the core keeps of it.
pub fn a_sane_store_has_lists()
    ensures counted { (c : Whole) → IsSane c → GoodPeersCount whole_machine c }
    // so behind any event, also one that ends the core
    ensures after { (c : Whole) (event : Event) (moment : ℕ) →
        GoodPeersCount whole_machine (step_whole event moment c) }
    ensures sealed { (c : Whole) (peer : ℕ) → IsSane c
        → is_good_status (status_of peer c.core) ≡ true → front_of peer c.core ≤ floor c peer }
    ensures numbered { (c : Whole) (shard : ℕ) → IsSane c → shard < c.core.members.shape.shards →
        IsNumbered (reach c shard) }
    ensures within { (c : Whole) (shard : ℕ) → IsSane c → shard < c.core.members.shape.shards →
        front_of shard c.core ≤ length (reach c shard) }
    ensures waits { (c : Whole) (shard : ℕ) → IsSane c → shard < c.core.members.shape.shards →
        waiting (lists_of whole_machine c) shard
        ≡ enumerate_from (front_of shard c.core + 1) (group_of shard c.core).waiting }
{}
