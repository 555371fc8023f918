//! Which list a stop while a store opens would take.
ghost use Rattle.std.specs.Prelude.{◌≡◌, ◌⊎◌, ◌*◌, ◌<◌, [], ℕ, List, None, Option, Some, drop, is_some, length, slice_index_or, take, true, unwrap_or};
ghost use Rattle.hs_entry.specs.Entries.{IsPrefix, rank_of};
ghost use Rattle.hs_fold.specs.Opened.{chosen, outranks};
ghost use Rattle.hs_fold.specs.Prefix.{IsNumbered};
ghost use Rattle.hs_fold.specs.Shards.Setting.{Numbered};
ghost use Rattle.hs_fold.specs.Shards.Sound.{HasRisingViews};
ghost use Rattle.hs_limits.specs.declared.shape.Shape.{Shape};
ghost use Rattle.hs_limits.specs.Shape.{peer_of};
ghost use Rattle.hs_taking.specs.Copies.{IsFirst, IsOf, IsOwnOrFront};

/// A front of a list whose views never fall has a lower rank, or is all of it. So the log that a store
/// opens with is the one that a stop would take, as long as its disk leaves its list, and each other one
/// of the shard its own or a front of that. It is the log of greatest rank at entry, where that was read.
pub fn the_taken_list_stays_chosen()
    ensures ranks { (list front : Numbered) → IsNumbered list → HasRisingViews list
        → IsPrefix front list
        → (front ≡ list) ⊎ (outranks (rank_of list) (rank_of front) ≡ true) }
    ensures stays { (shape : Shape) (logs : ℕ → Option Numbered) (shard from : ℕ) (taken : Numbered)
        (lists : List Numbered) → IsFirst shape logs shard from → logs from ≡ Some taken
        → IsNumbered taken → HasRisingViews taken → shard < shape.shards
        → length lists ≡ shape.shards * shape.copies → slice_index_or lists from [] ≡ taken
        → ((peer : ℕ) → IsOf shape shard peer
        → IsOwnOrFront (unwrap_or (logs peer) []) taken (slice_index_or lists peer []))
        → chosen (take shape.copies (drop (peer_of shape shard 0) lists)) ≡ taken }
    ensures known { (shape : Shape) (logs entry : ℕ → Option Numbered) (shard from peer : ℕ)
        → IsFirst shape logs shard from → IsFirst shape entry shard peer → is_some (logs peer) ≡ true
        → ((other : ℕ) → IsOf shape shard other → (logs other ≡ entry other) ⊎ (logs other ≡ None))
        → from ≡ peer }
{}
