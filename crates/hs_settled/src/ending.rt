//! How a run ends in which nothing failed.
ghost use Rattle.std.specs.Prelude.{◌≡◌, ℕ, List};
ghost use Rattle.hs_settled.specs.Ending.{HasItsCause};
ghost use Rattle.hs_promise.specs.Completes.{EndsWell, FullBeyond, MayEndWell};
ghost use Rattle.hs_promise.specs.Ends.{Ends};
ghost use Rattle.hs_promise.specs.Run.{Ran, Script};
ghost use Rattle.hs_script.specs.Reading.{commands};

/// A run of a script in the language and within its bounds, over disks of this store, in which nothing
/// failed and whose journal has room, comes to its end; or memory was wanting, or a shard was lost with
/// its cause. That the journal is full only where its limit has no room for the lines that were begun is
/// a premise (`FullBeyond`).
pub fn a_calm_run_ends_well()
    ensures { (S : Script) (r : Ran) (script left : List ℕ)
        → ((n : ℕ) → S.commands n ≡ commands script n)
        → HasItsCause S r → Ends r script left → FullBeyond S r → MayEndWell S script r →
        EndsWell S r }
{}
