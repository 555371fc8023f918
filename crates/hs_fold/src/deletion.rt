//! Lists of all kinds, with deletion runs.
ghost use Rattle.std.specs.Prelude.{◌≡◌, ◌<◌, ◌≤◌, ◌^◌, ℕ, All, List, false, length, slice_set, true};
ghost use Rattle.hs_limits.specs.declared.delta.Delta.{Delta};
ghost use Rattle.hs_limits.specs.Limits.{greatest_limits};
ghost use Rattle.hs_model.specs.Inner.{sweep};
ghost use Rattle.hs_entry.specs.declared.entry.Entry.{Entry};
ghost use Rattle.hs_entry.specs.declared.entry.Entry.TheVariants as kind;
ghost use Rattle.hs_rounds.specs.declared.body.RoundBody.{RoundBody};
ghost use Rattle.hs_rounds.specs.declared.place.Place.{Place};
ghost use Rattle.hs_rounds.specs.Rounds.{body_for};
ghost use Rattle.hs_fold.specs.Catalogue.{Shard};
ghost use Rattle.hs_fold.specs.Lawful.{Deed};
ghost use Rattle.hs_fold.specs.Runs.Catalogue.{apply, catalogue_of};
ghost use Rattle.hs_fold.specs.Runs.Ends.{ReleasesLate, TakesTheUnreached};
ghost use Rattle.hs_fold.specs.Runs.Facts.{Catalogue, plain, roots_of};
ghost use Rattle.hs_fold.specs.Runs.Fits.{catalogue_at};
ghost use Rattle.hs_fold.specs.Runs.Happening.{IsClients, happening_of};
ghost use Rattle.hs_fold.specs.Runs.History.{follow};
ghost use Rattle.hs_fold.specs.Runs.Opened.{catalogues, store_of};
ghost use Rattle.hs_fold.specs.Runs.Own.{AreKeyed, AreOwn, IsOwn, OneRetained};
ghost use Rattle.hs_fold.specs.Runs.Rounds.{end_round, is_last, log_got, advanced, enter_epoch, is_complete};
ghost use Rattle.hs_fold.specs.Shards.Catalogue.{apply as plain_apply};
ghost use Rattle.hs_fold.specs.Shards.Happening.{happen_by};
ghost use Rattle.hs_fold.specs.Shards.Setting.{Numbered, Setting, shard_in};

/// What lists of all kinds amount to is of its shard, in order, and retains no key twice; each entry
/// keeps it so, also where it makes no sense.
pub fn runs_keep_catalogues_own()
    ensures lists { (set : Setting) (lists : List Numbered) →
        AreOwn set.shape.shards 0 (catalogues set 0 lists) }
    ensures kept { (at : Shard) (c : Catalogue) (number : ℕ) (entry : Entry) →
        IsOwn at.shards at.shard c → IsOwn at.shards at.shard (apply at c (number, entry)) }
{}

/// The root records of what lists of all kinds amount to stand by key, and a retained one is the last
/// of its key; each entry keeps it so, also where it makes no sense.
pub fn runs_keep_roots_by_key()
    ensures lists { (at : Shard) (list : Numbered) → AreKeyed (catalogue_of at list).roots }
    ensures kept { (at : Shard) (c : Catalogue) (number : ℕ) (entry : Entry) →
        AreKeyed c.roots → AreKeyed (apply at c (number, entry)).roots }
{}

/// A client's entry does to a catalogue what it does without deletion.
pub fn clients_see_no_runs()
    ensures plain { (at : Shard) (c : Catalogue) (number : ℕ) (entry : Entry) →
        OneRetained (roots_of c.roots) → IsClients entry →
        plain (apply at c (number, entry)) ≡ plain_apply at (plain c) (number, entry) }
{}

/// A client's entry changes the store of all shards as what happens by it says, and so does an Enter
/// whose round 0 has not come from every shard yet, and a Got that completes no round: it does
/// nothing. What the end of a round does is no law of lists alone.
pub fn clients_and_enters_change_the_store()
    ensures client { (set : Setting) (cs : List Catalogue) (deed : Deed)
        → length cs ≡ set.shape.shards → deed.shard < set.shape.shards
        → AreOwn set.shape.shards 0 cs → IsClients deed.entry →
        store_of (follow set cs deed) ≡ happen_by (store_of cs)
        (happening_of (shard_in set deed.shard) (catalogue_at cs deed.shard) deed.entry) }
    ensures enter { (set : Setting) (cs : List Catalogue) (shard number op epoch : ℕ)
        → length cs ≡ set.shape.shards → shard < set.shape.shards → AreOwn set.shape.shards 0 cs
        → is_complete set.shape.shards
        (enter_epoch set.shape.shards (catalogue_at cs shard)) ≡ false →
        store_of (follow set cs (record {
          shard = shard;
          number = number;
          entry = kind.Enter op epoch;
        })) ≡ happen_by (store_of cs)
        (happening_of (shard_in set shard) (catalogue_at cs shard) (kind.Enter op epoch)) }
    ensures got { (set : Setting) (cs : List Catalogue) (shard number : ℕ)
        (place : Place) (told : RoundBody)
        → length cs ≡ set.shape.shards → shard < set.shape.shards
        → is_complete set.shape.shards (log_got place told (catalogue_at cs shard)) ≡ false →
        let got = kind.Got place.from place.epoch place.round told.total told.deltas in
        store_of (follow set cs (record { shard = shard; number = number; entry = got }))
        ≡ happen_by (store_of cs) (happening_of (shard_in set shard) (catalogue_at cs shard) got) }
{}

/// The end of a round that isn't the last of its run does nothing, where the roots that it releases
/// count in no epoch any more; that of the last is the shard's sweep, where the zero blocks that go
/// are those that the plain store's sweep takes. That this is so is no law of lists alone.
pub fn ends_of_rounds_change_the_store()
    ensures search { (set : Setting) (cs : List Catalogue) (shard : ℕ)
        → length cs ≡ set.shape.shards → shard < set.shape.shards → AreOwn set.shape.shards 0 cs
        → is_last set.shape.shards (catalogue_at cs shard) ≡ false → ReleasesLate cs shard →
        store_of (slice_set cs shard (end_round set.shape.shards (catalogue_at cs shard)))
        ≡ store_of cs }
    ensures sweep { (set : Setting) (cs : List Catalogue) (shard : ℕ)
        → length cs ≡ set.shape.shards → shard < set.shape.shards → AreOwn set.shape.shards 0 cs
        → is_last set.shape.shards (catalogue_at cs shard) ≡ true → TakesTheUnreached cs shard →
        store_of (slice_set cs shard (end_round set.shape.shards (catalogue_at cs shard)))
        ≡ sweep (store_of cs) shard }
{}

/// Rounds end one after another as long as the open one is complete. A round tells a shard of no more
/// addresses than a shard takes blocks, a shard has no more blocks than that, and no count leaves
/// 32 bits, whatever lists hold.
pub fn rounds_stay_within_bounds()
    ensures ended { (shards : ℕ) (c : Catalogue) → 0 < shards →
        is_complete shards (advanced shards c) ≡ false }
    ensures told { (shards total to : ℕ) (deltas : List Delta) →
        length (body_for shards total deltas to).deltas ≤ greatest_limits.blocks }
    ensures blocks { (at : Shard) (list : Numbered) →
        length (catalogue_of at list).blocks ≤ greatest_limits.blocks }
    ensures counts { (at : Shard) (list : Numbered) →
        All (λ e. e.1.count < 2 ^ 32) (catalogue_of at list).blocks }
{}
