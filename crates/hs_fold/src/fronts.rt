//! A front of a numbered list is a prefix of it.
ghost use Rattle.std.specs.Prelude.{◌↔◌};
ghost use Rattle.hs_entry.specs.Entries.{IsPrefix};
ghost use Rattle.hs_fold.specs.Catalogue.{Shard};
ghost use Rattle.hs_fold.specs.Prefix.{IsNumbered};
ghost use Rattle.hs_fold.specs.Runs.Catalogue.{catalogue_of as catalogue_with_runs};
ghost use Rattle.hs_fold.specs.Shards.Catalogue.{catalogue_of};
ghost use Rattle.hs_fold.specs.Shards.Prefix.{IsListPrefix};
ghost use Rattle.hs_fold.specs.Shards.Setting.{Numbered};

/// Of two lists without a Base whose entries are numbered 1, 2, 3 and on, one is a prefix of the other
/// exactly where the other begins with it; by what lists amount to without deletion,
/// and with it.
pub fn fronts_are_prefixes()
    ensures exact { (at : Shard) (front all : Numbered) → IsNumbered front → IsNumbered all →
        IsListPrefix (catalogue_of at) front all ↔ IsPrefix front all }
    ensures with_runs { (at : Shard) (front all : Numbered) → IsNumbered front → IsNumbered all →
        IsListPrefix (catalogue_with_runs at) front all ↔ IsPrefix front all }
{}
