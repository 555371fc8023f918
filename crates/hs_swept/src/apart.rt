//! Stores in which no address stands for two blocks.
ghost use Rattle.std.specs.Prelude.{List};
ghost use Rattle.hs_answered.specs.Standing.{store_with};
ghost use Rattle.hs_fold.specs.Runs.Facts.{Catalogue as Folded};
ghost use Rattle.hs_laws.specs.Distinct.{HasDistinctAddresses};
ghost use Rattle.hs_tokens.specs.Seats.{Seats};

/// The store that any folds make, with any open sessions, has distinct addresses: so has the store
/// with which a core opens.
pub fn folded_stores_have_distinct_addresses()
    ensures { (cs : List Folded) (seats : Seats) → HasDistinctAddresses (store_with cs seats) }
{}
