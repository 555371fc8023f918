//! How often each place was counted.
ghost use Rattle.std.specs.Prelude.{[], ◌≡◌, ◌+◌, ◌<◌, OnErr, OnOk, Some};
ghost use Rattle.hs_replica.specs.Counting.{Differs, count_at, once};
ghost use Rattle.hs_rounds.specs.declared.place.Place.{Place};

use hs_rounds::Place;
use std::alloc::{AllocError, Global};
use std::collections::BTreeMap;
use std::marker::Model;

/// How often each place was counted.
#[derive(Debug, Drop)]
pub struct Tally {
    counts: BTreeMap<Place, u64>,
}

impl Model for Tally {
    ghost use Rattle.std.specs.Prelude.{List, ℕ};
    ghost use Rattle.hs_rounds.specs.declared.place.Place.{Place};

    ghost Value = { List (Place × ℕ) };

    ghost view = { λ a. a.counts.entries };
}

impl Tally {
    /// Nothing was counted. It takes no memory.
    pub(crate) fn new(alloc: Global) -> Tally
        ensures { result ≡ [] }
    {
        Tally {
            counts: BTreeMap::new(alloc),
        }
    }

    /// How often a place was counted. It takes no memory.
    pub(crate) fn count(&self, place: Place) -> u64
        ensures { result ≡ count_at self.now place }
    {
        match self.counts.get(&place) {
            Some(count) => *count,
            None => 0,
        }
    }

    /// Counts a place once more. Without memory nothing changes.
    pub(crate) fn add(&mut self, place: Place) -> Result<(), AllocError>
        ensures ok { OnOk result ((other : Place) →
            count_at self.new other ≡ once place other + count_at self.old other) }
        ensures same { OnErr result (self.new ≡ self.old) }
    {
        let Some(count) = self.count(place).checked_add(1) else {
            return Err(AllocError);
        };
        let Ok(_before) = self.counts.insert(place, count) else {
            return Err(AllocError);
        };
        Ok(())
    }

    /// Counts a place once less, where it was counted. It takes no memory.
    pub(crate) fn remove(&mut self, place: Place)
        ensures { 0 < count_at self.old place → (other : Place) →
            count_at self.old other ≡ once place other + count_at self.new other }
    {
        let count = self.count(place);
        if count <= 1 {
            self.counts.remove(&place);
        } else {
            self.lower(place, count - 1);
        }
    }

    /// Sets how often a place was counted, where it was. It takes no memory.
    fn lower(&mut self, place: Place, count: u64)
        ensures { 0 < count_at self.old place → Differs place (Some count) self.old self.new }
    {
        let Ok(_before) = self.counts.insert(place, count) else {
            return;
        };
    }
}
