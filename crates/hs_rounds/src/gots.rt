//! The Gots of the open round and of later ones.
ghost use Rattle.std.specs.Prelude.{[], ◌≡◌, ◌<◌, ◌^◌, IfOk, OnErr, OnOk, Some, cond, drop, false, is_some, length};
ghost use Rattle.std.specs.List.{list_any, range_with_len};
ghost use Rattle.std.specs.BTreeMap.{insert_entry, is_at};
ghost use Rattle.std.specs.Option.{option_copied};
ghost use Rattle.hs_rounds.specs.declared.place.Place.{Place};
ghost use Rattle.hs_rounds.specs.Rounds.{body_at, changes_in, changes_of, from_round, have_told, have_told_zero, is_before, is_zero_total, place_cmp, told_by};
ghost use Rattle.hs_rounds.specs.Steps.{starts_before};

use crate::{Place, RoundBody};
use hs_limits::Delta;
use std::alloc::{AllocError, Global};
use std::collections::BTreeMap;
use std::marker::Model;

/// What came, by epoch, round and sender.
#[derive(Drop)]
pub(crate) struct Gots {
    bodies: BTreeMap<Place, RoundBody>,
}

impl Model for Gots {
    ghost use Rattle.hs_rounds.specs.Rounds.{GotList};

    ghost Value = { GotList };

    ghost view = { λ a. a.bodies.entries };
}

impl Gots {
    /// Nothing. It takes no memory.
    pub(crate) fn new(alloc: Global) -> Gots
        ensures { result ≡ [] }
    {
        Gots {
            bodies: BTreeMap::new(alloc),
        }
    }

    /// What stands at a place. It takes no memory.
    pub(crate) fn get(&self, place: Place) -> Option<&RoundBody>
        ensures { option_copied result ≡ body_at place self.now }
    {
        self.bodies.get(&place)
    }

    /// Puts a Got at its place. Without memory nothing changes.
    pub(crate) fn insert(&mut self, place: Place, told: RoundBody) -> Result<(), AllocError>
        ensures ok { OnOk result (self.new ≡ insert_entry place_cmp self.old place told) }
        ensures found { OnOk result ((other : Place) → body_at other self.new
            ≡ cond (is_at (place_cmp place) other) (Some told) (body_at other self.old)) }
        ensures same { OnErr result (self.new ≡ self.old) }
    {
        match self.bodies.insert(place, told) {
            Ok(_) => Ok(()),
            Err(_) => Err(AllocError),
        }
    }

    /// Forgets what came for earlier rounds, at the cost of these alone. It takes no memory.
    pub(crate) fn forget_before(&mut self, epoch: u64, round: u64)
        ensures { self.new ≡ from_round epoch round self.old }
    {
        while self.starts_before(epoch, round) {
            self.forget_first();
        }
    }

    /// Whether a round has come from each of so many senders. It takes no memory.
    pub(crate) fn has_all(&self, shards: u8, epoch: u64, round: u32) -> bool
        ensures { result ≡ have_told shards epoch round self.now }
    {
        (0..shards).all(|from| self.get(Place { epoch, round, from }).is_some())
    }

    /// Whether a round has come from one of so many senders. It takes no memory.
    pub(crate) fn has_some(&self, shards: u8, epoch: u64, round: u32) -> bool
        ensures { result ≡ list_any (λ from. is_some (told_by epoch round self.now from))
            (range_with_len 0 shards) }
    {
        (0..shards).any(|from| self.get(Place { epoch, round, from }).is_some())
    }

    /// Whether a round has come from each of so many senders with a total of 0. It takes no memory.
    pub(crate) fn are_zero(&self, shards: u8, epoch: u64, round: u32) -> bool
        ensures { result ≡ have_told_zero shards epoch round self.now }
    {
        (0..shards).all(|from| is_zero_total(self.get(Place { epoch, round, from })))
    }

    /// The changes that came for a round from so many senders, sender by sender.
    pub(crate) fn changes(
        &self,
        alloc: Global,
        shards: u8,
        epoch: u64,
        round: u32,
    ) -> Result<Vec<Delta>, AllocError>
        ensures { IfOk result (λ changes.
            changes.items ≡ changes_of shards epoch round self.now) }
    {
        let mut changes = Vec::new(alloc);
        for from in 0..shards {
            changes.extend_from_slice(changes_in(self.get(Place { epoch, round, from })))?;
        }
        Ok(changes)
    }

    /// How many changes came for the round of a place from the senders below its own. It takes no
    /// memory.
    pub(crate) fn count_below(&self, place: Place) -> usize
        requires { length (changes_of place.from place.epoch place.round self.now) < 2 ^ 64 }
        ensures { result ≡ length (changes_of place.from place.epoch place.round self.now) }
    {
        let mut count = 0;
        for from in 0..place.from {
            count += changes_in(self.get(Place { from, ..place })).len();
        }
        count
    }

    /// Forgets the first Got. It takes no memory.
    fn forget_first(&mut self)
        ensures { self.new ≡ drop 1 self.old }
    {
        self.bodies.pop_first();
    }

    /// Whether the first Got is of an earlier round; if not, none is. It takes no memory.
    fn starts_before(&self, epoch: u64, round: u64) -> bool
        ensures value { result ≡ starts_before epoch round self.now }
        ensures none { result ≡ false → from_round epoch round self.now ≡ self.now }
    {
        match self.bodies.first_key_value() {
            Some((first, _)) => is_before(*first, epoch, round),
            None => false,
        }
    }
}

/// Whether a place is of an earlier epoch than this, or of an earlier round of it.
pub(crate) fn is_before(place: Place, epoch: u64, round: u64) -> bool
    ensures { result ≡ is_before epoch round place }
{
    place.epoch < epoch || (place.epoch == epoch && u64::from(place.round) < round)
}

/// Whether a total of 0 came.
fn is_zero_total(told: Option<&RoundBody>) -> bool
    ensures { result ≡ is_zero_total (option_copied told.entry) }
{
    match told {
        Some(body) => body.total == 0,
        None => false,
    }
}

/// The changes that came from a sender.
fn changes_in(told: Option<&RoundBody>) -> &[Delta]
    ensures { result.now ≡ changes_in (option_copied told.entry) }
{
    match told {
        Some(body) => body.deltas.as_slice(),
        None => &[],
    }
}
