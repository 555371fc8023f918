//! Who holds an address of the plain store.
ghost use Rattle.std.specs.Prelude.{◌≡◌, ◌↔◌, IsTrue, is_some};
ghost use Rattle.std.specs.List.{list_any};
ghost use Rattle.std.specs.Map.{keys_of};
ghost use Rattle.hs_model.specs.Deeds.{IsHeldFresh};
ghost use Rattle.hs_model.specs.Store.{block_at};
ghost use Rattle.hs_plain.specs.Deeds.{MayMark, MayRead, MayTake};
ghost use Rattle.hs_plain.specs.Holding.{some_has};

use super::MemoryStore;
use hs_limits::{Address, Held, Limits, Name};

impl MemoryStore {
    /// Whether a session may write a block that is absent, with some pointers, and a handle is its next.
    pub(super) fn may_take(
        &self,
        limits: Limits,
        session: &Name,
        address: &Address,
        pointers: &[Address],
        handle: u32,
    ) -> bool
        ensures { IsTrue result
            ↔ MayTake limits self.now session.now address.now pointers.now handle }
    {
        let Some(seat) = self.sessions.get(session) else {
            return false;
        };
        if self.is_present(address) {
            return false;
        }
        if self.is_shard_full(limits.blocks, address) {
            return false;
        }
        seat.may_take(limits, self.epoch_at(address), pointers, handle)
    }

    /// Whether a session may be given a block that is there, and a handle is its next.
    pub(super) fn may_mark(&self, session: &Name, address: &Address, handle: u32) -> bool
        ensures { IsTrue result ↔ MayMark self.now session.now address.now handle }
    {
        let Some(seat) = self.sessions.get(session) else {
            return false;
        };
        let Some(stored) = self.blocks.as_map().get(address) else {
            return false;
        };
        seat.may_mark(self.epoch_at(address), stored.pointers.as_slice(), handle)
    }

    /// Whether a session holds this, and it is fresh.
    pub(super) fn may_read(&self, session: &Name, held: &Held) -> bool
        ensures { IsTrue result ↔ MayRead self.now session.now held.now }
    {
        let Some(seat) = self.sessions.get(session) else {
            return false;
        };
        let now = self.epoch_at(&held.address);
        if now.saturating_sub(1) > held.epoch {
            return false;
        }
        seat.has_held(held)
    }

    /// Whether some open session holds an address, in an epoch that is fresh in another.
    pub(super) fn is_held_fresh(&self, now: u64, address: &Address) -> bool
        ensures { IsTrue result ↔ IsHeldFresh self.now now address.now }
    {
        self.some_has(now, address)
    }

    /// Whether a session is open that has it so.
    fn some_has(&self, now: u64, address: &Address) -> bool
        ensures { result
            ≡ list_any (λ name. some_has self.now now address.now name) (keys_of self.now.sessions) }
    {
        self.sessions
            .keys()
            .any(|name| self.has_fresh(name, now, address))
    }

    /// Whether one of this name is.
    fn has_fresh(&self, session: &Name, now: u64, address: &Address) -> bool
        ensures { result ≡ some_has self.now now address.now session.now }
    {
        match self.sessions.get(session) {
            Some(seat) => seat.has_fresh(now, address),
            None => false,
        }
    }

    /// Whether a block is present at an address.
    pub(super) fn is_present(&self, address: &Address) -> bool
        ensures { result ≡ is_some (block_at self.now address.now) }
    {
        self.blocks.as_map().contains_key(address)
    }
}
