//! The rows of the table of refusals: each check stops with one refusal, where it holds.
ghost use Rattle.std.specs.Prelude.{◌≡◌};
ghost use Rattle.hs_model.specs.Refusals.{no_such_handle, stale_handle, too_long, too_many};
ghost use Rattle.hs_model.specs.Store.{held_in};
ghost use Rattle.hs_ops.specs.Refusals.{all_open, epochs_end, is_busy, is_running, kept_otherwise, no_more_handles, no_room_for_block, no_room_for_root, not_held, not_kept, not_open, open_already, outdated};
ghost use Rattle.hs_ops.specs.Stops.{Stops};
ghost use Rattle.hs_ops.specs.Views.{now_in, open_in};

use crate::OpView;
use crate::stop::Stop;
use crate::view::number_at;
use hs_limits::{Address, Held, Key, MOST_BYTES, MOST_POINTERS, Name};
use hs_model::Reply;
use std::alloc::Global;

impl<'a> OpView<'a> {
    // ---- sessions

    /// NoSession where the session is not open.
    pub(crate) fn is_open(&self, alloc: Global, session: &Name) -> Result<(), Stop>
        ensures { Stops (not_open self.now session.now) result }
    {
        if self.sessions.next(session).is_some() {
            return Ok(());
        }
        let session = session.copy(alloc)?;
        Err(Stop::Refused(Reply::NoSession { session }))
    }

    /// SessionTaken where it is open.
    pub(crate) fn is_unused(&self, alloc: Global, session: &Name) -> Result<(), Stop>
        ensures { Stops (open_already self.now session.now) result }
    {
        if self.sessions.next(session).is_none() {
            return Ok(());
        }
        let session = session.copy(alloc)?;
        Err(Stop::Refused(Reply::SessionTaken { session }))
    }

    /// SessionsFull where as many as the limit are open.
    pub(crate) fn has_seat(&self) -> Result<(), Stop>
        ensures { Stops (all_open self.now) result }
    {
        let limit = self.limits.sessions;
        if self.sessions.len() >= limit {
            return Err(Stop::Refused(Reply::SessionsFull { limit }));
        }
        Ok(())
    }

    /// Busy where the session has an operation without an answer.
    pub(crate) fn is_free(&self) -> Result<(), Stop>
        ensures { Stops (is_busy self.now) result }
    {
        match self.busy {
            None => Ok(()),
            Some(line) => Err(Stop::Refused(Reply::Busy { line })),
        }
    }

    // ---- handles

    /// NoHandle for the first handle that the session does not hold.
    #[tactic(auto, using(crate::proofs::StopLemmas::held_stops, crate::proofs::StopLemmas::held_passes, crate::proofs::StopLemmas::held_ends))]
    pub(crate) fn holds_all(&self, session: &Name, handles: &[u32]) -> Result<(), Stop>
        ensures { Stops (not_held self.now session.now handles.now) result }
    {
        for handle in handles {
            self.holds(session, *handle)?;
        }
        Ok(())
    }

    /// NoHandle where the session does not hold the handle.
    fn holds(&self, session: &Name, handle: u32) -> Result<(), Stop>
        ensures { Stops (no_such_handle (open_in self.now session.now) handle) result }
    {
        if self.held(session, handle).is_none() {
            return Err(Stop::Refused(Reply::NoHandle { handle }));
        }
        Ok(())
    }

    /// HandlesFull where so many new handles would make more than the limit.
    pub(crate) fn has_handles(&self, session: &Name, more: usize) -> Result<(), Stop>
        ensures { Stops (no_more_handles self.now session.now more) result }
    {
        let limit = self.limits.handles;
        let held = self.sessions.held(session).unwrap_or(0);
        if (held as usize).saturating_add(more) > limit as usize {
            return Err(Stop::Refused(Reply::HandlesFull { limit }));
        }
        Ok(())
    }

    /// Stale for the first handle that may not be used any more.
    #[tactic(auto, using(crate::proofs::StopLemmas::fresh_stops, crate::proofs::StopLemmas::fresh_passes, crate::proofs::StopLemmas::fresh_ends))]
    pub(crate) fn are_fresh(&self, session: &Name, handles: &[u32]) -> Result<(), Stop>
        ensures { Stops (outdated self.now session.now handles.now) result }
    {
        let now = self.now();
        for handle in handles {
            is_fresh(now, *handle, self.held(session, *handle))?;
        }
        Ok(())
    }

    // ---- blocks and roots

    /// ShardFull where the block is absent and there is no room.
    pub(crate) fn has_block_room(&self) -> Result<(), Stop>
        ensures { Stops (no_room_for_block self.now) result }
    {
        if self.present.is_none() && !self.room {
            return Err(Stop::Refused(Reply::ShardFull {
                limit: self.limits.blocks,
            }));
        }
        Ok(())
    }

    /// NoKey where the key is not retained.
    pub(crate) fn is_kept(&self, alloc: Global, key: &Key) -> Result<(), Stop>
        ensures { Stops (not_kept self.now key.now) result }
    {
        if self.kept(key).is_some() {
            return Ok(());
        }
        let key = key.copy(alloc)?;
        Err(Stop::Refused(Reply::NoKey { key }))
    }

    /// KeyTaken where the key is retained with another address.
    pub(crate) fn may_keep(&self, alloc: Global, key: &Key, address: Address) -> Result<(), Stop>
        ensures { Stops (kept_otherwise self.now key.now address) result }
    {
        let Some(kept) = self.kept(key) else {
            return Ok(());
        };
        if kept == address {
            return Ok(());
        }
        let key = key.copy(alloc)?;
        Err(Stop::Refused(Reply::KeyTaken { key }))
    }

    /// RootsFull where the key is not retained and there is no room.
    pub(crate) fn has_root_room(&self, key: &Key) -> Result<(), Stop>
        ensures { Stops (no_room_for_root self.now key.now) result }
    {
        if self.kept(key).is_none() && !self.room {
            return Err(Stop::Refused(Reply::RootsFull {
                limit: self.limits.roots,
            }));
        }
        Ok(())
    }

    // ---- deletion runs

    /// Running where shard 0 has not swept its epoch.
    pub(crate) fn is_quiet(&self) -> Result<(), Stop>
        ensures { Stops (is_running self.now) result }
    {
        let epoch = number_at(self.epochs, 0);
        if number_at(self.swept, 0) < epoch {
            return Err(Stop::Refused(Reply::Running { epoch }));
        }
        Ok(())
    }

    /// EpochEnd where the epoch of shard 0 is the limit.
    pub(crate) fn has_epoch(&self) -> Result<(), Stop>
        ensures { Stops (epochs_end self.now) result }
    {
        let limit = self.limits.epochs;
        if number_at(self.epochs, 0) >= limit {
            return Err(Stop::Refused(Reply::EpochEnd { limit }));
        }
        Ok(())
    }
}

/// Stale where what a handle stands for was given more than one epoch before this one.
fn is_fresh(now: u64, handle: u32, held: Option<Held>) -> Result<(), Stop>
    ensures { Stops (stale_handle now handle held) result }
{
    let Some(held) = held else {
        return Ok(());
    };
    if now > held.epoch && now - held.epoch > 1 {
        return Err(Stop::Refused(Reply::Stale {
            handle,
            held: held.epoch,
            now,
        }));
    }
    Ok(())
}

/// TooLong where there are more bytes than a block takes.
pub(crate) fn is_short(payload: &[u8]) -> Result<(), Stop>
    ensures { Stops (too_long payload.now) result }
{
    if payload.len() > MOST_BYTES {
        return Err(Stop::Refused(Reply::TooLong {
            found: payload.len() as u64,
        }));
    }
    Ok(())
}

/// TooMany where there are more pointers than a block takes.
pub(crate) fn are_few(handles: &[u32]) -> Result<(), Stop>
    ensures { Stops (too_many handles.now) result }
{
    if handles.len() > MOST_POINTERS {
        return Err(Stop::Refused(Reply::TooMany {
            found: handles.len() as u64,
        }));
    }
    Ok(())
}
