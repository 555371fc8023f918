//! What an operation sees of the store.
ghost use Rattle.std.specs.Prelude.{◌≡◌, slice_index};
ghost use Rattle.std.specs.Option.{option_map};
ghost use Rattle.hs_model.specs.Store.{held_in, next_of};
ghost use Rattle.hs_ops.specs.Answers.{root_address};
ghost use Rattle.hs_ops.specs.Views.{kept_in, now_in, open_in};
ghost use Rattle.hs_tokens.specs.Seats.{found, nothing};

use hs_limits::{Address, Held, Key, Limits, Name};
use hs_roots::RootSet;
use hs_tokens::SessionsView;
use std::marker::Model;

/// What has taken effect, as an operation sees it. It is made for one operation and one call.
#[derive(Drop)]
pub struct OpView<'a> {
    /// The open sessions; that of the operation is to be at hand, so that it is looked up once.
    pub sessions: SessionsView<'a>,
    /// The roots of the shard that judges; they may be left out where the operation has no key.
    pub roots: Option<&'a RootSet>,
    /// The retained roots of all shards.
    pub retained: u64,
    /// The present blocks of all shards.
    pub blocks: u64,
    /// The epoch of each shard.
    pub epochs: &'a [u64],
    /// The epoch that each shard has swept last.
    pub swept: &'a [u64],
    pub limits: Limits,
    /// The shard that judges the operation.
    pub shard: u8,
    /// The number of the entry that stored the block which it writes or reads. None where the block
    /// is absent.
    pub present: Option<u64>,
    /// The number of that block's pointers, 0 where it is absent.
    pub pointers: usize,
    /// Whether the shard is below the limit of blocks; for a root, of roots.
    pub room: bool,
    /// Whether an entry of the lead's list that has not taken effect has the write's address, or
    /// takes the room of a write or a root.
    pub pending: bool,
    /// Whether the View of the current view has taken effect.
    pub viewed: bool,
    /// The line of the session's other operation that has no answer. None where it has none.
    pub busy: Option<u64>,
}

impl<'a> Model for OpView<'a> {
    ghost use Rattle.std.specs.Prelude.{[]};
    ghost use Rattle.std.specs.Option.{option_map_or};
    ghost use Rattle.hs_ops.specs.Views.{OpView};

    ghost Value = { OpView };

    ghost view = { λ a. record {
      limits = a.limits;
      seats = a.sessions;
      roots = option_map_or (λ set. set.now.roots) a.roots [];
      retained = a.retained;
      blocks = a.blocks;
      epochs = a.epochs.now;
      swept = a.swept.now;
      shard = a.shard;
      present = a.present;
      pointers = a.pointers;
      room = a.room;
      pending = a.pending;
      viewed = a.viewed;
      busy = a.busy;
    } };
}

impl<'a> OpView<'a> {
    /// The epoch of the shard that judges.
    pub(crate) fn now(&self) -> u64
        ensures { result ≡ now_in self.now }
    {
        number_at(self.epochs, usize::from(self.shard))
    }

    /// What a handle of a session stands for.
    pub(crate) fn held(&self, session: &Name, handle: u32) -> Option<Held>
        ensures { result ≡ held_in (open_in self.now session.now) handle }
    {
        self.sessions.find(session, handle).ok()
    }

    /// What a handle of a session stands for, and the zero address in epoch 0 where it is not held.
    pub(crate) fn found(&self, session: &Name, handle: u32) -> Held
        ensures { result ≡ found self.now.seats session.now handle }
    {
        found_in(&self.sessions, session, handle)
    }

    /// The next handle number of a session, 0 where it is not open.
    pub(crate) fn next(&self, session: &Name) -> u32
        ensures { result ≡ next_of (open_in self.now session.now) }
    {
        self.sessions.next(session).unwrap_or(0)
    }

    /// The address that a key retains.
    pub(crate) fn kept(&self, key: &Key) -> Option<Address>
        ensures { result ≡ option_map (λ root. root.address) (kept_in self.now key.now) }
    {
        self.roots?.look(key)
    }

    /// The address that a key retains, and the zero address where it retains none.
    pub(crate) fn root_address(&self, key: &Key) -> Address
        ensures { result ≡ root_address (kept_in self.now key.now) }
    {
        self.kept(key).unwrap_or(nothing().address)
    }
}

/// The number at a place of a list, 0 where there is none.
pub(crate) fn number_at(numbers: &[u64], place: usize) -> u64
    ensures { result ≡ slice_index numbers.now place }
{
    numbers.get(place).copied().unwrap_or(0)
}

/// What a handle of a session stands for, and the zero address in epoch 0 where it is not held.
pub(crate) fn found_in(sessions: &SessionsView, session: &Name, handle: u32) -> Held
    ensures { result ≡ found sessions.now session.now handle }
{
    sessions.find(session, handle).unwrap_or(nothing())
}

/// What stands for what is not held.
pub(crate) fn nothing() -> Held
    ensures { result ≡ nothing }
{
    Held {
        address: Address([0; 32]),
        epoch: 0,
    }
}
