//! What an operation speaks of.
ghost use Rattle.std.specs.Prelude.{◌≡◌};
ghost use Rattle.std.specs.Option.{option_copied, option_map};
ghost use Rattle.hs_limits.specs.Shape.{IsShape};
ghost use Rattle.hs_model.specs.Op.{named_key, session_of};
ghost use Rattle.hs_ops.specs.Speaking.{judging_shard, wanted_address};
ghost use Rattle.hs_tokens.specs.Seats.{Seats, held_at, seat_of};

use crate::Operation;
use hs_limits::{Address, Key, Name, Shape, shard_of, shard_of_key};
use hs_model::Op;
use hs_tokens::Sessions;

impl Operation {
    /// The session that asks. None where it is of no session.
    pub fn session(&self) -> Option<&Name>
        ensures { option_copied result ≡ session_of self.now.op }
    {
        self.op().session()
    }

    /// The key that it names. None where it names none.
    pub fn key(&self) -> Option<&Key>
        ensures { option_copied result ≡ named_key self.now.op }
    {
        self.op().key()
    }

    /// The address of the block that it writes or reads. None where it does neither, or where a
    /// read's handle is not held.
    pub fn address(&self, sessions: &Sessions) -> Option<Address>
        ensures { result ≡ wanted_address sessions.now.seats self.now.op }
    {
        match self.op() {
            Op::Open { .. } => None,
            Op::Close { .. } => None,
            Op::Write { address, .. } => *address,
            Op::Read { session, handle } => held_address(sessions, session, *handle),
            Op::Look { .. } => None,
            Op::Root { .. } => None,
            Op::Drop { .. } => None,
            Op::Forget { .. } => None,
            Op::Name { .. } => None,
            Op::Delete => None,
            Op::Stat => None,
        }
    }

    /// The shard that judges it: that of its key, else that of its block, else shard 0.
    pub fn shard(&self, sessions: &Sessions, shape: Shape) -> u8
        requires { IsShape shape }
        ensures { result ≡ judging_shard shape.shards sessions.now.seats self.now.op }
    {
        self.shard_for(self.address(sessions), shape)
    }

    /// The shard that judges it, where this is the address of the block that it writes or reads.
    pub fn shard_for(&self, address: Option<Address>, shape: Shape) -> u8
        requires { IsShape shape }
        ensures { (seats : Seats) → address ≡ wanted_address seats self.now.op
            → result ≡ judging_shard shape.shards seats self.now.op }
    {
        if let Some(key) = self.key() {
            return shard_of_key(key, shape);
        }
        match address {
            Some(address) => shard_of(&address, shape),
            None => 0,
        }
    }
}

/// The address that a handle of a session stands for.
fn held_address(sessions: &Sessions, session: &Name, handle: u32) -> Option<Address>
    ensures { result
        ≡ option_map (λ held. held.address) (held_at (seat_of session.now sessions.now.seats) handle) }
{
    match sessions.find(session, handle) {
        Ok(held) => Some(held.address),
        Err(_) => None,
    }
}
