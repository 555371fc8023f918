//! What stands in a lead's list and has not taken effect, as far as operations wait for it.
ghost use Rattle.std.specs.Prelude.{◌≡◌, ◌<◌, ◌^◌, count_by};
ghost use Rattle.std.specs.Option.{option_and_then};
ghost use Rattle.hs_awaiting.specs.Indexing.{passes, stores};
ghost use Rattle.hs_core_state.specs.Going.{has_room_by, holds_by, is_pending_by};
ghost use Rattle.hs_core_words.specs.Looking.{group_of, operation_of};
ghost use Rattle.hs_core_words.specs.Pending.{has_block_room, has_root_room, is_block, is_coming, is_root, named};
ghost use Rattle.hs_core_state.specs.Waking.{AreMet, stands};
ghost use Rattle.hs_members.specs.Members.{IsShard};
ghost use Rattle.hs_ops.specs.Speaking.{wanted_address};
ghost use Rattle.hs_waits.specs.Lines.{IsFirstFrom};

use crate::State;
use crate::aim::Aim;
use hs_awaiting::Wait;
use hs_entry::Entry;
use hs_limits::Address;
use hs_waits::Cause;

impl State {
    /// The address that the operation which asked for a Block is about. None of every other entry, or
    /// where none asked for it. It takes no memory.
    pub fn named(&self, entry: &Entry) -> Option<Address>
        ensures { result ≡ named entry.now self.now }
    {
        match entry {
            Entry::Block { op, .. } => self.address_at(*op),
            Entry::View { .. }
            | Entry::Mark { .. }
            | Entry::Root { .. }
            | Entry::Drop { .. }
            | Entry::Enter { .. }
            | Entry::Got { .. }
            | Entry::Base { .. }
            | Entry::KeptBlock { .. }
            | Entry::KeptRoot { .. }
            | Entry::KeptRound { .. } => None,
        }
    }

    /// The address of the block that the operation of a line writes or reads. It takes no memory.
    fn address_at(&self, line: u64) -> Option<Address>
        ensures { result ≡ option_and_then (λ w. wanted_address self.now.sessions w.operation.op)
            (operation_of line self.now) }
    {
        match self.operations.get(line) {
            Some(waiting) => waiting.operation.address(&self.sessions),
            None => None,
        }
    }

    /// For what an operation waits: the current view's View, the Block of its address, or room. It
    /// takes no memory.
    pub fn holds_by(&self, aim: Aim) -> Wait
        requires { IsShard self.now.members.shape aim.shard }
        ensures { result ≡ holds_by aim self.now }
    {
        if !self.viewed[usize::from(aim.shard)] {
            return Wait::View;
        }
        if self.is_coming(aim.shard, aim.address) {
            return Wait::Address;
        }
        Wait::Room
    }

    /// Whether an entry that has not taken effect has the operation's address, or takes its room. It
    /// takes no memory.
    pub(crate) fn is_pending_by(&self, aim: Aim) -> bool
        requires { IsShard self.now.members.shape aim.shard }
        ensures { result ≡ is_pending_by aim self.now }
    {
        if aim.writes {
            return self.is_coming(aim.shard, aim.address)
                || !self.has_block_room(aim.shard, self.blocks_coming(aim.shard));
        }
        aim.roots && !self.has_root_room(aim.shard, self.roots_coming(aim.shard))
    }

    /// Whether there is room for the operation. It takes no memory.
    pub(crate) fn has_room_by(&self, aim: Aim) -> bool
        requires { IsShard self.now.members.shape aim.shard }
        ensures { result ≡ has_room_by aim self.now }
    {
        if aim.roots {
            return self.has_root_room(aim.shard, 0);
        }
        self.has_block_room(aim.shard, 0)
    }

    /// Whether a shard is below its limit of blocks with so many more. It takes no memory.
    fn has_block_room(&self, shard: u8, more: u64) -> bool
        requires { IsShard self.now.members.shape shard }
        ensures { result ≡ has_block_room shard more self.now }
    {
        let count = u64::from(self.catalogue(shard).count());
        count.saturating_add(more) < u64::from(self.limits.blocks)
    }

    /// Whether a shard is below its limit of roots with so many more. It takes no memory.
    fn has_root_room(&self, shard: u8, more: u64) -> bool
        requires { IsShard self.now.members.shape shard }
        ensures { result ≡ has_root_room shard more self.now }
    {
        let count = u64::from(self.catalogue(shard).roots().retained());
        count.saturating_add(more) < u64::from(self.limits.roots)
    }

    // ---- what is coming

    /// Whether a Block of this address has not taken effect. It takes no memory.
    fn is_coming(&self, shard: u8, address: Option<Address>) -> bool
        requires { IsShard self.now.members.shape shard }
        ensures { result ≡ is_coming shard address self.now }
    {
        let Some(address) = address else {
            return false;
        };
        let write = self.met(shard, Cause::Block { shard: 0, address });
        write.is_some()
    }

    /// A line of an operation whose Block stores this and has not taken effect. None exactly where
    /// there is none. It goes from a line of the ones to the next of the others. It takes no memory.
    fn met(&self, shard: u8, what: Cause) -> Option<u64>
        requires { IsShard self.now.members.shape shard }
        ensures { AreMet what (group_of shard self.now).waiting self.now.operations result }
    {
        let mut from = 0;
        while let Some(block) = self.next_coming(shard, from) {
            let Some(line) = self.next_storing(what, block) else {
                return None;
            };
            if line == block {
                return Some(line);
            }
            from = bounded(line);
        }
        None
    }

    /// The first line from this one on of which a Block has not taken effect. None exactly where there
    /// is none. It takes no memory.
    fn next_coming(&self, shard: u8, from: u64) -> Option<u64>
        requires { IsShard self.now.members.shape shard }
        ensures { IsFirstFrom from (stands (group_of shard self.now).waiting) result }
    {
        self.group(shard).first_block(from)
    }

    /// The first line from this one on of an operation whose Block stores this. None exactly where
    /// there is none. It takes no memory.
    fn next_storing(&self, what: Cause, from: u64) -> Option<u64>
        ensures { IsFirstFrom from (passes (stores what) self.now.operations) result }
    {
        self.operations.first_storing(what, from)
    }

    /// How many Blocks have not taken effect.
    fn blocks_coming(&self, shard: u8) -> u64
        requires { IsShard self.now.members.shape shard }
        ensures { result ≡ count_by is_block (group_of shard self.now).waiting }
    {
        self.group(shard).blocks_waiting()
    }

    /// How many Roots have not taken effect.
    fn roots_coming(&self, shard: u8) -> u64
        requires { IsShard self.now.members.shape shard }
        ensures { result ≡ count_by is_root (group_of shard self.now).waiting }
    {
        self.group(shard).roots_waiting()
    }
}

/// A line, which is below the greatest number.
fn bounded(line: u64) -> u64
    ensures value { result ≡ line }
    ensures fits { line < 2 ^ 64 }
{
    line
}
