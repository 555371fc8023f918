//! The replies of operations that are not refused.
ghost use Rattle.std.specs.Prelude.{◌≡◌, [], length, Some, IfOk};
ghost use Rattle.std.specs.List.{range_with_len};
ghost use Rattle.std.specs.Option.{option_map};
ghost use Rattle.hs_model.specs.declared.reply.Reply.TheVariants as reply;
ghost use Rattle.hs_model.specs.Judge.{written_reply};
ghost use Rattle.hs_model.specs.Store.{next_of};
ghost use Rattle.hs_ops.specs.Going.{read_reply};
ghost use Rattle.hs_ops.specs.Views.{kept_in, now_in, open_in};
ghost use Rattle.hs_tokens.specs.Seats.{found};

use crate::{OpFault, OpView};
use hs_limits::{Key, ListOf, Name};
use hs_model::Reply;
use hs_shared::SharedBytes;
use std::alloc::Global;

impl<'a> OpView<'a> {
    /// A look-up's: the next handle, in the epoch of the shard that judges.
    pub(crate) fn held_reply(&self, session: &Name) -> Reply
        ensures { result ≡ reply.Held (next_of (open_in self.now session.now)) (now_in self.now) }
    {
        Reply::Held {
            handle: self.next(session),
            epoch: self.now(),
        }
    }

    /// A name's: the address that a handle stands for.
    pub(crate) fn name_reply(&self, session: &Name, handle: u32) -> Reply
        ensures { result ≡ reply.Name (found self.now.seats session.now handle).address }
    {
        Reply::Name {
            address: self.found(session, handle).address,
        }
    }

    /// A root's, where its key is retained already.
    pub(crate) fn kept_reply(&self, key: &Key) -> Option<Reply>
        ensures { result ≡ option_map (λ root. reply.Ok) (kept_in self.now key.now) }
    {
        match self.kept(key) {
            Some(_) => Some(Reply::Ok),
            None => None,
        }
    }

    /// What is counted.
    pub(crate) fn stat_reply(&self, alloc: Global) -> Result<Option<Reply>, OpFault>
        ensures { IfOk result (λ told. told ≡ Some (reply.Stat self.now.blocks self.now.retained
            (length self.now.seats) self.now.epochs self.now.swept)) }
    {
        let epochs = ListOf::from_vec(Vec::from_slice(alloc, self.epochs)?);
        let swept = ListOf::from_vec(Vec::from_slice(alloc, self.swept)?);
        Ok(Some(Reply::Stat {
            blocks: self.blocks,
            roots: self.retained,
            sessions: self.sessions.len(),
            epochs,
            swept,
        }))
    }

    /// A read's: the data, and a handle for each pointer of the block.
    pub(crate) fn read_reply(
        &self,
        alloc: Global,
        session: &Name,
        bytes: SharedBytes,
    ) -> Result<Reply, OpFault>
        ensures { IfOk result (λ told. told ≡ read_reply self.now session.now bytes) }
    {
        let handles = numbers_from(alloc, self.next(session), self.pointers)?;
        Ok(Reply::Bytes { bytes, handles })
    }

    /// A write's: the next handle, in the epoch of the shard that judges.
    pub(crate) fn given_reply(&self, dup: bool, session: &Name) -> Reply
        ensures { result ≡ written_reply dup (next_of (open_in self.now session.now)) (now_in self.now) }
    {
        let handle = self.next(session);
        let epoch = self.now();
        if dup {
            return Reply::Dup { handle, epoch };
        }
        Reply::New { handle, epoch }
    }
}

/// The data of a block that is not there: none.
pub(crate) fn no_data(alloc: Global) -> Result<SharedBytes, OpFault>
    ensures { IfOk result (λ bytes. bytes ≡ []) }
{
    Ok(SharedBytes::from_vec(alloc, Vec::new(alloc))?)
}

/// So many numbers from a first one on. A number that is none of a handle counts as want of memory.
#[tactic(auto, using(crate::proofs::RangeLemmas::range_one_more))]
fn numbers_from(alloc: Global, first: u32, count: usize) -> Result<ListOf<u32>, OpFault>
    ensures { IfOk result (λ numbers. numbers ≡ range_with_len first count) }
{
    let mut numbers = ListOf::new(alloc);
    let mut number = first;
    for _ in 0..count {
        numbers.push(number)?;
        let Some(next) = number.checked_add(1) else {
            return Err(OpFault::NoMemory);
        };
        number = next;
    }
    Ok(numbers)
}
