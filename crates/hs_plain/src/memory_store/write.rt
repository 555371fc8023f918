//! Writing a block into the plain store.
ghost use Rattle.std.specs.Prelude.{◌≡◌, ◌∷◌, [], map, IfOk, OnOk, is_some, nat_le};
ghost use Rattle.hs_limits.specs.Block.{Block};
ghost use Rattle.hs_model.specs.declared.op.Op.TheVariants.{Write};
ghost use Rattle.hs_model.specs.declared.op.Op.{Op};
ghost use Rattle.hs_plain.specs.Checked.{IsChecked};
ghost use Rattle.hs_model.specs.Deeds.{is_too_long};
ghost use Rattle.hs_model.specs.Judge.{judge, refusals, address_of, given_address, wrote, written_reply, written_deed};
ghost use Rattle.hs_model.specs.Refusals.{first, collision, shard_full, is_block, no_session, too_many, no_handle, handles_full, stale};
ghost use Rattle.hs_model.specs.Store.{session_at, block_at, blocks_in, shard_at, epoch_at, next_of, hold_all, with_block};

use super::{MemoryStore, nothing};
use crate::Answer;
use hs_limits::{Address, Held, Limits, ListOf, Name, shard_of};
use hs_model::{Asked, Deed, ModelFault, Reply, StoredBlock};

/// Whether a write is taken: its refusal, or else the addresses that its handles stand for.
#[derive(Drop)]
enum Checked {
    Refused(Reply),
    Taken(ListOf<Address>),
}

impl MemoryStore {
    /// Writes a block.
    pub(super) fn write(
        &mut self,
        limits: Limits,
        session: Name,
        payload: ListOf<u8>,
        handles: ListOf<u32>,
        address: Option<Address>,
    ) -> Result<Answer, ModelFault>
        ensures reply { IfOk result (λ answer. answer.reply
            ≡ (judge limits self.old (Write session payload handles address)).reply) }
        ensures deed { IfOk result (λ answer. answer.deed
            ≡ (judge limits self.old (Write session payload handles address)).deed) }
        ensures store { OnOk result
            (self.new ≡ (judge limits self.old (Write session payload handles address)).store) }
    {
        let place = given_address(address);
        match self.checked(limits, &session, &payload, &handles, address)? {
            Checked::Refused(refusal) => Ok(Answer::refused(
                refusal,
                Asked::Write {
                    session,
                    length: payload.len() as u64,
                    handles,
                    address,
                },
            )),
            Checked::Taken(pointers) => self.grant_write(session, place, pointers, payload),
        }
    }

    /// Whether a write is taken.
    fn checked(
        &self,
        limits: Limits,
        session: &Name,
        payload: &ListOf<u8>,
        handles: &ListOf<u32>,
        address: Option<Address>,
    ) -> Result<Checked, ModelFault>
        ensures { let op : Op = Write session.now payload.now handles.now address in
            IfOk result
            (IsChecked self.now session.now handles.now (first (refusals limits self.now op))) }
    {
        let place = given_address(address);
        let payload = payload.as_slice();
        let handles = handles.as_slice();
        let length = payload.len() as u64;
        if let Some(refusal) = self.write_refusal(limits, session, length, handles, &place)? {
            return Ok(Checked::Refused(refusal));
        }
        let pointers = self.addresses(session, handles)?;
        if let Some(refusal) = self.block_refusal(limits, &place, pointers.as_slice(), payload) {
            return Ok(Checked::Refused(refusal));
        }
        Ok(Checked::Taken(pointers))
    }

    /// Why a session takes no write of so many bytes, if it does not.
    pub(super) fn write_refusal(
        &self,
        limits: Limits,
        session: &Name,
        length: u64,
        handles: &[u32],
        address: &Address,
    ) -> Result<Option<Reply>, ModelFault>
        ensures { IfOk result
            (λ refusal. refusal
            ≡ first (no_session self.now session.now
            ∷ is_too_long length
            ∷ too_many handles.now
            ∷ no_handle self.now session.now handles.now
            ∷ handles_full limits self.now session.now 1
            ∷ stale self.now session.now (epoch_at self.now address.now) handles.now
            ∷ [])) }
    {
        let Some(seat) = self.sessions.get(session) else {
            return Ok(Some(Reply::NoSession {
                session: session.copy(self.alloc)?,
            }));
        };
        Ok(seat.write_refusal(limits, self.epoch_at(address), length, handles))
    }

    /// The addresses that some handles stand for.
    fn addresses(&self, session: &Name, handles: &[u32]) -> Result<ListOf<Address>, ModelFault>
        ensures { IfOk result
            (λ addresses. addresses ≡ map (λ handle. address_of self.now session.now handle) handles.now) }
    {
        let mut addresses = ListOf::new(self.alloc);
        for handle in handles {
            addresses.push(self.held_or(session, *handle).address)?;
        }
        Ok(addresses)
    }

    /// Why a block is not taken, if it is not.
    fn block_refusal(
        &self,
        limits: Limits,
        address: &Address,
        pointers: &[Address],
        bytes: &[u8],
    ) -> Option<Reply>
        ensures { let block : Block = record { pointers = pointers.now; bytes = bytes.now } in
            result
            ≡ first (collision self.now address.now block
            ∷ shard_full limits self.now address.now
            ∷ []) }
    {
        if let Some(stored) = self.blocks.as_map().get(address) {
            if is_block(stored, pointers, bytes) {
                return None;
            }
            return Some(Reply::Collision);
        }
        if self.is_shard_full(limits.blocks, address) {
            return Some(Reply::ShardFull {
                limit: limits.blocks,
            });
        }
        None
    }

    /// Whether as many blocks as the limit are present in the shard of an address.
    pub(super) fn is_shard_full(&self, limit: u32, address: &Address) -> bool
        ensures { result ≡ nat_le limit (blocks_in self.now (shard_at self.now address.now)) }
    {
        let shard = shard_of(address, self.shape);
        self.blocks.count_in(shard) >= limit as usize
    }

    /// Does what a write does that is not refused.
    pub(super) fn grant_write(
        &mut self,
        session: Name,
        address: Address,
        pointers: ListOf<Address>,
        bytes: ListOf<u8>,
    ) -> Result<Answer, ModelFault>
        ensures reply { let block : Block = record { pointers = pointers; bytes = bytes } in
            IfOk result (λ answer. answer.reply ≡ (wrote self.old session address block).reply) }
        ensures deed { let block : Block = record { pointers = pointers; bytes = bytes } in
            IfOk result (λ answer. answer.deed ≡ (wrote self.old session address block).deed) }
        ensures store { let block : Block = record { pointers = pointers; bytes = bytes } in
            OnOk result (self.new ≡ (wrote self.old session address block).store) }
    {
        let epoch = self.epoch_at(&address);
        let told = pointers.copy(self.alloc)?;
        let present = self.add(address, pointers, bytes)?;
        let handle = self.hold(&session, Held { address, epoch })?;
        Ok(written(present, session, address, told, handle, epoch))
    }

    /// Adds a block in its shard's epoch, unless one is there already, and counts it as given.
    pub fn add(
        &mut self,
        address: Address,
        pointers: ListOf<Address>,
        bytes: ListOf<u8>,
    ) -> Result<bool, ModelFault>
        ensures present { IfOk result (λ present. present ≡ is_some (block_at self.old address)) }
        ensures store { OnOk result
            (self.new ≡ with_block self.old address (record { pointers = pointers; bytes = bytes })) }
    {
        let born = self.epoch_at(&address);
        let stored = StoredBlock {
            pointers,
            bytes,
            born,
        };
        let present = self.blocks.add(address, stored)?;
        self.given.insert(address, born)?;
        Ok(present)
    }

    /// A session holds one address more, under its next number.
    pub(super) fn hold(&mut self, session: &Name, held: Held) -> Result<u32, ModelFault>
        ensures number { IfOk result (λ handle. handle ≡ next_of (session_at self.old session.now)) }
        ensures store { OnOk result (self.new ≡ hold_all self.old session.now (held ∷ [])) }
    {
        let Some(seat) = self.sessions.get_mut(session) else {
            return Ok(0);
        };
        Ok(seat.hold(held)?)
    }
}

/// The address that a write was given.
pub(super) fn given_address(address: Option<Address>) -> Address
    ensures { result ≡ given_address address }
{
    address.unwrap_or(nothing().address)
}

/// Whether a stored block has these pointers and bytes.
fn is_block(stored: &StoredBlock, pointers: &[Address], bytes: &[u8]) -> bool
    ensures { result ≡ is_block stored.now (record { pointers = pointers.now; bytes = bytes.now }) }
{
    stored.pointers.as_slice() == pointers && stored.bytes.as_slice() == bytes
}

/// The answer to a write that was taken.
fn written(
    present: bool,
    session: Name,
    address: Address,
    pointers: ListOf<Address>,
    handle: u32,
    epoch: u64,
) -> Answer
    ensures reply { result.reply ≡ written_reply present handle epoch }
    ensures deed { result.deed ≡ written_deed present session address pointers handle }
{
    if present {
        return Answer {
            reply: Reply::Dup { handle, epoch },
            deed: Deed::Marked {
                session,
                address,
                handle,
            },
        };
    }
    Answer {
        reply: Reply::New { handle, epoch },
        deed: Deed::Wrote {
            session,
            address,
            pointers,
            handle,
        },
    }
}
