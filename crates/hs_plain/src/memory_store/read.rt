//! Reading a block of the plain store.
ghost use Rattle.std.specs.Prelude.{◌≡◌, IsSome, IfOk, OnOk, length};
ghost use Rattle.std.specs.List.{range_with_len};
ghost use Rattle.hs_model.specs.declared.op.Op.TheVariants.{Read};
ghost use Rattle.hs_model.specs.Judge.{judge, refusals, read, bytes_of};
ghost use Rattle.hs_model.specs.Reach.{pointers_of};
ghost use Rattle.hs_model.specs.Refusals.{first};
ghost use Rattle.hs_model.specs.Store.{session_at, block_at, next_of, hold_all, helds_of};

use super::MemoryStore;
use crate::Answer;
use hs_limits::{Address, Held, Limits, ListOf, Name};
use hs_model::{Asked, Deed, ModelFault, Reply};
use hs_shared::SharedBytes;

impl MemoryStore {
    /// Reads a block.
    pub(super) fn read(
        &mut self,
        limits: Limits,
        session: Name,
        handle: u32,
    ) -> Result<Answer, ModelFault>
        ensures reply { IfOk result
            (λ answer. answer.reply ≡ (judge limits self.old (Read session handle)).reply) }
        ensures deed { IfOk result
            (λ answer. answer.deed ≡ (judge limits self.old (Read session handle)).deed) }
        ensures store { OnOk result (self.new ≡ (judge limits self.old (Read session handle)).store) }
    {
        if let Some(refusal) = self.read_refusal(limits, &session, handle)? {
            return Ok(Answer::refused(refusal, Asked::Read { session, handle }));
        }
        let held = self.held_or(&session, handle);
        self.grant_read(session, held)
    }

    /// Why a session takes no read, if it does not.
    #[tactic(auto, unfolding(hs_model::specs::Judge::refusals))]
    pub(super) fn read_refusal(
        &self,
        limits: Limits,
        session: &Name,
        handle: u32,
    ) -> Result<Option<Reply>, ModelFault>
        ensures { IfOk result
            (λ refusal. refusal ≡ first (refusals limits self.now (Read session.now handle))) }
    {
        let Some(seat) = self.sessions.get(session) else {
            return Ok(Some(Reply::NoSession {
                session: session.copy(self.alloc)?,
            }));
        };
        let held = self.held_or(session, handle);
        let now = self.epoch_at(&held.address);
        let more = self.pointer_count(&held.address);
        Ok(seat.read_refusal(limits, now, handle, more))
    }

    /// How many pointers a block has, if it is present.
    fn pointer_count(&self, address: &Address) -> usize
        ensures { result ≡ length (pointers_of (block_at self.now address.now)) }
    {
        let Some(stored) = self.blocks.as_map().get(address) else {
            return 0;
        };
        stored.pointers.len()
    }

    /// Does what a read does that is not refused.
    pub(super) fn grant_read(&mut self, session: Name, held: Held) -> Result<Answer, ModelFault>
        requires { IsSome (session_at self.old session) }
        ensures reply { IfOk result (λ answer. answer.reply ≡ (read self.old session held).reply) }
        ensures deed { IfOk result (λ answer. answer.deed ≡ (read self.old session held).deed) }
        ensures store { OnOk result (self.new ≡ (read self.old session held).store) }
    {
        let bytes = self.bytes_at(&held.address)?;
        let pointers = self.pointers_at(&held.address)?;
        let handles = self.hold_each(&session, pointers.as_slice(), held.epoch)?;
        let told = handles.copy(self.alloc)?;
        Ok(Answer {
            reply: Reply::Bytes { bytes, handles },
            deed: Deed::ReadBlock {
                session,
                address: held.address,
                epoch: held.epoch,
                handles: told,
            },
        })
    }

    /// The bytes of a block that is present, and none of one that is not.
    fn bytes_at(&self, address: &Address) -> Result<SharedBytes, ModelFault>
        ensures { IfOk result (λ bytes. bytes ≡ bytes_of (block_at self.now address.now)) }
    {
        let Some(stored) = self.blocks.as_map().get(address) else {
            return Ok(SharedBytes::from_vec(self.alloc, Vec::new(self.alloc))?);
        };
        let bytes = Vec::from_slice(self.alloc, stored.bytes.as_slice())?;
        Ok(SharedBytes::from_vec(self.alloc, bytes)?)
    }

    /// The pointers of a block that is present, and none of one that is not.
    pub(super) fn pointers_at(&self, address: &Address) -> Result<ListOf<Address>, ModelFault>
        ensures { IfOk result (λ pointers. pointers ≡ pointers_of (block_at self.now address.now)) }
    {
        let Some(stored) = self.blocks.as_map().get(address) else {
            return Ok(ListOf::new(self.alloc));
        };
        Ok(stored.pointers.copy(self.alloc)?)
    }

    /// A session holds each of these addresses in order, as given in one epoch.
    fn hold_each(
        &mut self,
        session: &Name,
        addresses: &[Address],
        epoch: u64,
    ) -> Result<ListOf<u32>, ModelFault>
        requires { IsSome (session_at self.old session.now) }
        ensures numbers { IfOk result
            (λ handles. handles
            ≡ range_with_len (next_of (session_at self.old session.now)) (length addresses.now)) }
        ensures store { OnOk result
            (self.new ≡ hold_all self.old session.now (helds_of addresses.now epoch)) }
    {
        let Some(seat) = self.sessions.get_mut(session) else {
            unreachable!();
        };
        Ok(seat.hold_each(addresses, epoch, self.alloc)?)
    }
}
