//! Why an operation is refused, as it is told: without the bytes of a write.
ghost use Rattle.std.specs.Prelude.{◌≡◌, ◌↔◌, ◌∷◌, [], IfOk, IsTrue, Some};
ghost use Rattle.hs_model.specs.Deeds.{IsRefused, is_there, refusals_told};
ghost use Rattle.hs_model.specs.declared.op.Asked.{Asked};
ghost use Rattle.hs_model.specs.declared.op.Asked.TheVariants.{Write};
ghost use Rattle.hs_model.specs.Refusals.{first, shard_full};

use super::MemoryStore;
use super::write::given_address;
use hs_limits::{Address, Limits, Name};
use hs_model::{Asked, ModelFault, Reply};

impl MemoryStore {
    /// Whether a reply is the first refusal of an operation as it is told; of a collision only that a block is
    /// there.
    pub(super) fn is_refused(
        &self,
        limits: Limits,
        asked: &Asked,
        told: &Reply,
    ) -> Result<bool, ModelFault>
        ensures { IfOk result (λ is. IsTrue is ↔ IsRefused limits self.now asked.now told.now) }
    {
        let plain = self.told_refusal(limits, asked, false)?;
        if is_told(&plain, told) {
            return Ok(true);
        }
        if !self.is_there(asked) {
            return Ok(false);
        }
        let colliding = self.told_refusal(limits, asked, true)?;
        Ok(is_told(&colliding, told))
    }

    /// Whether a block is there at the address that a write was given.
    fn is_there(&self, asked: &Asked) -> bool
        ensures { result ≡ is_there self.now asked.now }
    {
        match asked {
            Asked::Write { address, .. } => self.is_present(&given_address(*address)),
            _ => false,
        }
    }

    /// The first refusal of an operation as it is told, if one holds. `collides`: whether the block that is there
    /// has other bytes.
    #[tactic(auto, unfolding(hs_model::specs::Deeds::refusals_told, hs_model::specs::Judge::refusals))]
    fn told_refusal(
        &self,
        limits: Limits,
        asked: &Asked,
        collides: bool,
    ) -> Result<Option<Reply>, ModelFault>
        ensures { IfOk result
            (λ refusal. refusal ≡ first (refusals_told limits self.now asked.now collides)) }
    {
        match asked {
            Asked::Open { session } => self.open_refusal(limits, session),
            Asked::Close { session } => self.close_refusal(session),
            Asked::Write {
                session,
                length,
                handles,
                address,
            } => self.told_write_refusal(
                limits,
                session,
                *length,
                handles.as_slice(),
                *address,
                collides,
            ),
            Asked::Read { session, handle } => self.read_refusal(limits, session, *handle),
            Asked::Look { session, key } => self.look_refusal(limits, session, key),
            Asked::Root {
                session,
                key,
                handle,
            } => self.root_refusal(limits, session, key, *handle),
            Asked::Drop { key } => self.no_key(key),
            Asked::Forget { session, handle } => self.not_held(session, *handle),
            Asked::Name { session, handle } => self.not_held(session, *handle),
            Asked::Delete => Ok(self.delete_refusal(limits)),
            Asked::Stat => Ok(None),
        }
    }

    /// That of a write.
    fn told_write_refusal(
        &self,
        limits: Limits,
        session: &Name,
        length: u64,
        handles: &[u32],
        address: Option<Address>,
        collides: bool,
    ) -> Result<Option<Reply>, ModelFault>
        ensures { let asked : Asked = Write session.now length handles.now address in
            IfOk result (λ refusal. refusal ≡ first (refusals_told limits self.now asked collides)) }
    {
        let place = given_address(address);
        if let Some(refusal) = self.write_refusal(limits, session, length, handles, &place)? {
            return Ok(Some(refusal));
        }
        if collides {
            return Ok(Some(Reply::Collision));
        }
        Ok(self.room_refusal(limits, &place))
    }

    /// The refusal where a block is absent, and there is no room for it in its shard.
    pub(super) fn room_refusal(&self, limits: Limits, address: &Address) -> Option<Reply>
        ensures { result ≡ shard_full limits self.now address.now }
    {
        if !self.is_present(address) && self.is_shard_full(limits.blocks, address) {
            return Some(Reply::ShardFull {
                limit: limits.blocks,
            });
        }
        None
    }
}

/// Whether a refusal holds and is this.
fn is_told(refusal: &Option<Reply>, told: &Reply) -> bool
    ensures { IsTrue result ↔ (refusal.now ≡ Some told.now) }
{
    match refusal {
        Some(refusal) => refusal.is_same(told),
        None => false,
    }
}
