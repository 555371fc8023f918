//! Retaining an address of the plain store under a key.
ghost use Rattle.std.specs.Prelude.{◌≡◌, ◌∷◌, [], length, IfOk, OnOk, nat_le};
ghost use Rattle.hs_limits.specs.Shape.{shard_of_key};
ghost use Rattle.hs_model.specs.declared.op.Op.TheVariants.{Root};
ghost use Rattle.hs_model.specs.Judge.{judge, rooted, address_of};
ghost use Rattle.hs_model.specs.Refusals.{first, no_session, no_handle, stale, key_taken, roots_full};
ghost use Rattle.hs_model.specs.Store.{roots_in, root_epoch};

use super::MemoryStore;
use crate::Answer;
use hs_limits::{Address, Key, Limits, Name, shard_of_key};
use hs_model::{Asked, Deed, ModelFault, Reply};

impl MemoryStore {
    /// Retains the address of a handle under a key.
    pub(super) fn root(
        &mut self,
        limits: Limits,
        session: Name,
        key: Key,
        handle: u32,
    ) -> Result<Answer, ModelFault>
        ensures reply { IfOk result
            (λ answer. answer.reply ≡ (judge limits self.old (Root session key handle)).reply) }
        ensures deed { IfOk result
            (λ answer. answer.deed ≡ (judge limits self.old (Root session key handle)).deed) }
        ensures store { OnOk result (self.new ≡ (judge limits self.old (Root session key handle)).store) }
    {
        if let Some(refusal) = self.root_refusal(limits, &session, &key, handle)? {
            return Ok(Answer::refused(
                refusal,
                Asked::Root {
                    session,
                    key,
                    handle,
                },
            ));
        }
        let address = self.held_or(&session, handle).address;
        self.grant_root(key, address)
    }

    /// Why a session puts no root, if it does not.
    pub(super) fn root_refusal(
        &self,
        limits: Limits,
        session: &Name,
        key: &Key,
        handle: u32,
    ) -> Result<Option<Reply>, ModelFault>
        ensures { IfOk result (λ refusal. refusal
            ≡ first (no_session self.now session.now
            ∷ no_handle self.now session.now (handle ∷ [])
            ∷ stale self.now session.now (root_epoch self.now key.now) (handle ∷ [])
            ∷ key_taken self.now key.now (address_of self.now session.now handle)
            ∷ roots_full limits self.now key.now
            ∷ [])) }
    {
        let Some(seat) = self.sessions.get(session) else {
            return Ok(Some(Reply::NoSession {
                session: session.copy(self.alloc)?,
            }));
        };
        if let Some(refusal) = seat.use_refusal(self.root_epoch(key), handle) {
            return Ok(Some(refusal));
        }
        let address = self.held_or(session, handle).address;
        self.key_refusal(limits, key, &address)
    }

    /// Why a key does not come to retain an address, if it does not.
    pub(super) fn key_refusal(
        &self,
        limits: Limits,
        key: &Key,
        address: &Address,
    ) -> Result<Option<Reply>, ModelFault>
        ensures { IfOk result (λ refusal. refusal ≡ first
            (key_taken self.now key.now address.now ∷ roots_full limits self.now key.now ∷ [])) }
    {
        if let Some(kept) = self.roots.retained(key) {
            if kept == *address {
                return Ok(None);
            }
            return Ok(Some(Reply::KeyTaken {
                key: key.copy(self.alloc)?,
            }));
        }
        if self.is_root_full(limits.roots, key) {
            return Ok(Some(Reply::RootsFull {
                limit: limits.roots,
            }));
        }
        Ok(None)
    }

    /// Whether as many roots as the limit are retained in the shard of a key.
    fn is_root_full(&self, limit: u32, key: &Key) -> bool
        ensures { result ≡ nat_le limit
            (roots_in self.now (shard_of_key (length self.now.epochs) key.now)) }
    {
        let shard = shard_of_key(key, self.shape);
        self.roots.retained_in(shard) >= limit as usize
    }

    /// Does what putting a root does that is not refused.
    pub(super) fn grant_root(&mut self, key: Key, address: Address) -> Result<Answer, ModelFault>
        ensures reply { IfOk result (λ answer. answer.reply ≡ (rooted self.old key address).reply) }
        ensures deed { IfOk result (λ answer. answer.deed ≡ (rooted self.old key address).deed) }
        ensures store { OnOk result (self.new ≡ (rooted self.old key address).store) }
    {
        self.roots.keep(key.copy(self.alloc)?, address)?;
        Ok(Answer {
            reply: Reply::Ok,
            deed: Deed::Rooted { key, address },
        })
    }
}
