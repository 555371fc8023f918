//! Looking up a root of the plain store.
ghost use Rattle.std.specs.Prelude.{◌≡◌, ◌∷◌, [], IfOk, OnOk};
ghost use Rattle.hs_model.specs.declared.op.Op.TheVariants.{Look};
ghost use Rattle.hs_model.specs.Judge.{judge, looked, kept_address};
ghost use Rattle.hs_model.specs.Refusals.{first, no_session, handles_full, no_key};
ghost use Rattle.hs_model.specs.Store.{retained_at};

use super::{MemoryStore, nothing};
use crate::Answer;
use hs_limits::{Address, Held, Key, Limits, Name};
use hs_model::{Asked, Deed, ModelFault, Reply};

impl MemoryStore {
    /// A session comes to hold the address that a key retains.
    pub(super) fn look(
        &mut self,
        limits: Limits,
        session: Name,
        key: Key,
    ) -> Result<Answer, ModelFault>
        ensures reply { IfOk result
            (λ answer. answer.reply ≡ (judge limits self.old (Look session key)).reply) }
        ensures deed { IfOk result
            (λ answer. answer.deed ≡ (judge limits self.old (Look session key)).deed) }
        ensures store { OnOk result (self.new ≡ (judge limits self.old (Look session key)).store) }
    {
        if let Some(refusal) = self.look_refusal(limits, &session, &key)? {
            return Ok(Answer::refused(refusal, Asked::Look { session, key }));
        }
        self.grant_look(session, key)
    }

    /// Why a root is not looked up, if it is not.
    pub(super) fn look_refusal(
        &self,
        limits: Limits,
        session: &Name,
        key: &Key,
    ) -> Result<Option<Reply>, ModelFault>
        ensures { IfOk result (λ refusal. refusal
            ≡ first (no_session self.now session.now
            ∷ handles_full limits self.now session.now 1
            ∷ no_key self.now key.now
            ∷ [])) }
    {
        let Some(seat) = self.sessions.get(session) else {
            return Ok(Some(Reply::NoSession {
                session: session.copy(self.alloc)?,
            }));
        };
        if let Some(refusal) = seat.handles_full(limits, 1) {
            return Ok(Some(refusal));
        }
        self.no_key(key)
    }

    /// Does what a look-up does that is not refused.
    fn grant_look(&mut self, session: Name, key: Key) -> Result<Answer, ModelFault>
        ensures reply { IfOk result (λ answer. answer.reply ≡ (looked self.old session key).reply) }
        ensures deed { IfOk result (λ answer. answer.deed ≡ (looked self.old session key).deed) }
        ensures store { OnOk result (self.new ≡ (looked self.old session key).store) }
    {
        let address = self.kept_address(&key);
        let epoch = self.root_epoch(&key);
        let handle = self.hold(&session, Held { address, epoch })?;
        Ok(Answer {
            reply: Reply::Held { handle, epoch },
            deed: Deed::Looked {
                session,
                key,
                handle,
            },
        })
    }

    /// The address that a key retains, and the zero address where it retains none.
    fn kept_address(&self, key: &Key) -> Address
        ensures { result ≡ kept_address (retained_at self.now key.now) }
    {
        self.roots.retained(key).unwrap_or(nothing().address)
    }
}
