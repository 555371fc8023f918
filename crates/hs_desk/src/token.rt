//! What is noted of a client's operations.
ghost use Rattle.std.specs.Prelude.{◌≡◌, ◌∷◌, ◌++◌, [], None, Some, Ok, IsSome, IfErr, IfOk, OnErr};
ghost use Rattle.hs_model.specs.declared.op.Asked.{Asked};
ghost use Rattle.hs_model.specs.Deed.{deed_of};
ghost use Rattle.hs_desk.specs.Tokens.{HasAnswered, answered, begun, newly_held};
ghost use Rattle.hs_desk.specs.declared.fault.CoreFault.TheVariants.{NoMemory};

use crate::holding::newly_held;
use crate::roomy::push_both;
use crate::{CoreFault, RoomyList};
use hs_limits::{Held, Name};
use hs_model::{Asked, Deed, ModelFault, Reply, deed_of};
use std::alloc::Global;

/// What is noted of the operations of one session.
#[derive(Debug, Drop)]
pub struct Token {
    /// The session.
    pub session: Name,
    /// The number of the operation that was begun last, 0 where there was none.
    pub number: u64,
    /// The operation that was begun and is not answered yet.
    pub asked: Option<Asked>,
    /// What the answers gave to hold, in the order in which they came; a handle is a place in it.
    pub held: RoomyList<Held>,
    /// The journal place, the deed and the reply of each answer, in order.
    pub kept: RoomyList<(u64, Deed, Reply)>,
    /// The fault that ended the core, once a call has answered it.
    pub fault: Option<CoreFault>,
}

impl Token {
    /// The token of a session that has begun nothing yet. It takes no memory.
    pub fn new(alloc: Global, session: Name) -> Token
        ensures { result ≡ record {
          session = session;
          number = 0;
          asked = None;
          held = [];
          kept = [];
          fault = None;
        } }
    {
        Token {
            session,
            number: 0,
            asked: None,
            held: RoomyList::new(alloc),
            kept: RoomyList::new(alloc),
            fault: None,
        }
    }

    /// Notes a fault that a call answers. It takes no memory.
    pub fn fail(&mut self, fault: CoreFault)
        ensures { self.new ≡ record self.old { fault = Some fault } }
    {
        self.fault = Some(fault);
    }

    /// Notes an operation that was begun, with its number, or why it was not. It takes no memory.
    pub fn begin(&mut self, asked: Asked, given: Result<u64, CoreFault>)
        ensures { self.new ≡ begun asked given self.old }
    {
        match given {
            Ok(number) => {
                self.asked = Some(asked);
                self.number = number;
            }
            Err(fault) => self.fail(fault),
        }
    }

    /// Notes the answer that stands at a place of the journal, and gives it again. Without memory the
    /// fault alone is noted.
    pub fn answer(&mut self, alloc: Global, place: u64, reply: &Reply) -> Result<Reply, CoreFault>
        requires { IsSome self.old.asked }
        ensures value { IfOk result (λ r. r ≡ reply.now) }
        ensures noted { IfOk result (λ r. (asked : Asked) → self.old.asked ≡ Some asked
            → self.new ≡ answered place asked r self.old) }
        ensures answer { IfOk result (λ r. (asked : Asked) → self.old.asked ≡ Some asked
            → HasAnswered asked self.old self.new (Ok (Some r))) }
        ensures err { IfErr result (λ fault. (fault ≡ NoMemory)
            × (self.new ≡ record self.old { fault = Some fault })) }
    {
        match self.keep(alloc, place, reply) {
            Ok(copy) => {
                self.asked = None;
                Ok(copy)
            }
            Err(_) => {
                self.fail(CoreFault::NoMemory);
                Err(CoreFault::NoMemory)
            }
        }
    }

    /// Keeps an answer and what it gives to hold, or leaves both lists as they were.
    fn keep(&mut self, alloc: Global, place: u64, reply: &Reply) -> Result<Reply, ModelFault>
        requires { IsSome self.old.asked }
        ensures value { IfOk result (λ r. r ≡ reply.now) }
        ensures kept { IfOk result (λ r. (asked : Asked) → self.old.asked ≡ Some asked
            → self.new ≡ record self.old {
              held = self.old.held ++ newly_held asked reply.now;
              kept = self.old.kept ++ (place, deed_of self.old.held asked reply.now, reply.now) ∷ [];
            }) }
        ensures same { OnErr result (self.new ≡ self.old) }
    {
        let Some(asked) = &self.asked else {
            return Err(ModelFault::NoMemory);
        };
        let deed = deed_of(alloc, self.held.as_slice(), asked, reply)?;
        let more = newly_held(asked, reply);
        let item = (place, deed, reply.copy(alloc)?);
        let copy = reply.copy(alloc)?;
        push_both(&mut self.kept, item, &mut self.held, more)?;
        Ok(copy)
    }
}
